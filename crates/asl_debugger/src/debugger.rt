//! The debugger: a journal of a program, and a position in it.
ghost use Rattle.std.specs.Prelude.{◌≡◌, ◌<◌, ◌≤◌, ◌+◌, ◌-◌, ◌↔◌, ◌⊎◌, [], length, IfErr, IfOk, IsErrOf, IsOk, IsTrue, OnErr, OnOk};
ghost use Rattle.asl_journal.specs.Journal.{IsJournal};
ghost use Rattle.asl_debugger.specs.Breaks.{has_break, HasBreak, HasNoBreak};
ghost use Rattle.asl_debugger.specs.Checkpoints.{IsDebuggerState};
ghost use Rattle.asl_debugger.specs.Opening.{IsOpenFault};

mod moving;
mod pausing;
mod recording;
mod search;

use crate::breakpoints::{clear_break, put_break};
use crate::checkpoints::{make_event, prepared};
use crate::fault::DebugFault;
use crate::trail::Mark;
use asl_code::Program;
use asl_journal::{Journal, Memory};
use asl_machine::{Machine, Paused};
pub use pausing::PausedDebugger;
use std::marker::Model;

/// A journal of a program, a position in it with the machine there, and breakpoints. Checkpoints of the machine, kept without the
/// program, stand at 0, the spacing, twice the spacing and so on, and marks between two of them, where moves back left them
/// (`docs/JOURNAL.md`, "The debugger").
#[derive(Drop)]
pub struct Debugger<'p> {
    journal: Journal,
    spacing: u32,
    checkpoints: Vec<Paused>,
    marks: Vec<Mark>,
    machine: Machine<'p>,
    position: u32,
    breakpoints: Vec<u32>,
}

impl<'p> Model for Debugger<'p> {
    ghost use Rattle.asl_debugger.specs.Session.{Session};
    ghost use Rattle.asl_debugger.specs.Checkpoints.{IsDebuggerState};

    ghost Value = { Session };

    ghost view = { λ d. record {
      image = d.machine.image;
      log = d.journal;
      position = d.position;
      breakpoints = d.breakpoints.items;
    } };

    ghost invariant = { λ d. IsDebuggerState d.machine.image d.journal d.spacing d.checkpoints.items d.marks.items d.machine d.position };
}

impl<'p> Debugger<'p> {
    ghost use Rattle.asl_debugger.specs.Session.{IsNextStop, IsLastStop, IsShown, MayWantMemoryAt, moved, with_breaks};

    /// A debugger at position 0 of the journal, if it is one of the program. Else it is handed back. A copy of the machine
    /// is kept every `spacing` events, at least 1; a smaller spacing takes more memory and makes moves quicker, and changes
    /// no answer.
    ///
    /// # Errors
    ///
    /// `BadCount` where the program cannot start so many threads; else `Differs` with the first event that differs;
    /// `OutOfMemory` where an allocation failed. The journal comes back with the fault.
    pub fn open<M: Memory>(
        memory: M,
        program: &'p Program,
        journal: Journal,
        spacing: u32,
    ) -> Result<Debugger<'p>, (DebugFault, Journal)>
        requires { 0 < spacing }
        ensures session { IfOk result (λ debugger. debugger ≡ record {
          image = program.now;
          log = journal;
          position = 0;
          breakpoints = [];
        }) }
        ensures journal { OnOk result (IsJournal program.now journal.threads journal.events) }
        ensures refused { IfErr result (λ refusal. IsOpenFault program.now journal refusal.0) }
        // A journal of the program is refused only because memory ran out.
        ensures only { IsJournal program.now journal.threads journal.events
            → IfErr result (λ refusal. refusal.0 ≡ DebugFault.OutOfMemory) }
        ensures growth { IfErr result (λ refusal. refusal.0 ≡ DebugFault.OutOfMemory → M.refused memory) }
        ensures back { IfErr result (λ refusal. refusal.1 ≡ journal) }
    {
        match prepared(memory, program, &journal, spacing) {
            Ok((checkpoints, machine)) => Ok(Debugger {
                journal,
                spacing,
                checkpoints,
                marks: Vec::new(memory.allocator()),
                machine,
                position: 0,
                breakpoints: Vec::new(memory.allocator()),
            }),
            Err(fault) => Err((fault, journal)),
        }
    }

    /// Goes to position k. Where it is there already, no memory is wanted.
    ///
    /// # Errors
    ///
    /// `NoSuchStep` where the journal has no such position; `OutOfMemory` where an allocation failed. Then nothing has moved.
    pub fn goto<M: Memory>(&mut self, memory: M, k: u32) -> Result<(), DebugFault>
        ensures moves { OnOk result (self.new ≡ moved self.old k) }
        ensures none { IsErrOf result DebugFault.NoSuchStep ↔ (length self.old.log.events < k) }
        ensures here { k ≡ self.old.position → IsOk result }
        ensures growth { IsErrOf result DebugFault.OutOfMemory → M.refused memory }
        ensures other { IfErr result (λ fault. (fault ≡ DebugFault.NoSuchStep) ⊎ (fault ≡ DebugFault.OutOfMemory)) }
        ensures err { OnErr result (self.new ≡ self.old) }
    {
        if k as usize > self.journal.events().len() {
            return Err(DebugFault::NoSuchStep);
        }
        self.show(memory, k)
    }

    /// Continues by one event, which takes one step. Memory is wanted only where that step may want it.
    ///
    /// # Errors
    ///
    /// `AtEnd` after the last event; `OutOfMemory` where an allocation failed. Then nothing has moved.
    pub fn forward<M: Memory>(&mut self, memory: M) -> Result<(), DebugFault>
        ensures moves { OnOk result (self.new ≡ moved self.old (self.old.position + 1)) }
        ensures end { IsErrOf result DebugFault.AtEnd ↔ (self.old.position ≡ length self.old.log.events) }
        ensures memory { IsErrOf result DebugFault.OutOfMemory
            → MayWantMemoryAt self.old.image self.old.log self.old.position }
        ensures growth { IsErrOf result DebugFault.OutOfMemory → M.refused memory }
        ensures other { IfErr result (λ fault. (fault ≡ DebugFault.AtEnd) ⊎ (fault ≡ DebugFault.OutOfMemory)) }
        ensures err { OnErr result (self.new ≡ self.old) }
    {
        let position = self.position as usize;
        if position == self.journal.events().len() {
            return Err(DebugFault::AtEnd);
        }
        make_event(memory, &mut self.machine, &self.journal, position)?;
        self.position += 1;
        Ok(())
    }

    /// Goes back by one event.
    ///
    /// # Errors
    ///
    /// `AtStart` before the first event; `OutOfMemory` where an allocation failed. Then nothing has moved.
    pub fn back<M: Memory>(&mut self, memory: M) -> Result<(), DebugFault>
        ensures moves { OnOk result (self.new ≡ moved self.old (self.old.position - 1)) }
        ensures start { IsErrOf result DebugFault.AtStart ↔ (self.old.position ≡ 0) }
        ensures growth { IsErrOf result DebugFault.OutOfMemory → M.refused memory }
        ensures other { IfErr result (λ fault. (fault ≡ DebugFault.AtStart) ⊎ (fault ≡ DebugFault.OutOfMemory)) }
        ensures err { OnErr result (self.new ≡ self.old) }
    {
        if self.position == 0 {
            return Err(DebugFault::AtStart);
        }
        self.show(memory, self.position - 1)
    }

    /// Continues to the least later stop, or to the end where there is none.
    ///
    /// # Errors
    ///
    /// `AtEnd` after the last event; `OutOfMemory` where an allocation failed. Then nothing has moved.
    pub fn forward_to_break<M: Memory>(&mut self, memory: M) -> Result<(), DebugFault>
        ensures moves { OnOk result (self.new ≡ moved self.old self.new.position) }
        ensures stop { OnOk result (IsNextStop self.old self.new.position) }
        ensures end { IsErrOf result DebugFault.AtEnd ↔ (self.old.position ≡ length self.old.log.events) }
        ensures growth { IsErrOf result DebugFault.OutOfMemory → M.refused memory }
        ensures other { IfErr result (λ fault. (fault ≡ DebugFault.AtEnd) ⊎ (fault ≡ DebugFault.OutOfMemory)) }
        ensures err { OnErr result (self.new ≡ self.old) }
    {
        if self.position as usize == self.journal.events().len() {
            return Err(DebugFault::AtEnd);
        }
        let (machine, position) = self.next_stop(memory)?;
        self.machine = machine;
        self.position = position;
        Ok(())
    }

    /// Goes back to the greatest earlier stop, or to the start where there is none.
    ///
    /// # Errors
    ///
    /// `AtStart` before the first event; `OutOfMemory` where an allocation failed. Then nothing has moved.
    pub fn back_to_break<M: Memory>(&mut self, memory: M) -> Result<(), DebugFault>
        ensures moves { OnOk result (self.new ≡ moved self.old self.new.position) }
        ensures stop { OnOk result (IsLastStop self.old self.new.position) }
        ensures start { IsErrOf result DebugFault.AtStart ↔ (self.old.position ≡ 0) }
        ensures growth { IsErrOf result DebugFault.OutOfMemory → M.refused memory }
        ensures other { IfErr result (λ fault. (fault ≡ DebugFault.AtStart) ⊎ (fault ≡ DebugFault.OutOfMemory)) }
        ensures err { OnErr result (self.new ≡ self.old) }
    {
        if self.position == 0 {
            return Err(DebugFault::AtStart);
        }
        let stop = self.last_stop(memory)?;
        self.show(memory, stop)
    }

    /// Makes the place a breakpoint. A place above 65,535, which no code has, is never one: nothing is kept of it. There, and
    /// where the place is a breakpoint already, no memory is wanted and nothing changes.
    ///
    /// # Errors
    ///
    /// `OutOfMemory` where an allocation failed.
    pub fn break_at<M: Memory>(&mut self, memory: M, pc: u32) -> Result<(), DebugFault>
        ensures same { self.new ≡ with_breaks self.old self.new.breakpoints }
        ensures has { OnOk result (HasBreak self.old.breakpoints self.new.breakpoints pc) }
        ensures again { IsTrue (has_break self.old.breakpoints pc) → IsOk result × (self.new ≡ self.old) }
        ensures never { 65536 ≤ pc → IsOk result × (self.new ≡ self.old) }
        ensures memory { IfErr result (λ fault. fault ≡ DebugFault.OutOfMemory) }
        ensures growth { OnErr result (M.refused memory) }
        ensures err { OnErr result (self.new ≡ self.old) }
    {
        put_break(memory, &mut self.breakpoints, pc)?;
        Ok(())
    }

    /// Makes the place no breakpoint.
    pub fn clear(&mut self, pc: u32)
        ensures same { self.new ≡ with_breaks self.old self.new.breakpoints }
        ensures has { HasNoBreak self.old.breakpoints self.new.breakpoints pc }
    {
        clear_break(&mut self.breakpoints, pc);
    }

    /// The machine at the position: the events before it lead there, each by a line of the instruction table. The debugger's log is a
    /// journal of its program, so there is no other.
    pub fn view(&self) -> &Machine<'p>
        ensures shown { IsShown self.now result.now }
        ensures journal { IsJournal self.now.image self.now.log.threads self.now.log.events }
    {
        &self.machine
    }

    /// How many events lead to the machine that is shown. The debugger's log is a journal of its program.
    pub fn position(&self) -> u32
        ensures position { result ≡ self.now.position }
        ensures within { result ≤ length self.now.log.events }
        ensures journal { IsJournal self.now.image self.now.log.threads self.now.log.events }
    {
        self.position
    }

    /// The journal: the whole log, wherever the position is.
    pub fn journal(&self) -> &Journal
        ensures { result.now ≡ self.now.log }
    {
        &self.journal
    }
}
