//! A machine whose steps are written down.
ghost use Rattle.std.specs.Prelude.{◌≡◌, ◌<◌, ◌≤◌, ◌+◌, ◌-◌, ◌↔◌, ◌⊎◌, [], ◌∷◌, ◌++◌, length, min, IfOk, IfErr, IsOk, OnOk, OnErr, IsErrOf};
ghost use Rattle.asl_machine.specs.WellFormed.{MayWantMemory};
ghost use Rattle.asl_machine.specs.Step.{Step};
ghost use Rattle.asl_code.specs.Versions.{most_threads};
ghost use Rattle.asl_machine.specs.Run.{start_of};
ghost use Rattle.asl_journal.specs.Journal.{IsCount, IsJournal, LeadsTo, most_events};

mod pausing;

use crate::event::{Event, Receipt};
use crate::fault::JournalFault;
use crate::journal::Journal;
use crate::journal_limits::MAX_EVENTS;
use crate::memory::Memory;
use asl_code::Program;
use asl_machine::Machine;
pub use pausing::PausedJournaled;
use std::marker::Model;

/// A machine and the journal of its run. The machine is always where the journal's events lead, each by a line of the
/// instruction table (`docs/JOURNAL.md`, "A machine that writes it down").
#[derive(Drop)]
pub struct Journaled<'p> {
    events: Vec<Event>,
    machine: Machine<'p>,
}

impl<'p> Model for Journaled<'p> {
    ghost use Rattle.std.specs.Prelude.{length, vec_capacity};
    ghost use Rattle.std.specs.Coded.{codes};
    ghost use Rattle.asl_lock_forest.specs.Held.{coded_holding};
    ghost use Rattle.asl_journal.specs.Recorded.{Recorded, Fits, spare_of};

    ghost Value = { Recorded };

    ghost coded = { Prim.hlevel (codes, coded_holding) };

    ghost view = { λ j. record {
      image = j.machine.image;
      state = j.machine.state;
      count = length j.machine.state.threads;
      events = j.events.items;
      spare = spare_of (vec_capacity j.events) (length j.events.items);
    } };

    ghost invariant = { λ j. Fits j.machine (length j.machine.state.threads) j.events.items };
}

impl<'p> Journaled<'p> {
    ghost use Rattle.asl_journal.specs.Recorded.{IsUnchanged, event_of, has_ended, log_of, machine_of};

    /// The machine in which n threads of the program start, with an empty journal.
    ///
    /// # Errors
    ///
    /// `BadCount` for no thread and for more than the program's version sets; `OutOfMemory` where an allocation failed.
    pub fn start<M: Memory>(
        memory: M,
        program: &'p Program,
        n: u32,
    ) -> Result<Journaled<'p>, JournalFault>
        ensures image { IfOk result (λ journaled. journaled.image ≡ program.now) }
        ensures threads { IfOk result (λ journaled. journaled.count ≡ n) }
        ensures empty { IfOk result (λ journaled. journaled.events ≡ []) }
        ensures state { IfOk result (λ journaled. journaled.state ≡ start_of program.now n) }
        ensures count { IsErrOf result JournalFault.BadCount ↔ ((n ≡ 0) ⊎ (most_threads program.now.version < n)) }
        ensures growth { IsErrOf result JournalFault.OutOfMemory → M.refused memory }
        ensures other { IfErr result (λ fault. (fault ≡ JournalFault.BadCount) ⊎ (fault ≡ JournalFault.OutOfMemory)) }
    {
        let machine = memory.new_machine(program, n)?;
        // Its program is verified.
        machine.threads();
        Ok(Journaled {
            events: Vec::new(memory.allocator()),
            machine,
        })
    }

    /// Steps thread t, and writes the step down, also where it is blocked or the thread has ended. Capacity for the event is
    /// made before anything changes.
    ///
    /// # Errors
    ///
    /// `JournalFull` after 16,777,216 events; else `BadThread` where there is no such thread; else `OutOfMemory` where a growth was
    /// refused. Then no event is written, and the machine is where it was.
    pub fn step<M: Memory>(&mut self, memory: M, t: u32) -> Result<Receipt, JournalFault>
        ensures event { IfOk result (λ receipt. self.new.events ≡ self.old.events ++ event_of receipt ∷ []) }
        ensures step { IfOk result (λ receipt. Step self.old.image self.old.state t receipt.reply self.new.state) }
        ensures index { IfOk result (λ receipt. receipt.index ≡ length self.old.events) }
        ensures thread { IfOk result (λ receipt. receipt.thread ≡ t) }
        ensures ended { IfOk result (λ receipt. receipt.ended ≡ has_ended self.new.state t) }
        ensures journal { IsJournal self.new.image self.new.count self.new.events }
        ensures leads { LeadsTo self.new.image self.new.count self.new.events self.new.state }
        ensures image { self.new.image ≡ self.old.image }
        ensures count { self.new.count ≡ self.old.count }
        ensures spare { self.old.spare ≤ self.new.spare + 1 }
        ensures kept { OnErr result (self.old.spare ≤ self.new.spare) }
        ensures full { IsErrOf result JournalFault.JournalFull ↔ (length self.old.events ≡ most_events) }
        ensures stranger { IsErrOf result JournalFault.BadThread
            ↔ ((length self.old.events < most_events) × (self.old.count ≤ t)) }
        ensures memory { IsErrOf result JournalFault.OutOfMemory
            → (self.old.spare ≡ 0) ⊎ MayWantMemory self.old.image self.old.state t }
        ensures growth { IsErrOf result JournalFault.OutOfMemory → M.refused memory }
        ensures other { IfErr result (λ fault. (fault ≡ JournalFault.JournalFull) ⊎ (fault ≡ JournalFault.BadThread)
            ⊎ (fault ≡ JournalFault.OutOfMemory)) }
        ensures err { OnErr result (IsUnchanged self.old self.new) }
    {
        if self.events.len() >= MAX_EVENTS {
            return Err(JournalFault::JournalFull);
        }
        if t >= self.machine.threads() {
            return Err(JournalFault::BadThread);
        }
        memory.reserve(&mut self.events, 1)?;
        let reply = memory.step_machine(&mut self.machine, t)?;
        let index = self.events.len() as u32;
        let thread = t as u8;
        let ended = self.machine.pc(t).is_none();
        self.events.push_reserved(Event { thread, reply });
        Ok(Receipt {
            index,
            thread,
            reply,
            ended,
        })
    }

    /// Makes capacity for m events, or for as many as the limit leaves where that is less.
    ///
    /// # Errors
    ///
    /// `OutOfMemory` where an allocation failed.
    pub fn reserve<M: Memory>(&mut self, memory: M, m: u32) -> Result<(), JournalFault>
        ensures room { OnOk result (min m (most_events - length self.old.events) ≤ self.new.spare) }
        ensures grows { self.old.spare ≤ self.new.spare }
        ensures same { IsUnchanged self.old self.new }
        ensures succeeds { min m (most_events - length self.old.events) ≤ self.old.spare → IsOk result }
        ensures growth { OnErr result (M.refused memory) }
        ensures memory { IfErr result (λ fault. fault ≡ JournalFault.OutOfMemory) }
    {
        let left = MAX_EVENTS - self.events.len();
        memory.reserve(&mut self.events, left.min(m as usize))?;
        Ok(())
    }

    /// For how many events there is capacity: so many steps are not refused for lack of the journal's capacity.
    pub fn spare(&self) -> u32
        ensures spare { result ≡ self.now.spare }
        ensures limit { result + length self.now.events ≤ most_events }
    {
        let room = self.events.capacity().min(MAX_EVENTS) - self.events.len();
        room as u32
    }

    /// The events so far, in order.
    pub fn events(&self) -> &[Event]
        ensures events { result.now ≡ self.now.events }
        ensures journal { IsJournal self.now.image self.now.count self.now.events }
        ensures leads { LeadsTo self.now.image self.now.count self.now.events self.now.state }
        ensures count { IsCount self.now.count }
    {
        self.events.as_slice()
    }

    /// The machine, in the state to which the events led.
    pub fn machine(&self) -> &Machine<'p>
        ensures machine { result.now ≡ machine_of self.now }
        ensures threads { length self.now.state.threads ≡ self.now.count }
    {
        &self.machine
    }

    /// The journal and the machine.
    pub fn into_parts(self) -> (Journal, Machine<'p>)
        ensures log { result.0 ≡ log_of self.entry }
        ensures machine { result.1 ≡ machine_of self.entry }
        ensures journal { IsJournal self.entry.image self.entry.count self.entry.events }
        ensures leads { LeadsTo self.entry.image self.entry.count self.entry.events self.entry.state }
    {
        let threads = self.machine.threads();
        let Journaled { events, machine } = self;
        (Journal::from_parts(threads, events), machine)
    }
}
