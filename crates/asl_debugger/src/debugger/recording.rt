//! Debuggers whose journal continues: a step after its end, and a cut at the position.
ghost use Rattle.std.specs.Prelude.{◌≡◌, ◌≢◌, ◌<◌, ◌≤◌, ◌+◌, ◌↔◌, ◌⊎◌, length, take, IfOk, IfErr, IsErrOf, OnErr, OnOk};
ghost use Rattle.asl_machine.specs.Paused.{IsRestOf};
ghost use Rattle.asl_machine.specs.declared.reply.Reply.{Reply};
ghost use Rattle.asl_machine.specs.Step.{Step};
ghost use Rattle.asl_journal.specs.Journal.{most_events, with_event};
ghost use Rattle.asl_debugger.specs.Growing.{HasOneAhead};

use crate::debugger::Debugger;
use crate::fault::StepFault;
use crate::trail::keep_marks;
use asl_journal::{Journal, MAX_EVENTS, Memory};
use asl_machine::{Machine, Paused, Reply};

impl<'p> Debugger<'p> {
    ghost use Rattle.asl_debugger.specs.Session.{IsStepBetween, recorded};

    /// At the end of the journal: steps thread t, writes the step down, and is after it.
    ///
    /// # Errors
    ///
    /// `NotAtEnd` where events follow; else `JournalFull` after 16,777,216 events; else `BadThread` where there is no such thread;
    /// else `OutOfMemory` where an allocation failed. Then nothing has changed.
    pub fn step<M: Memory>(&mut self, memory: M, t: u32) -> Result<Reply, StepFault>
        ensures event { IfOk result (λ reply. self.new ≡ recorded self.old (with_event self.old.log (record { thread = t; reply = reply })) (self.old.position + 1)) }
        ensures step { IfOk result (λ reply. IsStepBetween self.old self.new t reply) }
        ensures end { IsErrOf result StepFault.NotAtEnd ↔ (self.old.position ≢ length self.old.log.events) }
        ensures full { IsErrOf result StepFault.JournalFull
            ↔ ((self.old.position ≡ length self.old.log.events) × (length self.old.log.events ≡ most_events)) }
        ensures growth { IsErrOf result StepFault.OutOfMemory → M.refused memory }
        ensures stranger { IsErrOf result StepFault.BadThread
            ↔ ((self.old.position ≡ length self.old.log.events) × (length self.old.log.events < most_events) × (self.old.log.threads ≤ t)) }
        ensures err { OnErr result (self.new ≡ self.old) }
    {
        if self.position as usize != self.journal.events().len() {
            return Err(StepFault::NotAtEnd);
        }
        if self.position as usize >= MAX_EVENTS {
            return Err(StepFault::JournalFull);
        }
        if t >= self.journal.threads() {
            return Err(StepFault::BadThread);
        }
        self.record(memory, t)
    }

    /// Steps thread t at the end of the journal, writes the step down, and is after it. Where a checkpoint is due there, it is made
    /// ahead.
    fn record<M: Memory>(&mut self, memory: M, t: u32) -> Result<Reply, StepFault>
        requires end { self.old.position ≡ length self.old.log.events }
        requires room { length self.old.log.events < most_events }
        requires thread { t < self.old.log.threads }
        ensures event { IfOk result (λ reply. self.new ≡ recorded self.old (with_event self.old.log (record { thread = t; reply = reply })) (self.old.position + 1)) }
        ensures step { IfOk result (λ reply. IsStepBetween self.old self.new t reply) }
        ensures memory { IfErr result (λ fault. fault ≡ StepFault.OutOfMemory) }
        ensures growth { OnErr result (M.refused memory) }
        ensures err { OnErr result (self.new ≡ self.old) }
    {
        let next = self.position as usize + 1;
        if next == self.checkpoints.len() * self.spacing as usize {
            let reply = write_marked(
                memory,
                &mut self.journal,
                &mut self.machine,
                &mut self.checkpoints,
                t,
            )?;
            self.position += 1;
            Ok(reply)
        } else {
            let reply = write_step(memory, &mut self.journal, &mut self.machine, t)?;
            self.position += 1;
            Ok(reply)
        }
    }

    /// Forgets all events after the position.
    pub fn cut(&mut self)
        ensures { self.new ≡ recorded self.old (record { threads = self.old.log.threads; events = take self.old.position self.old.log.events }) self.old.position }
    {
        let number = self.position / self.spacing;
        self.checkpoints.truncate(number as usize + 1);
        keep_marks(&mut self.marks, 0, self.position);
        self.journal.cut(self.position);
    }
}

/// Steps thread t of the machine, and writes the step into the journal. What is left of the machine after the step, which is made ahead, is
/// put behind the checkpoints. Only memory can fail.
fn write_marked<M: Memory>(
    memory: M,
    journal: &mut Journal,
    machine: &mut Machine<'_>,
    checkpoints: &mut Vec<Paused>,
    t: u32,
) -> Result<Reply, StepFault>
    requires threads { length machine.old.state.threads ≡ journal.old.threads }
    requires room { length journal.old.events < most_events }
    requires thread { t < journal.old.threads }
    ensures event { IfOk result (λ reply. journal.new ≡ with_event journal.old (record { thread = t; reply = reply })) }
    ensures step { IfOk result (λ reply. Step machine.old.image machine.old.state t reply machine.new.state) }
    ensures mark { OnOk result (HasOneAhead machine.old t checkpoints.old.items checkpoints.new.items) }
    ensures image { machine.new.image ≡ machine.old.image }
    ensures memory { IfErr result (λ fault. fault ≡ StepFault.OutOfMemory) }
    ensures growth { OnErr result (M.refused memory) }
    ensures err { OnErr result (journal.new ≡ journal.old) }
    ensures err_machine { OnErr result (machine.new ≡ machine.old) }
    ensures err_checkpoints { OnErr result (checkpoints.new.items ≡ checkpoints.old.items) }
{
    memory.reserve(checkpoints, 1)?;
    let ahead = mark_ahead(memory, machine, t)?;
    let reply = write_step(memory, journal, machine, t)?;
    checkpoints.push_reserved(ahead);
    Ok(reply)
}

/// What is left of a copy of the machine after a step of thread t. Only memory can fail.
fn mark_ahead<M: Memory>(memory: M, machine: &Machine<'_>, t: u32) -> Result<Paused, StepFault>
    requires { t < length machine.now.state.threads }
    ensures fits { IfOk result (IsRestOf machine.now.image) }
    ensures step { IfOk result (λ rest. (reply : Reply) × Step machine.now.image machine.now.state t reply rest.state) }
    ensures memory { IfErr result (λ fault. fault ≡ StepFault.OutOfMemory) }
    ensures growth { OnErr result (M.refused memory) }
{
    match memory.copy_machine(machine) {
        Ok(mut ahead) => match memory.step_machine(&mut ahead, t) {
            Ok(_) => Ok(ahead.pause()),
            Err(_) => Err(StepFault::OutOfMemory),
        },
        Err(_) => Err(StepFault::OutOfMemory),
    }
}

/// Steps thread t of the machine, and writes the step into the journal. Only memory can fail.
fn write_step<M: Memory>(
    memory: M,
    journal: &mut Journal,
    machine: &mut Machine<'_>,
    t: u32,
) -> Result<Reply, StepFault>
    requires threads { length machine.old.state.threads ≡ journal.old.threads }
    requires room { length journal.old.events < most_events }
    requires thread { t < journal.old.threads }
    ensures event { IfOk result (λ reply. journal.new ≡ with_event journal.old (record { thread = t; reply = reply })) }
    ensures step { IfOk result (λ reply. Step machine.old.image machine.old.state t reply machine.new.state) }
    ensures image { machine.new.image ≡ machine.old.image }
    ensures memory { IfErr result (λ fault. fault ≡ StepFault.OutOfMemory) }
    ensures growth { OnErr result (M.refused memory) }
    ensures err { OnErr result (journal.new ≡ journal.old) }
    ensures err_machine { OnErr result (machine.new ≡ machine.old) }
{
    match journal.step(memory, machine, t) {
        Ok(reply) => Ok(reply),
        Err(_) => Err(StepFault::OutOfMemory),
    }
}
