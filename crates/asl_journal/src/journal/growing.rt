//! Journals that grow with their machine, and that are cut.
ghost use Rattle.std.specs.Prelude.{◌≡◌, ◌<◌, ◌≤◌, ◌↔◌, ◌⊎◌, ◌++◌, ◌∷◌, [], length, take, IfOk, IfErr, IsErrOf, OnErr};
ghost use Rattle.asl_machine.specs.Step.{Step};
ghost use Rattle.asl_journal.specs.Journal.{most_events, with_event};

use crate::event::Event;
use crate::fault::JournalFault;
use crate::journal::Journal;
use crate::journal_limits::MAX_EVENTS;
use crate::memory::Memory;
use asl_machine::{Machine, Reply};

impl Journal {
    /// Steps thread t of a machine with as many threads, and writes the step down. Capacity for the event is reserved before anything
    /// changes.
    ///
    /// # Errors
    ///
    /// `JournalFull` after 16,777,216 events; else `BadThread` where there is no such thread; else `OutOfMemory` where a growth was
    /// refused. Then nothing has changed.
    pub fn step<M: Memory>(
        &mut self,
        memory: M,
        machine: &mut Machine<'_>,
        t: u32,
    ) -> Result<Reply, JournalFault>
        requires threads { length machine.old.state.threads ≡ self.old.threads }
        ensures event { IfOk result (λ reply. self.new ≡ with_event self.old (record { thread = t; reply = reply })) }
        ensures step { IfOk result (λ reply. Step machine.old.image machine.old.state t reply machine.new.state) }
        ensures image { machine.new.image ≡ machine.old.image }
        ensures full { IsErrOf result JournalFault.JournalFull ↔ (length self.old.events ≡ most_events) }
        ensures stranger { IsErrOf result JournalFault.BadThread ↔ ((length self.old.events < most_events) × (self.old.threads ≤ t)) }
        ensures growth { IsErrOf result JournalFault.OutOfMemory → M.refused memory }
        ensures other { IfErr result (λ fault. (fault ≡ JournalFault.JournalFull) ⊎ (fault ≡ JournalFault.BadThread)
            ⊎ (fault ≡ JournalFault.OutOfMemory)) }
        ensures err { OnErr result (self.new ≡ self.old) }
        ensures err_machine { OnErr result (machine.new ≡ machine.old) }
    {
        if self.events.len() >= MAX_EVENTS {
            return Err(JournalFault::JournalFull);
        }
        if t >= self.threads {
            return Err(JournalFault::BadThread);
        }
        memory.reserve(&mut self.events, 1)?;
        let reply = memory.step_machine(machine, t)?;
        let thread = t as u8;
        self.events.push_reserved(Event { thread, reply });
        Ok(reply)
    }

    /// Forgets all events but the first k.
    pub fn cut(&mut self, k: u32)
        ensures { self.new ≡ record { threads = self.old.threads; events = take k self.old.events } }
    {
        self.events.truncate(k as usize);
    }
}
