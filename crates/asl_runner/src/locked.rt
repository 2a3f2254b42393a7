//! The machine and its journal under the lock.
ghost use Rattle.std.specs.Prelude.{◌≡◌, ◌↔◌, ◌⊎◌, ◌<◌, ◌++◌, ◌∷◌, [], true, false, length, IfOk, IfErr, IsErrOf, OnErr};
ghost use Rattle.asl_machine.specs.WellFormed.{MayWantMemory};
ghost use Rattle.asl_journal.specs.Journal.{IsJournal, LeadsTo, most_events};
ghost use Rattle.asl_journal.specs.Recorded.{IsUnchanged, event_of, has_ended};
ghost use Rattle.asl_runner.specs.History.{AreRunning};

use asl_journal::{Journal, JournalFault, Journaled, Receipt};
use asl_machine::Machine;
use std::alloc::Global;
use std::marker::{Brand, PhantomData};
use std::sync::{Mutex, Wait};

/// Which run it is. Each call of `run` picks it.
pub trait Named {
    ghost use Rattle.std.specs.Prelude.{ℕ};
    ghost use Rattle.asl_code.specs.declared.image.Image.{Image};

    /// The program.
    ghost image: { Image };
    /// How many threads of it there are.
    ghost count: { ℕ };
}

impl Named for Brand {
    ghost use Rattle.std.specs.Prelude.{[]};

    ghost image = { record { version = 1; classes = 0; globals = []; functions = []; lists = []; start = 0; code = [] } };

    ghost count = { 0 };
}

/// A machine and the journal of its run, of which it is known which run it is. No step of it is of a thread that had ended
/// before.
#[derive(Drop)]
pub struct Locked<'p, J: Named> {
    journaled: Journaled<'p>,
    of: PhantomData<J>,
    ghost named: { (journaled.image ≡ J.image) × (journaled.count ≡ J.count) },
    ghost running: { AreRunning journaled.events },
}

impl<'p, J: Named> Locked<'p, J> {
    /// The machine and its journal, named.
    pub fn new(journaled: Journaled<'p>) -> Locked<'p, J>
        requires image { journaled.image ≡ J.image }
        requires count { journaled.count ≡ J.count }
        requires empty { journaled.events ≡ [] }
    {
        Locked {
            journaled,
            of: PhantomData,
        }
    }

    /// Steps the thread, which has not ended, and writes the step down.
    ///
    /// # Errors
    ///
    /// `BadThread` where the thread has ended; else `JournalFull` after 16,777,216 events; else `OutOfMemory` where a growth
    /// was refused. Then no event is written, and the machine is where it was.
    pub fn step(&mut self, alloc: Global, t: u8) -> Result<Receipt, JournalFault>
        requires { t < J.count }
        ensures thread { IfOk result (λ receipt. receipt.thread ≡ t) }
        ensures event { IfOk result (λ receipt. self.new.journaled.events ≡ self.old.journaled.events ++ event_of receipt ∷ []) }
        ensures index { IfOk result (λ receipt. receipt.index ≡ length self.old.journaled.events) }
        ensures ended { IfOk result (λ receipt. receipt.ended ≡ has_ended self.new.journaled.state t) }
        ensures gone { IsErrOf result JournalFault.BadThread ↔ (has_ended self.old.journaled.state t ≡ true) }
        ensures full { IsErrOf result JournalFault.JournalFull
            ↔ ((has_ended self.old.journaled.state t ≡ false) × (length self.old.journaled.events ≡ most_events)) }
        ensures memory { IsErrOf result JournalFault.OutOfMemory
            → (self.old.journaled.spare ≡ 0) ⊎ MayWantMemory J.image self.old.journaled.state t }
        ensures other { IfErr result (λ fault. (fault ≡ JournalFault.JournalFull) ⊎ (fault ≡ JournalFault.BadThread)
            ⊎ (fault ≡ JournalFault.OutOfMemory)) }
        ensures err { OnErr result (IsUnchanged self.old.journaled self.new.journaled) }
    {
        let t = u32::from(t);
        if self.journaled.machine().pc(t).is_none() {
            return Err(JournalFault::BadThread);
        }
        self.journaled.step(alloc, t)
    }

    /// The journal and the machine: the journal is one of this run.
    pub fn into_parts(self) -> (Journal, Machine<'p>)
        ensures threads { result.0.threads ≡ J.count }
        ensures journal { IsJournal J.image J.count result.0.events }
        ensures running { AreRunning result.0.events }
        ensures image { result.1.image ≡ J.image }
        ensures leads { LeadsTo J.image J.count result.0.events result.1.state }
    {
        let Locked { journaled, of: _ } = self;
        journaled.into_parts()
    }
}

/// What workers step under the lock.
pub trait Steps: Sync {
    ghost use Rattle.std.specs.Prelude.{◌≡◌, ◌<◌, ℕ, IfOk};

    /// How many threads there are.
    ghost count: { ℕ };

    /// Takes the lock, steps the thread, and frees the lock.
    fn step_one<R: Wait>(&self, rt: &R, alloc: Global, t: u8) -> Result<Receipt, JournalFault>
        requires { t < count }
        ensures { IfOk result (λ receipt. receipt.thread ≡ t) };
}

impl<'p, J: Named + Send + Sync> Steps for Mutex<Locked<'p, J>> {
    ghost count = { J.count };

    fn step_one<R: Wait>(&self, rt: &R, alloc: Global, t: u8) -> Result<Receipt, JournalFault> {
        self.lock(rt).step(alloc, t)
    }
}
