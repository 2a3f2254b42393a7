//! Machines with their journals that are kept without the loan of their program.
ghost use Rattle.std.specs.Prelude.{◌≡◌};
ghost use Rattle.asl_journal.specs.Paused.{IsRecordedRestOf};

use crate::event::Event;
use crate::journaled::Journaled;
use asl_code::Program;
use asl_machine::{Machine, Paused};
use std::marker::Model;

/// A machine and the journal of its run, without its program. Whoever owns both can keep the two in one value, and let the
/// machine continue for a while.
#[derive(Drop)]
pub struct PausedJournaled {
    events: Vec<Event>,
    machine: Paused,
}

impl Model for PausedJournaled {
    ghost use Rattle.std.specs.Prelude.{length, vec_capacity};
    ghost use Rattle.std.specs.Coded.{codes};
    ghost use Rattle.asl_lock_forest.specs.Held.{coded_holding};
    ghost use Rattle.asl_journal.specs.Recorded.{spare_of};
    ghost use Rattle.asl_journal.specs.Paused.{RecordedRest};

    ghost Value = { RecordedRest };

    ghost coded = { Prim.hlevel (codes, coded_holding) };

    ghost view = { λ p. record {
      machine = p.machine;
      count = length p.machine.state.threads;
      events = p.events.items;
      spare = spare_of (vec_capacity p.events) (length p.events.items);
    } };
}

impl<'p> Journaled<'p> {
    /// Lets the program go. Nothing is copied, and no memory is wanted.
    pub fn pause(self) -> PausedJournaled
        ensures state { result.machine.state ≡ self.entry.state }
        ensures count { result.count ≡ self.entry.count }
        ensures events { result.events ≡ self.entry.events }
        ensures spare { result.spare ≡ self.entry.spare }
        ensures fits { IsRecordedRestOf self.entry.image result }
    {
        let Journaled { events, machine } = self;
        PausedJournaled {
            events,
            machine: machine.pause(),
        }
    }

    /// The machine with its journal of which this is left, over its program. Nothing is copied, and no memory is wanted.
    pub fn resume(program: &'p Program, paused: PausedJournaled) -> Journaled<'p>
        requires fits { IsRecordedRestOf program.now paused }
        ensures image { result.image ≡ program.now }
        ensures state { result.state ≡ paused.machine.state }
        ensures count { result.count ≡ paused.count }
        ensures events { result.events ≡ paused.events }
        ensures spare { result.spare ≡ paused.spare }
    {
        let PausedJournaled { events, machine } = paused;
        Journaled {
            events,
            machine: Machine::resume(program, machine),
        }
    }
}
