//! Debuggers that are kept without the loan of their program.
ghost use Rattle.std.specs.Prelude.{◌≡◌};
ghost use Rattle.asl_debugger.specs.Paused.{IsSessionRestOf};

use crate::debugger::Debugger;
use crate::trail::Mark;
use asl_code::Program;
use asl_journal::Journal;
use asl_machine::{Machine, Paused};
use std::marker::Model;

/// A debugger without its program. Whoever owns both can keep the two in one value, and let the debugger continue for a while.
#[derive(Drop)]
pub struct PausedDebugger {
    journal: Journal,
    spacing: u32,
    checkpoints: Vec<Paused>,
    marks: Vec<Mark>,
    machine: Paused,
    position: u32,
    breakpoints: Vec<u32>,
}

impl Model for PausedDebugger {
    ghost use Rattle.std.specs.Coded.{codes};
    ghost use Rattle.asl_lock_forest.specs.Held.{coded_holding};
    ghost use Rattle.asl_debugger.specs.Paused.{SessionRest};

    ghost Value = { SessionRest };

    ghost coded = { Prim.hlevel (codes, coded_holding) };

    ghost view = { λ p. record {
      log = p.journal;
      position = p.position;
      breakpoints = p.breakpoints.items;
      machine = p.machine;
      spacing = p.spacing;
      checkpoints = p.checkpoints.items;
      marks = p.marks.items;
    } };
}

impl PausedDebugger {
    /// The journal: the whole log, wherever the position is.
    pub fn journal(&self) -> &Journal
        ensures { result.now ≡ self.now.log }
    {
        &self.journal
    }

    /// How many events lead to the machine that is kept.
    pub fn position(&self) -> u32
        ensures { result ≡ self.now.position }
    {
        self.position
    }
}

impl<'p> Debugger<'p> {
    /// Lets the program go. Nothing is copied, and no memory is wanted.
    pub fn pause(self) -> PausedDebugger
        ensures log { result.log ≡ self.entry.log }
        ensures position { result.position ≡ self.entry.position }
        ensures breakpoints { result.breakpoints ≡ self.entry.breakpoints }
        ensures fits { IsSessionRestOf self.entry.image result }
    {
        let Debugger {
            journal,
            spacing,
            checkpoints,
            marks,
            machine,
            position,
            breakpoints,
        } = self;
        PausedDebugger {
            journal,
            spacing,
            checkpoints,
            marks,
            machine: machine.pause(),
            position,
            breakpoints,
        }
    }

    /// The debugger of which this is left, over its program. Nothing is copied, and no memory is wanted.
    pub fn resume(program: &'p Program, paused: PausedDebugger) -> Debugger<'p>
        requires fits { IsSessionRestOf program.now paused }
        ensures { result ≡ record {
          image = program.now;
          log = paused.log;
          position = paused.position;
          breakpoints = paused.breakpoints;
        } }
    {
        let PausedDebugger {
            journal,
            spacing,
            checkpoints,
            marks,
            machine,
            position,
            breakpoints,
        } = paused;
        Debugger {
            journal,
            spacing,
            checkpoints,
            marks,
            machine: Machine::resume(program, machine),
            position,
            breakpoints,
        }
    }
}
