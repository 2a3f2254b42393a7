//! Machines that are kept without the loan of their program.
ghost use Rattle.std.specs.Prelude.{◌≡◌, IfOk};
ghost use Rattle.asl_machine.specs.Paused.{IsRestOf};

use super::copies;
use crate::heap::Heap;
use crate::machine::Machine;
use crate::program_code::Code;
use crate::thread::Thread;
use asl_code::Program;
use asl_lock_forest::{Forest, Node};
use asl_mode_lanes::Mode;
use std::alloc::{AllocError, Global};
use std::marker::Model;

/// A machine without its program. Whoever owns both can keep the two in one value, and let the machine continue for a while.
#[derive(Drop)]
pub struct Paused {
    firsts: Vec<u16>,
    heap: Heap,
    forest: Forest,
    /// Capacity for what a section asks for; what is in it means nothing.
    asks: Vec<(Node, Mode)>,
    threads: Vec<Thread>,
}

impl Model for Paused {
    ghost use Rattle.std.specs.Coded.{codes};
    ghost use Rattle.asl_lock_forest.specs.Held.{coded_holding};
    ghost use Rattle.asl_machine.specs.Paused.{Rest};

    ghost Value = { Rest };

    ghost coded = { Prim.hlevel (codes, coded_holding) };

    ghost view = { λ p. record {
      state = record { objects = p.heap; holding = p.forest.holding; threads = p.threads.items };
      firsts = p.firsts.items;
      classes = p.forest.classes;
      threads = p.forest.threads;
    } };
}

impl Paused {
    /// An equal rest of a machine. The two continue apart.
    ///
    /// # Errors
    ///
    /// An allocation failed.
    pub fn try_copy(&self, alloc: Global) -> Result<Paused, AllocError>
        ensures { IfOk result (λ paused. paused ≡ self.now) }
    {
        Ok(Paused {
            firsts: self.firsts.as_slice().to_vec(alloc)?,
            heap: self.heap.try_copy(alloc)?,
            forest: self.forest.try_copy(alloc)?,
            asks: Vec::new(alloc),
            threads: copies(alloc, self.threads.as_slice())?,
        })
    }
}

impl<'p> Machine<'p> {
    /// Lets the program go. Nothing is copied, and no memory is wanted.
    pub fn pause(self) -> Paused
        ensures state { result.state ≡ self.entry.state }
        ensures fits { IsRestOf self.entry.image result }
    {
        let Machine {
            code,
            heap,
            forest,
            asks,
            threads,
        } = self;
        Paused {
            firsts: code.into_firsts(),
            heap,
            forest,
            asks,
            threads,
        }
    }

    /// The machine of which this is left, over its program. Nothing is copied, and no memory is wanted.
    pub fn resume(program: &'p Program, paused: Paused) -> Machine<'p>
        requires fits { IsRestOf program.now paused }
        ensures image { result.image ≡ program.now }
        ensures state { result.state ≡ paused.state }
    {
        let Paused {
            firsts,
            heap,
            forest,
            asks,
            threads,
        } = paused;
        Machine {
            code: Code::from_firsts(program, firsts),
            heap,
            forest,
            asks,
            threads,
        }
    }
}
