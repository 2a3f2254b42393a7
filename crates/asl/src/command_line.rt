//! The words that a process was started with.
ghost use Rattle.std.specs.Prelude.{IfSome, None};
ghost use Rattle.std.specs.Io.{WritesAtMost};
ghost use Rattle.asl.specs.CommandLine.{TellsWord};

use std::env::{Env, FillError};

/// The words that a process was started with, handed over one by one.
pub trait CommandLine {
    ghost use Rattle.std.specs.Prelude.{ℕ, List, Option};

    /// The bytes of each word, the program's name first, where they are known. Of what the system hands over they are not.
    ghost known: { Self → Option (List (List ℕ)) };

    /// Copies the word of this number to the start of the buffer, and answers its length.
    ///
    /// # Errors
    ///
    /// `NotPresent` after the last word; `TooLong` where the word is longer than the buffer.
    fn word(&self, number: usize, buffer: &mut [u8]) -> Result<usize, FillError>
        ensures bound { WritesAtMost result buffer.new }
        ensures told { IfSome (known self.now) (λ words. TellsWord words number buffer.new result) };
}

/// The words that the system started this process with.
#[derive(Drop)]
pub struct SystemWords<'a, H> {
    rt: &'a H,
}

impl<'a, H> SystemWords<'a, H> {
    /// The words that this system hands over.
    pub fn of(rt: &'a H) -> SystemWords<'a, H> {
        SystemWords { rt }
    }
}

impl<'a, H: Env> CommandLine for SystemWords<'a, H> {
    ghost known = { λ _. None };

    fn word(&self, number: usize, buffer: &mut [u8]) -> Result<usize, FillError> {
        self.rt.arg(number, buffer)
    }
}
