//! How a run of the program ends: with a status, and with what is said of it.
ghost use Rattle.std.specs.Prelude.{◌≡◌};
ghost use Rattle.asl_tool.specs.Ending.{ending_status, ending_text};
ghost use Rattle.asl_tool.specs.Streams.{Tells};

use crate::byte_streams::ByteSink;
use crate::streams::write_whole;
use crate::tool_fault::{ToolFault, tell};

/// The status of what was done.
const DONE: u8 = 0;
/// The status of a refusal.
const REFUSED: u8 = 1;
/// The status of words that are no legal use.
const WRONG_USAGE: u8 = 2;

/// How a run of the program ends.
#[derive(Drop)]
pub enum Ending {
    /// What the words ask for was done, and nothing is said.
    Done,
    /// It was not, and the line of the fault is said.
    Refused(ToolFault),
    /// The words are no legal use: the text that says why.
    WrongUsage(String),
}

impl Ending {
    /// The exit status.
    pub fn status(&self) -> u8
        ensures { result ≡ ending_status self.now }
    {
        match self {
            Ending::Done => DONE,
            Ending::Refused(_) => REFUSED,
            Ending::WrongUsage(_) => WRONG_USAGE,
        }
    }

    /// Says on `errors` what went wrong: all of it, or, where the writer is not known to have room for that, a first part.
    pub fn say<E: ByteSink>(&self, errors: &mut E)
        ensures told { Tells (E.room errors.old) (E.contents errors.old) (E.contents errors.new) (ending_text self.now) }
        ensures quiet { ending_status self.now ≡ 0 → errors.new ≡ errors.old }
    {
        match self {
            Ending::Done => (),
            Ending::Refused(fault) => {
                let _ = tell(errors, fault);
            }
            Ending::WrongUsage(text) => {
                let _ = write_whole(errors, text.as_str().as_bytes());
            }
        }
    }
}
