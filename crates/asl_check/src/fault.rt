//! Why a program is not checked.

use crate::code_difference::CodeDifference;
use asl_code::Lock;
use asl_emitter::InferFault;
use std::fmt;
use std::fmt::Write;
use thiserror::Error;

/// Why a program is not checked: the first that applies, in this order. What is printed here leaves out the lock and the instructions;
/// `asl_refusal_text` prints them.
#[derive(Drop, Error)]
pub enum CheckFault {
    /// No lists are inferred for the tree. Only this can be lack of memory: what comes after it asks for none.
    #[error(transparent)]
    Infer(InferFault),
    /// The program is not the tree's: where it differs first, and what both have there. Where the code is the same, and the version
    /// or a table is not, that is at the number of instructions.
    #[error("OtherCode({pc})", pc = .0.pc)]
    OtherCode(CodeDifference),
    /// The section of this number needs the lock, and no lock of its list covers it: the first such section, and of the locks
    /// that it needs, but for those that another of them absorbs, the first in the order of locks.
    #[error("Uncovered({0})")]
    Uncovered(u16, Lock),
    /// An expression of the list of the section of this number reads the cell of the lock when it is evaluated, and no lock of the
    /// list covers it: the first such section, and its first such lock in the order in which they are read. Each list is
    /// enough for what its section needs.
    #[error("Unguarded({0})")]
    Unguarded(u16, Lock),
}

impl fmt::Debug for CheckFault {
    fn fmt<W: fmt::Write>(&self, f: &mut fmt::Formatter<W>) -> fmt::Result {
        write!(f, "{self}")
    }
}

impl From<InferFault> for CheckFault {
    ghost use Rattle.std.specs.Prelude.{◌≡◌};
    ghost use Rattle.asl_check.specs.declared.fault.CheckFault.TheVariants.{Infer};

    ghost from_gives = { λ infer fault. fault ≡ Infer infer };

    fn from(fault: InferFault) -> CheckFault {
        CheckFault::Infer(fault)
    }
}
