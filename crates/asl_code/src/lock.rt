//! Locks: what a section asks for at its entry.
ghost use Rattle.std.specs.Prelude.{◌≡◌};
ghost use Rattle.asl_code.specs.Locks.{effect_of};

use crate::path::Path;
use crate::value::Effect;

/// Where the evaluation of an expression begins.
#[derive(Clone, Copy, PartialEq, Eq, PartialOrd, Ord, Hash)]
pub enum Base {
    /// The address in a register of the frame.
    Reg(u8),
    /// The address of a global's cell.
    Global(u16),
}

/// A lock expression: a base, and the path that continues from it.
#[derive(Clone, Drop, PartialEq, Eq, PartialOrd, Ord, Hash)]
pub struct Expr {
    /// Where the evaluation begins.
    pub base: Base,
    /// The operations, eight at the most.
    pub path: Path,
}

/// A lock that a section asks for at its entry, with the effect that it must cover.
#[derive(Clone, Drop, PartialEq, Eq, PartialOrd, Ord, Hash)]
pub enum Lock {
    /// The root: every cell.
    Root(Effect),
    /// Every cell of the class.
    Class(u16, Effect),
    /// The one cell that the expression denotes, if it denotes one.
    Expr(Expr, Effect),
}

impl Lock {
    /// What the lock is for.
    pub fn effect(&self) -> Effect
        ensures { result ≡ effect_of self.now }
    {
        match self {
            Lock::Root(effect) | Lock::Class(_, effect) | Lock::Expr(_, effect) => *effect,
        }
    }
}
