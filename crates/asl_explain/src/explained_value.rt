//! What is explained of a program: why each lock of its lists is there.

use asl_backward_flow::Region;
use asl_code::{Items, Lock};

/// Why a region needs a lock before an instruction.
#[derive(Clone, Copy, PartialEq, Eq)]
pub enum Why {
    /// The instruction is a load or a store, which needs the lock itself.
    Accessed,
    /// The lock of the step before is needed after the instruction, and becomes this one before it.
    Linked,
    /// The instruction is a call, and the lock of the step before is needed at the entry of the callee.
    Entered,
    /// The lock of the step before is needed before the same instruction, and evaluating it reads the cell of this one.
    Dereferenced,
}

/// A lock that a region needs before the instruction at a pc, and why.
#[derive(Drop)]
pub struct Step {
    /// The region.
    pub region: Region,
    /// The pc of the instruction.
    pub pc: u16,
    /// The lock.
    pub lock: Lock,
    /// Why the region needs it.
    pub why: Why,
}

/// The way of a need from a load or a store back to the start of a section: the steps that change the lock, of which the first
/// is the access, and the last has the lock that the section needs.
#[derive(Drop)]
pub struct Chain {
    /// The steps.
    pub steps: Items<Step>,
}

/// A lock that a section needs at its start, with the statements that need it: a chain for each of them, the cheapest first.
#[derive(Drop)]
pub struct Need {
    /// The lock.
    pub lock: Lock,
    /// The chains.
    pub chains: Items<Chain>,
}

/// A lock of a section's list, with what the section needs at its start and the lock covers: itself or what it absorbs.
#[derive(Drop)]
pub struct Listed {
    /// The lock.
    pub lock: Lock,
    /// The locks that it covers, in the order of locks.
    pub needs: Items<Need>,
}

/// The `new` at which a need ends, with the way of the need from a load or a store back to it.
#[derive(Drop)]
pub struct Ending {
    /// The pc of the `new`.
    pub pc: u16,
    /// The cheapest chain to the lock after the `new`.
    pub chain: Chain,
}

/// A lock that a section needs after a `new` that sets the register on which the lock begins. It becomes none before the `new`,
/// since the object is new there.
#[derive(Drop)]
pub struct Ended {
    /// The lock.
    pub lock: Lock,
    /// Where a need of it ends, if a search found a chain.
    pub ending: Option<Ending>,
}

/// The lists that are inferred with paths of a length, or why there are none.
#[derive(Drop)]
pub enum Lists {
    /// For each section its list.
    Inferred(Items<Items<Lock>>),
    /// This region needs too many locks.
    TooManyLocks(Region),
}

/// Why the lists of a program are as they are.
#[derive(Drop)]
pub struct Explanation {
    /// For each section the locks of its list.
    pub sections: Items<Items<Listed>>,
    /// For each section the locks that end at a `new` of it, in the order of locks.
    pub ended: Items<Items<Ended>>,
    /// The lists with paths of at most 0 to 8 operations.
    pub by_length: Items<Lists>,
}
