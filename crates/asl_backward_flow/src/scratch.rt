//! What the search for needed locks uses again at each point, so that nothing is made anew there.
ghost use Rattle.std.specs.Prelude.{◌≡◌, IfOk, map, replicate, []};

use crate::entered::AllEntered;
use crate::masks::{Masks, no_masks};
use asl_code::Lock;
use asl_lane_sets::Bits;
use std::alloc::{AllocError, Global};

/// What the search uses again at each point.
#[derive(Drop)]
pub struct Scratch {
    /// For each region, which of its locks an instruction may concern.
    pub masks: Vec<Masks>,
    /// The instructions from which control continues to the point.
    pub pcs: Vec<u16>,
    /// The numbers of the locks that are followed at the point.
    pub set: Bits,
    /// The numbers of the locks that an instruction may concern.
    pub touched: Bits,
    /// Those that are needed and stay over an instruction, if some do not.
    pub stay: Bits,
    /// Those that are needed and do not.
    pub changed: Vec<usize>,
    /// What one of these locks becomes.
    pub links: Vec<Lock>,
    /// What locks at the entry of a body become at the calls of its function.
    pub known: AllEntered,
}

/// Nothing found yet, of so many regions.
pub fn no_scratch(alloc: Global, count: usize) -> Result<Scratch, AllocError>
    ensures { IfOk result (λ s. map (λ v. v.list.items) s.masks.items ≡ replicate count []) }
{
    Ok(Scratch {
        masks: no_masks(alloc, count)?,
        pcs: Vec::new(alloc),
        set: Bits::new(alloc),
        touched: Bits::new(alloc),
        stay: Bits::new(alloc),
        changed: Vec::new(alloc),
        links: Vec::new(alloc),
        known: AllEntered::new(alloc, count)?,
    })
}
