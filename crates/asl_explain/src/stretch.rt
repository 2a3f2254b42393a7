//! What is known of the ways over which locks stay.
ghost use Rattle.std.specs.Prelude.{◌≡◌, ◌<◌, IfSome, IsTrue, OnOk, length};
ghost use Rattle.asl_backward_flow.specs.Needed.{region_of};
ghost use Rattle.asl_explain.specs.Chains.{Read, Stays};
ghost use Rattle.asl_explain.specs.Analysed.{AreStretches};

use crate::links::are_same;
use asl_backward_flow::Region;
use asl_code::Lock;
use std::alloc::AllocError;

/// A lock of a region that stays as it is on a way from one pc to another.
#[derive(Drop)]
pub struct Stretch {
    pub region: Region,
    pub lock: Lock,
    pub from: u16,
    pub to: u16,
}

/// How many stretches are kept.
const MOST_KEPT: usize = 16;

/// Whether it is known of a lock of a region from a pc on.
fn is_of(stretch: &Stretch, region: Region, lock: &Lock, from: u16) -> bool
    ensures { IsTrue result → (stretch.now.region ≡ region) × (stretch.now.lock ≡ lock.now) × (stretch.now.from ≡ from) }
{
    stretch.region == region && stretch.from == from && are_same(&stretch.lock, lock)
}

/// Whether it is known of a lock of a region from a pc to another.
pub fn is_way(stretch: &Stretch, region: Region, lock: &Lock, from: u16, to: u16) -> bool
    ensures { IsTrue result → (stretch.now.region ≡ region) × (stretch.now.lock ≡ lock.now) × (stretch.now.from ≡ from) × (stretch.now.to ≡ to) }
{
    stretch.to == to && is_of(stretch, region, lock, from)
}

/// As far as which pc the lock is known to stay from one on, at most another; this one, if nothing is known of it.
pub fn known_as_far(known: &[Stretch], region: Region, lock: &Lock, from: u16, to: u16) -> u16
    ensures { (x : Read) → AreStretches x known.now → Stays x (region_of region) lock.now from result }
{
    for stretch in known {
        if stretch.to <= to && is_of(stretch, region, lock, from) {
            return stretch.to;
        }
    }
    from
}

/// The number of what is known of the same lock from the same pc on.
fn number_of(known: &[Stretch], new: &Stretch) -> Option<usize>
    ensures { IfSome result (λ n. n < length known.now) }
{
    for (number, old) in known.iter().enumerate() {
        if is_of(old, new.region, &new.lock, new.from) {
            return Some(number);
        }
    }
    None
}

/// Keeps a stretch, in the place of one of the same lock from the same pc on, if there is one.
pub fn keep(known: &mut Vec<Stretch>, new: Stretch) -> Result<(), AllocError>
    ensures { OnOk result ((x : Read) → AreStretches x known.old.items → Stays x (region_of new.region) new.lock new.from new.to
        → AreStretches x known.new.items) }
{
    if let Some(number) = number_of(known, &new) {
        known[number] = new;
        return Ok(());
    }
    if known.len() >= MOST_KEPT {
        known.clear();
    }
    known.push(new)?;
    Ok(())
}
