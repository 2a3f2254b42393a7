//! What each region needs at each of its points, region by region.
ghost use Rattle.std.specs.Prelude.{◌≡◌, ◌↔◌, ℕ, map, slice_get, IsTrue, IfOk, MatchOption};
ghost use Rattle.asl_code.specs.declared.lock.Lock.{Lock};
ghost use Rattle.asl_lock_expr.specs.Links.{IsOne};
ghost use Rattle.asl_lock_expr.specs.Order.{AreInOrder};
ghost use Rattle.asl_backward_flow.specs.Needed.{RegionNeeds as RegionNeedsValue, HasNoPart, IsTold, region_of};
ghost use Rattle.asl_backward_flow.specs.Parts.{part, AreAtTheirNumbers};
ghost use Rattle.asl_lower.specs.Regions.{Inside};

use crate::region::Region;
use crate::region_needs::RegionNeeds;
use asl_code::Lock;
use std::alloc::{AllocError, Global};
use std::marker::Model;

/// Which locks each region needs at each of its points (`docs/ANALYSIS.md`, "Needed locks").
#[derive(Drop)]
pub struct Flow {
    parts: Vec<RegionNeeds>,
}

impl Model for Flow {
    ghost use Rattle.std.specs.Prelude.{List, map};
    ghost use Rattle.asl_backward_flow.specs.Needed.{RegionNeeds as RegionNeedsValue};
    ghost use Rattle.asl_backward_flow.specs.Parts.{part, AreAtTheirNumbers};

    ghost Value = { List RegionNeedsValue };

    ghost view = { λ f. map part f.parts.items };

    ghost invariant = { λ f. AreAtTheirNumbers (map part f.parts.items) };
}

/// The flow of these regions, of which each section stands at its number.
pub fn flow_of(parts: Vec<RegionNeeds>) -> Flow
    requires { AreAtTheirNumbers (map part parts.items) }
    ensures { result ≡ map part parts.items }
{
    Flow { parts }
}

impl Flow {
    /// The locks that a region needs at a pc, each once, in order; of a flow that `needed` answered none where there is no such
    /// region, or where the pc is none of the region's.
    ///
    /// # Errors
    ///
    /// An allocation failed.
    pub fn at(&self, alloc: Global, region: Region, pc: u32) -> Result<Vec<Lock>, AllocError>
        ensures order { IfOk result (λ v. AreInOrder v.items) }
        ensures locks { IfOk result (λ v. (m : Lock) → IsOne v.items m ↔ IsTold self.now (region_of region) pc m) }
    {
        told(alloc, self.parts.as_slice(), region, pc)
    }

    /// The place at which the flow has a region, and none where it has no such region.
    pub fn place(&self, region: Region) -> Option<usize>
        ensures { MatchOption result (HasNoPart self.now (region_of region)) (λ k. (p : RegionNeedsValue) × (slice_get self.now k ≡ Some p) × (p.region ≡ region_of region)) }
    {
        place_of(self.parts.as_slice(), region)
    }

    /// The locks that the region at a place needs at any of its points; the number of a lock is its place among them.
    pub fn locks(&self, place: usize) -> &[Lock]
        ensures { (p : RegionNeedsValue) → slice_get self.now place ≡ Some p → result.now ≡ p.locks }
    {
        match self.parts.get(place) {
            Some(part) => part.locks.as_slice(),
            None => &[],
        }
    }

    /// The number of a lock among those of the region at a place, if it is one of them.
    pub fn number(&self, place: usize, lock: &Lock) -> Option<usize>
        ensures { (p : RegionNeedsValue) → slice_get self.now place ≡ Some p
            → MatchOption result (¬ IsOne p.locks lock.now) (λ n. slice_get p.locks n ≡ Some lock.now) }
    {
        self.parts.get(place)?.locks.get_index_of(lock)
    }

    /// Whether the region at a place needs the lock of a number at the pc.
    pub fn needs(&self, place: usize, pc: u32, number: usize) -> bool
        ensures { (p : RegionNeedsValue) → slice_get self.now place ≡ Some p → IsTrue result ↔ ((k : ℕ) × (slice_get p.needs k ≡ Some (pc, number))) }
    {
        match self.parts.get(place) {
            Some(part) => part.needs(pc, number),
            None => false,
        }
    }
}

/// The place of a part of a region.
fn place_of(parts: &[RegionNeeds], region: Region) -> Option<usize>
    requires { AreAtTheirNumbers (map part parts.now) }
    ensures { MatchOption result (HasNoPart (map part parts.now) (region_of region))
        (λ k. (p : RegionNeedsValue) × (slice_get (map part parts.now) k ≡ Some p) × (p.region ≡ region_of region)) }
{
    let place = likely_place(parts, region);
    if place < parts.len() && parts[place].region == region {
        return Some(place);
    }
    match region {
        Region::Section(_) => None,
        Region::Body(_) => search(parts, region),
    }
}

/// Where a part of the region stands if there is one: a section's at its number, and the bodies after the sections, in the order of
/// their functions.
fn likely_place(parts: &[RegionNeeds], region: Region) -> usize
    ensures { (n : ℕ) → region_of region ≡ Inside n → result ≡ n }
{
    match region {
        Region::Section(number) => usize::from(number),
        Region::Body(function) => count_before(parts, function),
    }
}

/// How many parts stand before that of the function's body, where sections come first, and then bodies in the order of their
/// functions.
fn count_before(parts: &[RegionNeeds], function: u16) -> usize {
    let mut low = 0;
    let mut high = parts.len();
    while low < high {
        let middle = low + (high - low) / 2;
        let is_before = match parts[middle].region {
            Region::Section(_) => true,
            Region::Body(other) => other < function,
        };
        if is_before {
            low = middle + 1;
        } else {
            high = middle;
        }
    }
    low
}

/// The place of a part of a region, wherever it is.
fn search(parts: &[RegionNeeds], region: Region) -> Option<usize>
    ensures { MatchOption result (HasNoPart (map part parts.now) (region_of region))
        (λ k. (p : RegionNeedsValue) × (slice_get (map part parts.now) k ≡ Some p) × (p.region ≡ region_of region)) }
{
    for (place, part) in parts.iter().enumerate() {
        if part.region == region {
            return Some(place);
        }
    }
    None
}

/// Parts among which those of a region are: for a section the one that stands at its number.
fn candidates(parts: &[RegionNeeds], region: Region) -> &[RegionNeeds]
    requires { AreAtTheirNumbers (map part parts.now) }
    ensures { (pc : ℕ) (m : Lock) → IsTold (map part result.now) (region_of region) pc m ↔ IsTold (map part parts.now) (region_of region) pc m }
{
    match region {
        Region::Section(number) if usize::from(number) < parts.len() => {
            let place = usize::from(number);
            &parts[place..place + 1]
        }
        _ => parts,
    }
}

/// The locks that the parts of a region say to be needed at a pc.
fn told(
    alloc: Global,
    parts: &[RegionNeeds],
    region: Region,
    pc: u32,
) -> Result<Vec<Lock>, AllocError>
    requires { AreAtTheirNumbers (map part parts.now) }
    ensures order { IfOk result (λ v. AreInOrder v.items) }
    ensures locks { IfOk result (λ v. (m : Lock) → IsOne v.items m ↔ IsTold (map part parts.now) (region_of region) pc m) }
{
    let mut locks = Vec::new(alloc);
    let candidates = candidates(parts, region);
    for part in candidates {
        if part.region == region {
            part.add_needed(alloc, pc, &mut locks)?;
        }
    }
    Ok(locks)
}
