//! What is found at the points of a region and not followed yet.
ghost use Rattle.std.specs.Prelude.{◌≡◌, ◌≢◌, ◌<◌, ◌↔◌, ◌⊎◌, ◌^◌, [], ℕ, IsTrue, IfOk, OnOk};
ghost use Rattle.asl_lane_sets.specs.NumberSet.{IsIn};
ghost use Rattle.asl_backward_flow.specs.Fresh.{set_of, kept_at, IsKept, IsGiven};

use crate::region_needs::{add_number, has_number, make_room};
use asl_lane_sets::Bits;
use std::alloc::{AllocError, Global};
use std::mem;

/// What is found at the points of a region and not followed yet. Of a point that was never followed that is all that is found there,
/// and nothing is kept here: most points are followed once. Of the others it is what was found since.
#[derive(Drop)]
pub struct Fresh {
    alloc: Global,
    /// The places of the points that were followed.
    pub followed: Bits,
    /// For the places of these, the numbers of the locks that were found there since.
    pub sets: Vec<Option<Box<Bits>>>,
    /// Sets to be used again: what they have does not count.
    spare: Vec<Box<Bits>>,
}

impl Fresh {
    /// Nothing followed.
    pub fn new(alloc: Global) -> Fresh
        ensures followed { result.followed ≡ [] }
        ensures sets { result.sets.items ≡ [] }
    {
        Fresh {
            alloc,
            followed: Bits::new(alloc),
            sets: Vec::new(alloc),
            spare: Vec::new(alloc),
        }
    }

    /// Whether the point at a place was followed.
    pub fn is_followed(&self, place: usize) -> bool
        ensures { IsTrue result ↔ IsIn self.now.followed place }
    {
        has_number(&self.followed, place)
    }

    /// Adds a number to those that were found since the point at a place was followed.
    pub fn put(&mut self, place: usize, number: usize) -> Result<(), AllocError>
        requires small { number < 2 ^ 63 }
        ensures { OnOk result (IsKept self.old self.new place (λ n. IsIn (kept_at self.old place) n ⊎ (n ≡ number))) }
    {
        let mut set = self.take_set(place)?;
        add_number(&mut set, number)?;
        self.keep(place, set)?;
        Ok(())
    }

    /// Adds numbers to those that were found since the point at a place was followed.
    pub fn put_all(&mut self, place: usize, numbers: Box<Bits>) -> Result<(), AllocError>
        ensures { OnOk result (IsKept self.old self.new place (λ n. IsIn (kept_at self.old place) n ⊎ IsIn numbers.value n)) }
    {
        let Some(mut set) = self.take_kept(place) else {
            self.keep(place, numbers)?;
            return Ok(());
        };
        join(&mut set, &numbers)?;
        self.give_back(numbers)?;
        self.keep(place, set)?;
        Ok(())
    }

    /// Makes a set that of what is not followed yet at a place, where this is found, and notes that the point was followed.
    pub fn take(&mut self, place: usize, found: &Bits, into: &mut Bits) -> Result<(), AllocError>
        requires small { place < 2 ^ 63 }
        ensures { OnOk result (IsGiven self.old self.new place found.now into.new) }
    {
        let kept = self.take_kept(place);
        if self.is_followed(place) {
            self.give(kept, into)?;
            return Ok(());
        }
        add_number(&mut self.followed, place)?;
        into.copy_from(found)?;
        Ok(())
    }

    /// A set, whatever numbers it has.
    pub fn any_set(&mut self) -> Result<Box<Bits>, AllocError>
        ensures followed { self.new.followed ≡ self.old.followed }
        ensures sets { self.new.sets ≡ self.old.sets }
    {
        if let Some(set) = self.spare.pop() {
            return Ok(set);
        }
        Ok(Box::new(self.alloc, Bits::new(self.alloc))?)
    }

    /// Gives back a set that is not needed.
    pub fn give_back(&mut self, set: Box<Bits>) -> Result<(), AllocError>
        ensures followed { self.new.followed ≡ self.old.followed }
        ensures sets { self.new.sets ≡ self.old.sets }
    {
        self.spare.push(set)?;
        Ok(())
    }

    /// A set without numbers.
    fn no_numbers(&mut self) -> Result<Box<Bits>, AllocError>
        ensures none { IfOk result (λ set. set.value ≡ []) }
        ensures followed { self.new.followed ≡ self.old.followed }
        ensures sets { self.new.sets ≡ self.old.sets }
    {
        let mut set = self.any_set()?;
        set.copy_from(&Bits::new(self.alloc))?;
        Ok(set)
    }

    /// Makes a set that of what was kept.
    fn give(&mut self, kept: Option<Box<Bits>>, into: &mut Bits) -> Result<(), AllocError>
        ensures set { OnOk result (into.new ≡ set_of kept) }
        ensures followed { self.new.followed ≡ self.old.followed }
        ensures sets { self.new.sets ≡ self.old.sets }
    {
        match kept {
            Some(mut set) => {
                mem::swap(&mut *set, into);
                self.give_back(set)
            }
            None => into.copy_from(&Bits::new(self.alloc)),
        }
    }

    /// Takes what is kept at a place, or else a set without numbers.
    fn take_set(&mut self, place: usize) -> Result<Box<Bits>, AllocError>
        ensures set { IfOk result (λ set. set.value ≡ kept_at self.old place) }
        ensures rest { OnOk result ((k : ℕ) → k ≢ place → kept_at self.new k ≡ kept_at self.old k) }
        ensures followed { self.new.followed ≡ self.old.followed }
    {
        if let Some(set) = self.take_kept(place) {
            return Ok(set);
        }
        self.no_numbers()
    }

    /// Takes what is kept at a place.
    fn take_kept(&mut self, place: usize) -> Option<Box<Bits>>
        ensures set { set_of result ≡ kept_at self.old place }
        ensures none { kept_at self.new place ≡ [] }
        ensures rest { (k : ℕ) → k ≢ place → kept_at self.new k ≡ kept_at self.old k }
        ensures followed { self.new.followed ≡ self.old.followed }
    {
        if place < self.sets.len() {
            return mem::replace(&mut self.sets[place], None);
        }
        None
    }

    /// Keeps a set at a place.
    fn keep(&mut self, place: usize, set: Box<Bits>) -> Result<(), AllocError>
        ensures here { OnOk result (kept_at self.new place ≡ set.value) }
        ensures rest { OnOk result ((k : ℕ) → k ≢ place → kept_at self.new k ≡ kept_at self.old k) }
        ensures followed { self.new.followed ≡ self.old.followed }
    {
        while self.sets.len() <= place {
            self.sets.push(None)?;
        }
        self.sets[place] = Some(set);
        Ok(())
    }
}

/// Adds numbers to a set, which is made long enough.
fn join(set: &mut Bits, numbers: &Bits) -> Result<(), AllocError>
    ensures { OnOk result ((k : ℕ) → IsIn set.new k ↔ (IsIn set.old k ⊎ IsIn numbers.now k)) }
{
    make_room(set, numbers.len())?;
    set.add_all(numbers);
    Ok(())
}
