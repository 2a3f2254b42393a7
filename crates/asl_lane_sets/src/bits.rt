//! A set of numbers below its length.
ghost use Rattle.std.specs.Prelude.{[], ◌≡◌, ◌<◌, ◌≤◌, ◌⊎◌, ◌↔◌, ◌++◌, ◌+◌, ◌-◌, ◌*◌, ◌/◌, ◌^◌, ℕ, IsTrue, length, true, false, replicate, IfOk, OnOk, OnErr};
ghost use Rattle.std.specs.List.{Contains};
ghost use Rattle.asl_lane_sets.specs.NumberSet.{IsIn, IsRising, members_of};
ghost use Rattle.asl_lane_sets.specs.Packed.{has_bit, ones};

use crate::lane_vec::LaneVec;
use crate::lanes::{BLOCK, LANE, LANES_OF_BLOCK};
use std::alloc::{AllocError, Global};
use std::marker::Model;

/// A set of numbers below its length, which is given when it is made and stays.
///
/// Contracts see it as the list that says of each number below the length whether it is one of the set.
#[derive(Drop)]
pub struct Bits {
    len: usize,
    lanes: LaneVec,
}

impl Model for Bits {
    ghost use Rattle.std.specs.Prelude.{List, Bool};
    ghost use Rattle.asl_lane_sets.specs.Packed.{told, IsPacked};

    ghost Value = { List Bool };

    ghost view = { λ b. told b.len b.lanes };

    ghost invariant = { λ b. IsPacked b.len b.lanes };
}

impl Bits {
    /// The empty set of length 0, which needs no memory.
    pub fn new(alloc: Global) -> Bits
        ensures { result ≡ [] }
    {
        Bits {
            len: 0,
            lanes: LaneVec::new(alloc),
        }
    }

    /// The empty set of numbers below `len`.
    ///
    /// # Errors
    ///
    /// An allocation failed.
    pub fn with_len(alloc: Global, len: usize) -> Result<Bits, AllocError>
        ensures { IfOk result (λ set. set ≡ replicate len false) }
    {
        let lanes = LaneVec::zeros(alloc, lanes_after_first(len))?;
        Ok(Bits { len, lanes })
    }

    /// The length, below which the set's numbers are.
    pub fn len(&self) -> usize
        ensures { result ≡ length self.now }
    {
        self.len
    }

    /// Adds a number.
    pub fn add(&mut self, number: usize)
        requires { number < length self.old }
        ensures length { length self.new ≡ length self.old }
        ensures numbers { (k : ℕ) → IsIn self.new k ↔ (IsIn self.old k ⊎ (k ≡ number)) }
    {
        let place = number / LANE;
        let lane = self.lanes.lane(place);
        self.lanes.put(place, lane | 1 << (number % LANE));
    }

    /// Whether a number is one of the set.
    pub fn has(&self, number: usize) -> bool
        requires { number < length self.now }
        ensures { IsTrue result ↔ IsIn self.now number }
    {
        self.lanes.lane(number / LANE) >> (number % LANE) & 1 == 1
    }

    /// Makes the set one of numbers below a greater length.
    ///
    /// # Errors
    ///
    /// An allocation failed; the set is as it was.
    pub fn grow(&mut self, len: usize) -> Result<(), AllocError>
        requires { length self.old ≤ len }
        ensures length { OnOk result (length self.new ≡ len) }
        ensures numbers { OnOk result ((k : ℕ) → IsIn self.new k ↔ IsIn self.old k) }
        ensures err { OnErr result (self.new ≡ self.old) }
    {
        self.lanes.grow(lanes_after_first(len))?;
        self.len = len;
        Ok(())
    }

    /// Adds the numbers of a set that is no longer, and tells whether there were new ones among them.
    pub fn add_all(&mut self, other: &Bits) -> bool
        requires { length other.now ≤ length self.old }
        ensures length { length self.new ≡ length self.old }
        ensures numbers { (k : ℕ) → IsIn self.new k ↔ (IsIn self.old k ⊎ IsIn other.now k) }
        ensures grew { IsTrue result ↔ ((k : ℕ) × IsIn other.now k × ¬ IsIn self.old k) }
    {
        self.lanes.merge(&other.lanes)
    }

    /// Takes away the numbers of another set.
    pub fn remove_all(&mut self, other: &Bits)
        ensures length { length self.new ≡ length self.old }
        ensures numbers { (k : ℕ) → IsIn self.new k ↔ (IsIn self.old k × ¬ IsIn other.now k) }
    {
        self.lanes.clear(&other.lanes)
    }

    /// Adds the numbers of both sets to a list, and tells whether there are any.
    ///
    /// # Errors
    ///
    /// An allocation failed.
    pub fn add_common(&self, other: &Bits, list: &mut Vec<usize>) -> Result<bool, AllocError>
        ensures numbers { OnOk result ((k : ℕ) → Contains list.new.items k ↔ (Contains list.old.items k ⊎ (IsIn self.now k × IsIn other.now k))) }
        ensures some { IfOk result (λ some. IsTrue some ↔ ((k : ℕ) × IsIn self.now k × IsIn other.now k)) }
    {
        let mut some = false;
        for place in 0..self.lanes.len().min(other.lanes.len()) {
            let both = self.lanes.lane(place) & other.lanes.lane(place);
            if has_one(both) {
                add_members(both, place * LANE, list)?;
                some = true;
            }
        }
        Ok(some)
    }

    /// The same set.
    ///
    /// # Errors
    ///
    /// An allocation failed.
    pub fn copy(&self) -> Result<Bits, AllocError>
        ensures { IfOk result (λ set. set ≡ self.now) }
    {
        let lanes = self.lanes.copy()?;
        Ok(Bits {
            len: self.len,
            lanes,
        })
    }

    /// Makes the set the same as another, within its capacity.
    ///
    /// # Errors
    ///
    /// An allocation failed; the set then has no numbers, and length 0.
    pub fn copy_from(&mut self, other: &Bits) -> Result<(), AllocError>
        ensures ok { OnOk result (self.new ≡ other.now) }
        ensures err { OnErr result (self.new ≡ []) }
    {
        self.len = 0;
        self.lanes.copy_from(&other.lanes)?;
        self.len = other.len;
        Ok(())
    }

    /// The numbers that are none of another set.
    ///
    /// # Errors
    ///
    /// An allocation failed.
    pub fn without(&self, other: &Bits) -> Result<Bits, AllocError>
        ensures length { IfOk result (λ set. length set ≡ length self.now) }
        ensures numbers { IfOk result (λ set. (k : ℕ) → IsIn set k ↔ (IsIn self.now k × ¬ IsIn other.now k)) }
    {
        let mut set = self.copy()?;
        set.remove_all(other);
        Ok(set)
    }

    /// Adds the numbers of another set, and tells whether there were new ones among them.
    pub fn merge(&mut self, other: &Bits) -> bool
        requires { length self.old ≡ length other.now }
        ensures length { length self.new ≡ length self.old }
        ensures numbers { (k : ℕ) → IsIn self.new k ↔ (IsIn self.old k ⊎ IsIn other.now k) }
        ensures grew { IsTrue result ↔ ((k : ℕ) × IsIn other.now k × ¬ IsIn self.old k) }
    {
        self.lanes.merge(&other.lanes)
    }

    /// Whether each number of the set is one of another.
    pub fn within(&self, other: &Bits) -> bool
        requires { length self.now ≡ length other.now }
        ensures { IsTrue result ↔ ((k : ℕ) → IsIn self.now k → IsIn other.now k) }
    {
        self.lanes.is_within(&other.lanes)
    }

    /// The numbers of the set, rising.
    ///
    /// # Errors
    ///
    /// An allocation failed.
    pub fn members(&self, alloc: Global) -> Result<Vec<usize>, AllocError>
        ensures numbers { IfOk result (λ members. (k : ℕ) → Contains members.items k ↔ IsIn self.now k) }
        ensures rising { IfOk result (λ members. IsRising members.items) }
        ensures listed { IfOk result (λ members. members.items ≡ members_of self.now) }
    {
        let mut members = Vec::new(alloc);
        for place in 0..self.lanes.len() {
            let lane = self.lanes.lane(place);
            if lane != 0 {
                add_members(lane, place * LANE, &mut members)?;
            }
        }
        Ok(members)
    }
}

/// How many lanes the numbers below a length take after the first four.
fn lanes_after_first(len: usize) -> usize
    ensures { result ≡ 4 * ((len - 1) / 256) }
{
    len.saturating_sub(1) / BLOCK * LANES_OF_BLOCK
}

/// Adds the numbers that the bits of a lane stand for, where the lowest bit stands for `first`.
fn add_members(lane: u64, first: usize, members: &mut Vec<usize>) -> Result<(), AllocError>
    requires { first + 64 ≤ 2 ^ 64 }
    ensures { OnOk result (members.new.items ≡ members.old.items ++ ones lane first 64) }
{
    let mut bit = next_one(lane, 0);
    while bit < LANE {
        members.push(first + bit)?;
        bit = next_one(lane, bit + 1);
    }
    Ok(())
}

/// Whether a bit of a lane is 1.
fn has_one(lane: u64) -> bool
    ensures none { result ≡ false → lane ≡ 0 }
    ensures one { result ≡ true → (bit : ℕ) × (bit < 64) × (has_bit lane bit ≡ true) }
{
    if lane == 0 {
        return false;
    }
    true
}

/// The lowest bit from a place on that is 1; the bits of a lane where none is.
fn next_one(lane: u64, from: usize) -> usize
    requires { from ≤ 64 }
    ensures low { from ≤ result }
    ensures high { result ≤ 64 }
    ensures none { (k : ℕ) → from ≤ k → k < result → has_bit lane k ≡ false }
    ensures one { result < 64 → has_bit lane result ≡ true }
{
    if from == LANE {
        return LANE;
    }
    let rest = lane >> from;
    if rest == 0 {
        return LANE;
    }
    from + rest.trailing_zeros() as usize
}
