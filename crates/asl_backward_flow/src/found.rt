//! What is found to be needed so far, region by region, and what of it is still to be followed.
ghost use Rattle.std.specs.Prelude.{◌≡◌, ◌<◌, ◌↔◌, ℕ, true, Some, length, slice_get, vec_len, IfOk, OnOk, OnErr, IfErr, IfSome, IfNone};
ghost use Rattle.asl_code.specs.declared.lock.Lock.{Lock};
ghost use Rattle.asl_lane_sets.specs.NumberSet.{IsIn};
ghost use Rattle.asl_lock_expr.specs.Links.{IsOne};
ghost use Rattle.asl_backward_flow.specs.Found.{table, locks_of, IsBlank, Has, HasPoint, HasFact, IsNamed, IsWhole, IsOver, Adds, Lists, IsNext, HasNumbers};

use crate::region_needs::{RegionNeeds, add_number, mark_fresh, merge_fresh, number};
use crate::rounds::Rounds;
use crate::span::Span;
use asl_code::Lock;
use asl_lane_sets::Bits;
use std::alloc::{AllocError, Global};

/// The most locks that a region may need.
const MAX_LOCKS: usize = 4096;

/// The regions with what they are found to need, and the points at which something of it is not followed yet. The last
/// is followed first, since locks flow backwards.
#[derive(Drop)]
pub struct Found {
    pub parts: Vec<RegionNeeds>,
    pub list: Rounds,
}

/// Why a fact was not added.
#[derive(Clone, Copy, Drop)]
pub enum AddFault {
    /// The region needs too many locks.
    Many(u16),
    /// An allocation failed.
    OutOfMemory,
}

impl From<AllocError> for AddFault {
    ghost use Rattle.std.specs.Prelude.{◌≡◌};
    ghost use Rattle.asl_backward_flow.specs.declared.found.AddFault.TheVariants.{OutOfMemory};

    ghost from_gives = { λ _ fault. fault ≡ OutOfMemory };

    fn from(_: AllocError) -> Self {
        AddFault::OutOfMemory
    }
}

impl Found {
    /// Nothing found of the regions.
    pub fn new(alloc: Global, spans: &[Span]) -> Result<Found, AllocError>
        ensures { IfOk result (λ found. IsBlank (table found) spans.now) }
    {
        let mut parts = Vec::with_capacity(alloc, spans.len())?;
        for span in spans {
            parts.push(RegionNeeds::new(alloc, span)?)?;
        }
        Ok(Found {
            parts,
            list: Rounds::new(alloc),
        })
    }

    /// Adds that a region needs a lock at a pc, lists the point if that is new, and gives the number of the lock.
    pub fn add(&mut self, part: u16, pc: u16, lock: Lock) -> Result<usize, AddFault>
        requires there { part < vec_len self.old.parts }
        requires point { HasPoint (table self.old) part pc }
        requires whole { IsWhole (table self.old) }
        ensures whole { OnOk result (IsWhole (table self.new)) }
        ensures has { OnOk result (HasFact (table self.new) part pc lock) }
        ensures number { IfOk result (λ n. slice_get (locks_of (table self.new) part) n ≡ Some lock) }
        ensures lists { OnOk result (Lists (table self.old) (table self.new)) }
        ensures adds { Adds (table self.old) (table self.new) (λ p q m. (p ≡ part) × (q ≡ pc) × (m ≡ lock)) }
        ensures over { IfErr result (IsOver (table self.new)) }
    {
        let region = &mut self.parts[usize::from(part)];
        let number = number(&mut region.locks, lock)?;
        if region.locks.len() > MAX_LOCKS {
            return Err(AddFault::Many(part));
        }
        let place = usize::from(pc - region.first);
        let is_new = mark_fresh(&mut region.needs, &mut region.fresh, place, number)?;
        self.list.put(is_new, (part, pc))?;
        Ok(number)
    }

    /// Adds that a region needs at a pc its locks of these numbers, and lists the point if one of that is new.
    pub fn add_numbered(&mut self, part: u16, pc: u16, numbers: &Bits) -> Result<(), AddFault>
        requires there { part < vec_len self.old.parts }
        requires point { HasPoint (table self.old) part pc }
        requires whole { IsWhole (table self.old) }
        requires named { (n : ℕ) → IsIn numbers.now n → (m : Lock) × (slice_get (locks_of (table self.old) part) n ≡ Some m) }
        ensures whole { OnOk result (IsWhole (table self.new)) }
        ensures has { OnOk result ((m : Lock) → IsNamed (locks_of (table self.old) part) numbers.now m → HasFact (table self.new) part pc m) }
        ensures lists { OnOk result (Lists (table self.old) (table self.new)) }
        ensures adds { Adds (table self.old) (table self.new)
            (λ p q m. (p ≡ part) × (q ≡ pc) × IsNamed (locks_of (table self.old) part) numbers.now m) }
        ensures over { IfErr result (IsOver (table self.new)) }
    {
        let needing = &mut self.parts[usize::from(part)];
        let place = usize::from(pc - needing.first);
        let is_new = merge_fresh(&mut needing.needs, &mut needing.fresh, place, numbers)?;
        self.list.put(is_new, (part, pc))?;
        Ok(())
    }

    /// Adds that a region needs each lock of a list at a pc. They are taken from the list.
    pub fn add_all(&mut self, part: u16, pc: u16, locks: &mut Vec<Lock>) -> Result<(), AddFault>
        requires there { part < vec_len self.old.parts }
        requires point { HasPoint (table self.old) part pc }
        requires whole { IsWhole (table self.old) }
        ensures whole { OnOk result (IsWhole (table self.new)) }
        ensures has { OnOk result ((m : Lock) → IsOne locks.old.items m → HasFact (table self.new) part pc m) }
        ensures lists { OnOk result (Lists (table self.old) (table self.new)) }
        ensures adds { Adds (table self.old) (table self.new) (λ p q m. (p ≡ part) × (q ≡ pc) × IsOne locks.old.items m) }
        ensures over { IfErr result (IsOver (table self.new)) }
    {
        while let Some(lock) = locks.pop() {
            self.add(part, pc, lock)?;
        }
        Ok(())
    }

    /// Adds that a region needs each lock of a list at a pc, and adds the numbers of the locks to a set. They are taken from the list.
    pub fn add_listed(
        &mut self,
        part: u16,
        pc: u16,
        locks: &mut Vec<Lock>,
        numbers: &mut Bits,
    ) -> Result<(), AddFault>
        requires there { part < vec_len self.old.parts }
        requires point { HasPoint (table self.old) part pc }
        requires whole { IsWhole (table self.old) }
        ensures whole { OnOk result (IsWhole (table self.new)) }
        ensures has { OnOk result ((m : Lock) → IsOne locks.old.items m → HasFact (table self.new) part pc m) }
        ensures lists { OnOk result (Lists (table self.old) (table self.new)) }
        ensures adds { Adds (table self.old) (table self.new) (λ p q m. (p ≡ part) × (q ≡ pc) × IsOne locks.old.items m) }
        ensures over { IfErr result (IsOver (table self.new)) }
        ensures numbers { OnOk result (HasNumbers (locks_of (table self.new) part) locks.old.items numbers.old numbers.new) }
    {
        while let Some(lock) = locks.pop() {
            let number = self.add(part, pc, lock)?;
            add_number(numbers, number)?;
        }
        Ok(())
    }

    /// Takes the last point off the list, and makes a set that of the numbers that are not followed there yet.
    pub fn next(&mut self, set: &mut Bits) -> Result<Option<(u16, u16)>, AllocError>
        requires { IsWhole (table self.old) }
        ensures some { IfOk result (λ point. IfSome point (λ f. IsNext (table self.old) (table self.new) f set.new)) }
        ensures none { IfOk result (λ point. IfNone point (length (table self.old).list ≡ 0)) }
        ensures unchanged { IfOk result (λ point. IfNone point (table self.new ≡ table self.old)) }
        ensures err { OnErr result ((table self.new).locks ≡ (table self.old).locks) }
    {
        let Some(point) = self.list.pop() else {
            return Ok(None);
        };
        let region = &mut self.parts[usize::from(point.0)];
        let place = usize::from(point.1 - region.first);
        region.fresh.take(place, &region.needs[place], set)?;
        Ok(Some(point))
    }

    /// The locks of these numbers of a region.
    pub fn named(&self, alloc: Global, part: u16, numbers: &Bits) -> Result<Vec<Lock>, AllocError>
        requires there { part < vec_len self.now.parts }
        requires named { (n : ℕ) → IsIn numbers.now n → (m : Lock) × (slice_get (locks_of (table self.now) part) n ≡ Some m) }
        ensures { IfOk result (λ v. (m : Lock) → IsOne v.items m ↔ IsNamed (locks_of (table self.now) part) numbers.now m) }
    {
        let mut locks = Vec::new(alloc);
        let members = numbers.members(alloc)?;
        for number in members.as_slice() {
            locks.push(self.lock(part, *number)?)?;
        }
        Ok(locks)
    }

    /// The lock of this number of a region.
    pub fn lock(&self, part: u16, number: usize) -> Result<Lock, AllocError>
        requires there { part < vec_len self.now.parts }
        requires named { (m : Lock) × (slice_get (locks_of (table self.now) part) number ≡ Some m) }
        ensures { IfOk result (λ lock. slice_get (locks_of (table self.now) part) number ≡ Some lock) }
    {
        let locks = self.parts[usize::from(part)].locks.as_slice();
        locks[number].clone()
    }
}
