//! A region with the locks that it needs, and the points at which it needs them.
ghost use Rattle.std.specs.Prelude.{◌≡◌, ◌<◌, ◌≤◌, ◌↔◌, ◌⊎◌, ◌^◌, ℕ, Some, [], length, replicate, slice_get, IsTrue, IfOk, OnOk, OnErr};
ghost use Rattle.std.specs.List.{Contains};
ghost use Rattle.asl_code.specs.declared.lock.Lock.{Lock};
ghost use Rattle.asl_lane_sets.specs.NumberSet.{IsIn};
ghost use Rattle.asl_lock_expr.specs.Links.{IsOne};
ghost use Rattle.asl_lock_expr.specs.Order.{AreInOrder};
ghost use Rattle.asl_backward_flow.specs.Needed.{IsInNeeds};
ghost use Rattle.asl_backward_flow.specs.Found.{Numbers, IsMarked, IsFresher, AreSome, IsNamed, IsBlankNeeds};
ghost use Rattle.asl_backward_flow.specs.Fresh.{open_from};
ghost use Rattle.asl_backward_flow.specs.Parts.{part};

use crate::fresh::Fresh;
use crate::region::Region;
use crate::span::Span;
use asl_code::{Base, Lock, Op};
use asl_lane_sets::Bits;
use asl_lock_expr::add_in_order;
use indexmap::IndexSet;
use std::alloc::{AllocError, Global};

/// By how many numbers a set grows at least, where numbers come one by one.
const STEP: usize = 256;

/// So many numbers stay as they are.
const FEW: usize = 16;

/// How many operations of a path go into each half of a key, and how many digits an operation, or the end of a path, may be.
const HALF_OPS: usize = 5;

const DIGITS: u64 = 258;

/// Behind the operations of both halves: more than a path has.
const KEY_OPS: usize = 2 * HALF_OPS;

/// A region with its locks in the order in which they were found. For each of its points, from the first pc on, a set has the
/// numbers of the locks that are needed there; a set is as long as its numbers made it. `fresh` says which of these are not
/// followed yet.
#[derive(Drop)]
pub struct RegionNeeds {
    pub region: Region,
    pub first: u16,
    pub locks: IndexSet<Lock>,
    pub needs: Vec<Bits>,
    pub fresh: Fresh,
}

/// The number of a lock among those found, at which it is put in if it is new.
pub fn number(locks: &mut IndexSet<Lock>, lock: Lock) -> Result<usize, AllocError>
    ensures stored { IfOk result (λ n. slice_get locks.new.keys n ≡ Some lock) }
    ensures numbers { Numbers locks.old.keys locks.new.keys (λ m. m ≡ lock) }
    ensures within { IfOk result (λ n. n < length locks.new.keys) }
{
    let (number, _is_new) = locks.insert_full(lock)?;
    Ok(number)
}

/// Puts a number into the set at a place, and tells whether it is new there.
fn mark(sets: &mut Vec<Bits>, place: usize, number: usize) -> Result<bool, AllocError>
    requires there { place < length sets.old.items }
    requires small { number < 4096 }
    ensures marked { IfOk result (IsMarked sets.old.items sets.new.items place (λ n. n ≡ number)) }
    ensures err { OnErr result (sets.new.items ≡ sets.old.items) }
{
    let set = &mut sets[place];
    make_room(set, (number / STEP + 1) * STEP)?;
    if set.has(number) {
        return Ok(false);
    }
    set.add(number);
    Ok(true)
}

/// Puts numbers into the set at a place, and tells whether some are new there.
fn merge(sets: &mut Vec<Bits>, place: usize, numbers: &Bits) -> Result<bool, AllocError>
    requires there { place < length sets.old.items }
    requires small { (n : ℕ) → IsIn numbers.now n → n < 4096 }
    ensures marked { IfOk result (IsMarked sets.old.items sets.new.items place (IsIn numbers.now)) }
    ensures err { OnErr result (sets.new.items ≡ sets.old.items) }
{
    let set = &mut sets[place];
    make_room(set, numbers.len())?;
    Ok(set.add_all(numbers))
}

/// Puts a number into the set at a place, and tells whether it is new there. Then it is not followed yet.
pub fn mark_fresh(
    needs: &mut Vec<Bits>,
    fresh: &mut Fresh,
    place: usize,
    number: usize,
) -> Result<bool, AllocError>
    requires there { place < length needs.old.items }
    requires small { number < 4096 }
    ensures marked { IfOk result (IsMarked needs.old.items needs.new.items place (λ n. n ≡ number)) }
    ensures fresh { IfOk result (IsFresher needs.old.items (open_from fresh.old 0 needs.old.items) (open_from fresh.new 0 needs.new.items) place (λ n. n ≡ number)) }
    ensures err { OnErr result (AreSome needs.old.items needs.new.items place (λ n. n ≡ number)) }
{
    let is_new = mark(needs, place, number)?;
    if !fresh.is_followed(place) {
        return Ok(is_new);
    }
    if is_new {
        fresh.put(place, number)?;
        return Ok(true);
    }
    Ok(false)
}

/// Puts numbers into the set at a place, and tells whether some are new there. These are not followed yet.
pub fn merge_fresh(
    needs: &mut Vec<Bits>,
    fresh: &mut Fresh,
    place: usize,
    numbers: &Bits,
) -> Result<bool, AllocError>
    requires there { place < length needs.old.items }
    requires small { (n : ℕ) → IsIn numbers.now n → n < 4096 }
    ensures marked { IfOk result (IsMarked needs.old.items needs.new.items place (IsIn numbers.now)) }
    ensures fresh { IfOk result (IsFresher needs.old.items (open_from fresh.old 0 needs.old.items) (open_from fresh.new 0 needs.new.items) place (IsIn numbers.now)) }
    ensures err { OnErr result (AreSome needs.old.items needs.new.items place (IsIn numbers.now)) }
{
    if fresh.is_followed(place) {
        return merge_again(needs, fresh, place, numbers);
    }
    let is_new = merge(needs, place, numbers)?;
    Ok(is_new)
}

/// The same where the point was followed before.
fn merge_again(
    needs: &mut Vec<Bits>,
    fresh: &mut Fresh,
    place: usize,
    numbers: &Bits,
) -> Result<bool, AllocError>
    requires there { place < length needs.old.items }
    requires small { (n : ℕ) → IsIn numbers.now n → n < 4096 }
    requires again { IsIn fresh.old.followed place }
    ensures marked { IfOk result (IsMarked needs.old.items needs.new.items place (IsIn numbers.now)) }
    ensures fresh { IfOk result (IsFresher needs.old.items (open_from fresh.old 0 needs.old.items) (open_from fresh.new 0 needs.new.items) place (IsIn numbers.now)) }
    ensures err { OnErr result (AreSome needs.old.items needs.new.items place (IsIn numbers.now)) }
{
    let mut others = fresh.any_set()?;
    others.copy_from(numbers)?;
    others.remove_all(&needs[place]);
    let is_new = merge(needs, place, numbers)?;
    if is_new {
        fresh.put_all(place, others)?;
        return Ok(true);
    }
    fresh.give_back(others)?;
    Ok(false)
}

/// Makes the set at least so long.
pub fn make_room(set: &mut Bits, len: usize) -> Result<(), AllocError>
    ensures room { OnOk result (len ≤ length set.new) }
    ensures same { OnOk result ((k : ℕ) → IsIn set.new k ↔ IsIn set.old k) }
    ensures err { OnErr result (set.new ≡ set.old) }
{
    if set.len() < len {
        set.grow(len)?;
    }
    Ok(())
}

/// Adds a number to a set, which is made long enough.
pub fn add_number(set: &mut Bits, number: usize) -> Result<(), AllocError>
    requires { number < 2 ^ 63 }
    ensures { OnOk result ((k : ℕ) → IsIn set.new k ↔ (IsIn set.old k ⊎ (k ≡ number))) }
{
    make_room(set, (number / STEP + 1) * STEP)?;
    set.add(number);
    Ok(())
}

/// Whether the set has the number; it has none from its length on.
pub fn has_number(set: &Bits, number: usize) -> bool
    ensures { IsTrue result ↔ IsIn set.now number }
{
    number < set.len() && set.has(number)
}

/// So many sets without numbers.
pub fn empty_sets(alloc: Global, count: usize) -> Result<Vec<Bits>, AllocError>
    ensures { IfOk result (λ sets. sets.items ≡ replicate count []) }
{
    let mut sets = Vec::with_capacity(alloc, count)?;
    for _ in 0..count {
        sets.push(Bits::new(alloc))?;
    }
    Ok(sets)
}

/// Puts many numbers in the order of their locks, so that no lock is moved where they are put at their places in turn. That they are
/// in this order is not promised: whoever puts them at their places looks where these are.
fn arrange(locks: &[Lock], numbers: &mut Vec<usize>) -> Result<(), AllocError>
    ensures { (k : ℕ) → Contains numbers.new.items k ↔ Contains numbers.old.items k }
{
    if numbers.len() <= FEW {
        return Ok(());
    }
    numbers.sort_by_cached_key(|number| key(locks, *number))
}

/// A key that is less where the number's lock comes first, as far as its class, or its base and its path, tell: the base with the
/// front of the path, and the rest of the path.
fn key(locks: &[Lock], number: usize) -> (u64, u64) {
    match locks.get(number) {
        Some(Lock::Expr(expr, _)) => {
            let ops = expr.path.as_slice();
            (
                path_key(base_key(expr.base), ops, 0, HALF_OPS),
                path_key(0, ops, HALF_OPS, KEY_OPS),
            )
        }
        Some(Lock::Class(class, _)) => (u64::from(*class), 0),
        _ => (0, 0),
    }
}

/// Registers come before globals, both by number.
fn base_key(base: Base) -> u64 {
    match base {
        Base::Reg(register) => 1 + u64::from(register),
        Base::Global(global) => 257 + u64::from(global),
    }
}

/// The number with a first digit and the operations of the path from a place on up to another as digits. With the key of a base in
/// front it is above all classes.
fn path_key(front: u64, ops: &[Op], first: usize, end: usize) -> u64 {
    let mut key = front;
    for place in first..end {
        key = key
            .wrapping_mul(DIGITS)
            .wrapping_add(op_key(ops.get(place)));
    }
    key
}

/// A path comes before its extensions, and `*` before `.0` before `.1`.
fn op_key(op: Option<&Op>) -> u64 {
    match op {
        None => 0,
        Some(Op::Deref) => 1,
        Some(Op::Off(places)) => 2 + u64::from(*places),
    }
}

impl RegionNeeds {
    /// The region of a span, with nothing found yet.
    pub fn new(alloc: Global, span: &Span) -> Result<RegionNeeds, AllocError>
        ensures { IfOk result (IsBlankNeeds span.now) }
    {
        let count = span.end.saturating_sub(span.first);
        Ok(RegionNeeds {
            region: span.region,
            first: span.first,
            locks: IndexSet::new(alloc),
            needs: empty_sets(alloc, usize::from(count))?,
            fresh: Fresh::new(alloc),
        })
    }

    /// Whether the lock of a number is needed at the pc.
    pub fn needs(&self, pc: u32, number: usize) -> bool
        ensures { IsTrue result ↔ ((k : ℕ) × (slice_get (part self.now).needs k ≡ Some (pc, number))) }
    {
        let first = u32::from(self.first);
        if pc < first {
            return false;
        }
        match self.needs.get((pc - first) as usize) {
            Some(set) => has_number(set, number),
            None => false,
        }
    }

    /// Adds the locks that are needed at the pc.
    pub fn add_needed(
        &self,
        alloc: Global,
        pc: u32,
        locks: &mut Vec<Lock>,
    ) -> Result<(), AllocError>
        requires { AreInOrder locks.old.items }
        ensures order { OnOk result (AreInOrder locks.new.items) }
        ensures locks { OnOk result ((m : Lock) → IsOne locks.new.items m ↔ (IsOne locks.old.items m ⊎ IsInNeeds (part self.now) pc m)) }
    {
        let first = u32::from(self.first);
        if pc < first {
            return Ok(());
        }
        match self.needs.get((pc - first) as usize) {
            Some(set) => self.add_set(alloc, set, locks),
            None => Ok(()),
        }
    }

    /// Adds the locks whose numbers are in the set.
    fn add_set(&self, alloc: Global, set: &Bits, locks: &mut Vec<Lock>) -> Result<(), AllocError>
        requires { AreInOrder locks.old.items }
        ensures order { OnOk result (AreInOrder locks.new.items) }
        ensures locks { OnOk result ((m : Lock) → IsOne locks.new.items m ↔ (IsOne locks.old.items m ⊎ IsNamed self.now.locks.keys set.now m)) }
    {
        let mut numbers = set.members(alloc)?;
        arrange(self.locks.as_slice(), &mut numbers)?;
        for number in numbers.as_slice() {
            self.add_lock(*number, locks)?;
        }
        Ok(())
    }

    /// Adds the lock of this number.
    fn add_lock(&self, number: usize, locks: &mut Vec<Lock>) -> Result<(), AllocError>
        requires { AreInOrder locks.old.items }
        ensures order { OnOk result (AreInOrder locks.new.items) }
        ensures locks { OnOk result ((m : Lock) → IsOne locks.new.items m ↔ (IsOne locks.old.items m ⊎ (slice_get self.now.locks.keys number ≡ Some m))) }
    {
        match self.locks.as_slice().get(number) {
            Some(lock) => add_in_order(locks, lock.clone()?),
            None => Ok(()),
        }
    }
}
