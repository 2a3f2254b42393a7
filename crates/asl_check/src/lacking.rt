//! The first lock that a section needs and that its list lacks. It is found in what the flow has kept, so no memory is wanted.
ghost use Rattle.std.specs.Prelude.{◌≡◌, ◌↔◌, ℕ, IsTrue, MatchOption, Some, slice_get};
ghost use Rattle.asl_code.specs.declared.lock.Lock.{Lock as AnyLock};
ghost use Rattle.asl_lower.specs.Regions.{Inside};
ghost use Rattle.asl_backward_flow.specs.Needed.{RegionNeeds, AreParts, IsInNeeds, IsTold};
ghost use Rattle.asl_emitter.specs.Lists.{IsFree};
ghost use Rattle.asl_check.specs.Checked.{AreUnder, LacksFirst};
ghost use Rattle.asl_check.specs.KnownLists.{ComesFirst};

use crate::covers::{LIKELY, is_under_one};
use crate::locks::{absorbs, copied, is_before};
use asl_backward_flow::{Flow, Region};
use asl_code::Lock;
use asl_points_to::Classes;

/// Whether no lock that the region at a place needs at the pc absorbs this one.
fn is_free(
    classes: &Classes,
    function: u16,
    flow: &Flow,
    place: usize,
    pc: u32,
    lock: &Lock,
) -> bool
    ensures { (p : RegionNeeds) → slice_get flow.now place ≡ Some p → IsTrue result ↔ IsFree classes.now function (IsInNeeds p pc) lock.now }
{
    let locks = flow.locks(place);
    for number in 0..locks.len() {
        if !absorbs(classes, function, &locks[number], lock) {
            continue;
        }
        if flow.needs(place, pc, number) {
            return false;
        }
    }
    true
}

/// Whether a lock comes before the one of the number, if there is one.
fn comes_first(locks: &[Lock], first: Option<usize>, lock: &Lock) -> bool
    ensures { IsTrue result ↔ ComesFirst locks.now first lock.now }
{
    let Some(number) = first else {
        return true;
    };
    match locks.get(number) {
        Some(other) => is_before(lock, other),
        None => true,
    }
}

/// The number of the first lock, in the order of locks, that the list lacks of those that the region at a place needs at the pc, but
/// for those that another of these absorbs.
fn first_lacking(
    classes: &Classes,
    function: u16,
    list: &[Lock],
    flow: &Flow,
    place: usize,
    pc: u32,
) -> Option<usize>
    ensures { (p : RegionNeeds) → slice_get flow.now place ≡ Some p
        → MatchOption result (AreUnder classes.now function list.now (IsInNeeds p pc))
        (λ n. (lock : AnyLock) × (slice_get p.locks n ≡ Some lock) × LacksFirst classes.now function list.now (IsInNeeds p pc) lock) }
{
    let locks = flow.locks(place);
    let mut first: Option<usize> = None;
    let mut likely = [0; LIKELY];
    for number in 0..locks.len() {
        let lock = &locks[number];
        if !flow.needs(place, pc, number) {
            continue;
        }
        if is_under_one(classes, function, list, lock, &mut likely) {
            continue;
        }
        if !comes_first(locks, first, lock) {
            continue;
        }
        if is_free(classes, function, flow, place, pc, lock) {
            first = Some(number);
        }
    }
    first
}

/// The first lock, in the order of locks, that the list lacks of those that the section of a number needs at the pc, but for those
/// that another of these absorbs.
pub fn lacking(
    classes: &Classes,
    function: u16,
    list: &[Lock],
    flow: &Flow,
    number: u16,
    pc: u32,
) -> Option<Lock>
    requires { AreParts flow.now }
    ensures { MatchOption result (AreUnder classes.now function list.now (IsTold flow.now (Inside number) pc))
        (LacksFirst classes.now function list.now (IsTold flow.now (Inside number) pc)) }
{
    let place = flow.place(Region::Section(number))?;
    let first = first_lacking(classes, function, list, flow, place, pc)?;
    let lock = flow.locks(place).get(first)?;
    Some(copied(lock))
}
