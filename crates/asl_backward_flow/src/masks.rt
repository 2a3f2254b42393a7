//! Which locks of a region stay as they are over an instruction.
ghost use Rattle.std.specs.Prelude.{◌≡◌, ◌≤◌, ◌<◌, ◌↔◌, ◌⊎◌, [], ℕ, true, false, IsTrue, length, map, replicate, OnOk, IfOk, IfSome};
ghost use Rattle.std.specs.List.{Contains};
ghost use Rattle.asl_lane_sets.specs.NumberSet.{IsIn};
ghost use Rattle.asl_lock_expr.specs.LinksView.{seen as seen_by};
ghost use Rattle.asl_backward_flow.specs.Masked.{IsMask, AreMasks, IsMaskOf, IsMaskIn, LeavesClear, LeavesStaying};

use crate::region_needs::{add_number, make_room};
use asl_code::{Instr, Lock};
use asl_lane_sets::Bits;
use asl_lock_expr::{LinkContext, Touch, is_clear, set_by, stored_by};
use std::alloc::{AllocError, Global};

/// The numbers of the locks of a region that a register, or cells, may concern, so far as the locks have numbers below one.
#[derive(Drop)]
pub struct Mask {
    pub touch: Touch,
    pub below: usize,
    pub touched: Bits,
}

/// The masks of a region: one for each register that is set, and one for what each register's store, and each callee, stores to.
#[derive(Drop)]
pub struct Masks {
    pub list: Vec<Mask>,
    /// For the code of a touch where its mask stands, if it is none of the first. The place of another mask, or of none, says that there is
    /// none yet.
    pub places: Vec<usize>,
}

/// For how many masks a region begins with capacity: a small one has no more. So many are found by looking at each.
const LIKELY_MASKS: usize = 8;

/// No place.
const NOWHERE: usize = usize::MAX;

/// So many regions without masks.
pub fn no_masks(alloc: Global, count: usize) -> Result<Vec<Masks>, AllocError>
    ensures { IfOk result (λ all. map (λ v. v.list.items) all.items ≡ replicate count []) }
{
    let mut all = Vec::with_capacity(alloc, count)?;
    for _ in 0..count {
        all.push(Masks {
            list: Vec::with_capacity(alloc, LIKELY_MASKS)?,
            places: Vec::new(alloc),
        })?;
    }
    Ok(all)
}

/// Makes a set that of the numbers of the locks that an instruction may concern: those of its register's mask, and of the mask of
/// what it stores to.
pub fn find_touched(
    alloc: Global,
    view: &LinkContext,
    instr: Instr,
    locks: &[Lock],
    masks: &mut Masks,
    touched: &mut Bits,
) -> Result<(), AllocError>
    requires { AreMasks (seen_by view.now) locks.now masks.old.list.items }
    ensures masks { OnOk result (AreMasks (seen_by view.now) locks.now masks.new.list.items) }
    ensures touched { OnOk result (LeavesStaying (seen_by view.now) instr locks.now touched.new) }
{
    let register = set_by(instr);
    let cells = stored_by(instr);
    if cells.is(Touch::Nothing) {
        return copy_mask(alloc, view, register, locks, masks, touched);
    }
    copy_mask(alloc, view, cells, locks, masks, touched)?;
    if register.is(Touch::Nothing) {
        return Ok(());
    }
    add_mask(alloc, view, register, locks, masks, touched)
}

/// Makes a set that of the numbers of the locks that what is touched may concern.
fn copy_mask(
    alloc: Global,
    view: &LinkContext,
    touch: Touch,
    locks: &[Lock],
    masks: &mut Masks,
    touched: &mut Bits,
) -> Result<(), AllocError>
    requires { AreMasks (seen_by view.now) locks.now masks.old.list.items }
    ensures masks { OnOk result (AreMasks (seen_by view.now) locks.now masks.new.list.items) }
    ensures touched { OnOk result (LeavesClear (seen_by view.now) touch locks.now touched.new) }
{
    let place = mask_of(alloc, view, touch, locks, masks)?;
    touched.copy_from(&masks.list[place].touched)
}

/// Adds to a set the numbers of the locks that what is touched may concern.
fn add_mask(
    alloc: Global,
    view: &LinkContext,
    touch: Touch,
    locks: &[Lock],
    masks: &mut Masks,
    touched: &mut Bits,
) -> Result<(), AllocError>
    requires { AreMasks (seen_by view.now) locks.now masks.old.list.items }
    ensures masks { OnOk result (AreMasks (seen_by view.now) locks.now masks.new.list.items) }
    ensures touched { OnOk result (LeavesClear (seen_by view.now) touch locks.now touched.new) }
    ensures kept { OnOk result ((n : ℕ) → IsIn touched.old n → IsIn touched.new n) }
{
    let place = mask_of(alloc, view, touch, locks, masks)?;
    let more = &masks.list[place].touched;
    make_room(touched, more.len())?;
    touched.add_all(more);
    Ok(())
}

/// The place of the mask of what is touched, which is put if there is none, and extended to all locks.
fn mask_of(
    alloc: Global,
    view: &LinkContext,
    touch: Touch,
    locks: &[Lock],
    masks: &mut Masks,
) -> Result<usize, AllocError>
    requires { AreMasks (seen_by view.now) locks.now masks.old.list.items }
    ensures masks { OnOk result (AreMasks (seen_by view.now) locks.now masks.new.list.items) }
    ensures place { IfOk result (IsMaskIn (seen_by view.now) touch locks.now masks.new.list.items) }
{
    let place = place_of(alloc, view, touch, locks, masks)?;
    extend(view, locks, &mut masks.list[place])?;
    Ok(place)
}

/// The place of the mask of what is touched, where one is put if there is none.
fn place_of(
    alloc: Global,
    view: &LinkContext,
    touch: Touch,
    locks: &[Lock],
    masks: &mut Masks,
) -> Result<usize, AllocError>
    requires { AreMasks (seen_by view.now) locks.now masks.old.list.items }
    ensures masks { OnOk result (AreMasks (seen_by view.now) locks.now masks.new.list.items) }
    ensures place { IfOk result (IsMaskOf touch masks.new.list.items) }
{
    if let Some(place) = find(touch, masks) {
        return Ok(place);
    }
    let place = masks.list.len();
    masks.list.push(Mask {
        touch,
        below: 0,
        touched: Bits::new(alloc),
    })?;
    note(&mut masks.places, touch, place)?;
    Ok(place)
}

/// The place of the mask of what is touched, if there is one.
fn find(touch: Touch, masks: &Masks) -> Option<usize>
    ensures { IfSome result (IsMaskOf touch masks.now.list.items) }
{
    for place in 0..masks.list.len().min(LIKELY_MASKS) {
        if masks.list[place].touch.is(touch) {
            return Some(place);
        }
    }
    if masks.list.len() <= LIKELY_MASKS {
        return None;
    }
    let place = *masks.places.get(code(touch))?;
    if place < masks.list.len() && masks.list[place].touch.is(touch) {
        return Some(place);
    }
    None
}

/// Notes where the mask of what is touched stands, if it is none of the first.
fn note(places: &mut Vec<usize>, touch: Touch, place: usize) -> Result<(), AllocError> {
    if place < LIKELY_MASKS {
        return Ok(());
    }
    let code = code(touch);
    for _ in places.len()..code + 1 {
        places.push(NOWHERE)?;
    }
    if code < places.len() {
        places[code] = place;
    }
    Ok(())
}

/// A number for what is touched, small for registers and functions of small numbers.
fn code(touch: Touch) -> usize
    ensures { result ≤ 262144 }
{
    match touch {
        Touch::Nothing => 0,
        Touch::Register(register) => 3 * usize::from(register) + 1,
        Touch::Store(register) => 3 * usize::from(register) + 2,
        Touch::Call(function) => 3 * usize::from(function) + 3,
    }
}

/// Extends a mask to all locks.
fn extend(view: &LinkContext, locks: &[Lock], mask: &mut Mask) -> Result<(), AllocError>
    requires { IsMask (seen_by view.now) locks.now mask.old }
    ensures mask { OnOk result (IsMask (seen_by view.now) locks.now mask.new) }
    ensures touch { OnOk result (mask.new.touch ≡ mask.old.touch) }
    ensures all { OnOk result (length locks.now ≤ mask.new.below) }
{
    while mask.below < locks.len() {
        if !is_clear(view, mask.touch, &locks[mask.below]) {
            add_number(&mut mask.touched, mask.below)?;
        }
        mask.below += 1;
    }
    Ok(())
}

/// Lists the numbers of a set that are those of a mask, and tells whether there are any. Then it makes a set that of the others.
pub fn split(
    set: &Bits,
    touched: &Bits,
    stay: &mut Bits,
    changed: &mut Vec<usize>,
) -> Result<bool, AllocError>
    ensures none { IfOk result (λ some. some ≡ false → (n : ℕ) → IsIn set.now n → ¬ IsIn touched.now n) }
    ensures changed { IfOk result (λ some. some ≡ true → (n : ℕ) → Contains changed.new.items n ↔ (IsIn set.now n × IsIn touched.now n)) }
    ensures stay { IfOk result (λ some. some ≡ true → (n : ℕ) → IsIn stay.new n ↔ (IsIn set.now n × ¬ IsIn touched.now n)) }
{
    if touched.len() == 0 {
        return Ok(false);
    }
    changed.clear();
    if !set.add_common(touched, changed)? {
        return Ok(false);
    }
    stay.copy_from(set)?;
    stay.remove_all(touched);
    Ok(true)
}
