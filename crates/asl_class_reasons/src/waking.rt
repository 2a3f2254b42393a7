//! Steps, each looked at again only once what it waits for is there.

ghost use Rattle.std.specs.Prelude.{◌≡◌, ◌+◌, IfOk};
ghost use Rattle.asl_lower.specs.Lowered.{Lowered};
ghost use Rattle.asl_class_reasons.specs.Draft.{IsSized, IsFounded, IsGrown, IsThere, IsThereFlow, AreThere, AreOf, IsOf};

use crate::draft::{Draft, number};
use crate::flow::{Flow, Owed};
use crate::place::Place;
use crate::waiting::Waiting;
use std::alloc::{AllocError, Global};

/// Makes what is owed, and joins the cells of members of one class. What is not due waits until the place that it lacks points
/// somewhere, and is looked at again then. Numbers are those of the members, for their cells, and after them those of what is owed.
pub(crate) fn make_when_woken(
    alloc: Global,
    draft: &mut Draft,
    owed: &[Owed],
) -> Result<(), AllocError>
    requires sized { IsSized draft.old }
    requires there { AreThere draft.old owed.now }
    ensures grown { IfOk result (λ _. IsGrown draft.old draft.new) }
    ensures founded { (l : Lowered) → IsFounded l draft.old → AreOf l owed.now → IfOk result (λ _. IsFounded l draft.new) }
{
    let members = draft.members as usize;
    let places = (draft.members + draft.members + draft.functions * 256) as usize;
    let mut waiting = Waiting::new(alloc, owed.len().saturating_add(members), places)?;
    // (counted, since it is proved that each function returns; no run comes to the end)
    for _ in 0..u64::MAX {
        let Some(next) = waiting.pop() else {
            return Ok(());
        };
        look_at(draft, &mut waiting, owed, next)?;
    }
    Ok(())
}

/// Looks at the number of a member, or of what is owed.
fn look_at(
    draft: &mut Draft,
    waiting: &mut Waiting,
    owed: &[Owed],
    next: u32,
) -> Result<(), AllocError>
    requires sized { IsSized draft.old }
    requires there { AreThere draft.old owed.now }
    ensures grown { IfOk result (λ _. IsGrown draft.old draft.new) }
    ensures founded { (l : Lowered) → IsFounded l draft.old → AreOf l owed.now → IfOk result (λ _. IsFounded l draft.new) }
{
    if next < draft.members {
        return look_at_cells(draft, waiting, next);
    }
    match owed.get((next - draft.members) as usize) {
        Some(one) => look_at_owed(draft, waiting, next, *one),
        None => Ok(()),
    }
}

/// Makes a step that is owed, or lets its number wait for the place that it lacks.
fn look_at_owed(
    draft: &mut Draft,
    waiting: &mut Waiting,
    next: u32,
    owed: Owed,
) -> Result<(), AllocError>
    requires sized { IsSized draft.old }
    requires there { IsThereFlow draft.old owed.flow }
    ensures grown { IfOk result (λ _. IsGrown draft.old draft.new) }
    ensures founded { (l : Lowered) → IsFounded l draft.old → IsOf l owed → IfOk result (λ _. IsFounded l draft.new) }
{
    let Some(step) = draft.due(owed) else {
        let lacking = lacking(draft, owed.flow);
        waiting.wait(next, lacking);
        return Ok(());
    };
    let place = number(draft.members, step.into);
    let from = draft.target(step.from);
    let into = draft.target(step.into);
    if draft.make(owed)? {
        wake(draft, waiting, place, from, into)?;
    }
    Ok(())
}

/// Joins the cells of a member with those of the first member of its class.
fn look_at_cells(draft: &mut Draft, waiting: &mut Waiting, member: u32) -> Result<(), AllocError>
    requires sized { IsSized draft.old }
    requires there { IsThere draft.old (Place.Member member) }
    ensures grown { IfOk result (λ _. IsGrown draft.old draft.new) }
    ensures founded { (l : Lowered) → IsFounded l draft.old → IfOk result (λ _. IsFounded l draft.new) }
{
    let Some(first) = draft.target(Place::Member(member)) else {
        return Ok(());
    };
    let place = number(draft.members, Place::Cells(first));
    let from = draft.target(Place::Cells(member));
    let into = draft.target(Place::Cells(first));
    if draft.join_cells(member)? {
        wake(draft, waiting, place, from, into)?;
    }
    Ok(())
}

/// The number of the place for which a step that is not due waits: it points nowhere.
pub(crate) fn lacking(draft: &mut Draft, flow: Flow) -> u32
    requires sized { IsSized draft.old }
    requires there { IsThereFlow draft.old flow }
    ensures same { draft.new ≡ draft.old }
{
    let place = match flow {
        Flow::Copy { from, .. } => from,
        Flow::Load { address, .. } => match draft.target(address) {
            Some(member) => Place::Cells(member),
            None => address,
        },
        Flow::Store { address, from } => match draft.target(address) {
            Some(_) => from,
            None => address,
        },
    };
    number(draft.members, place)
}

/// After a step into the place of a number, wakes what waited for that: where the two pointed before it is told.
fn wake(
    draft: &mut Draft,
    waiting: &mut Waiting,
    place: u32,
    from: Option<u32>,
    into: Option<u32>,
) -> Result<(), AllocError>
    requires sized { IsSized draft.old }
    ensures same { draft.new ≡ draft.old }
{
    match (from, into) {
        (Some(one), Some(other)) => merged(draft, waiting, one.min(other), one.max(other)),
        _ => waiting.wake_all(place),
    }
}

/// After the class with the first member `gone` has become one with that of `kept`, wakes what has to be looked at therefore.
fn merged(draft: &mut Draft, waiting: &mut Waiting, kept: u32, gone: u32) -> Result<(), AllocError>
    requires sized { IsSized draft.old }
    ensures same { draft.new ≡ draft.old }
{
    if kept >= draft.members || gone >= draft.members {
        return Ok(());
    }
    let place = number(draft.members, Place::Cells(gone));
    if draft.target(Place::Cells(gone)).is_some() {
        return waiting.wake(gone);
    }
    if draft.target(Place::Cells(kept)).is_some() {
        return waiting.wake_all(place);
    }
    waiting.move_all(place, number(draft.members, Place::Cells(kept)));
    Ok(())
}
