//! Which steps follow from first reasons: these are made again, one by one.

ghost use Rattle.std.specs.Prelude.{◌≡◌, ◌<◌, ◌≤◌, ◌^◌, ◌+◌, ◌++◌, ◌∷◌, [], List, IfOk, length, take};
ghost use Rattle.asl_lower.specs.Lowered.{Lowered};
ghost use Rattle.asl_class_reasons.specs.declared.place.Step.{Step as StepValue};
ghost use Rattle.asl_class_reasons.specs.Draft.{IsSized, IsFounded, IsGrown, IsThere, IsThereFlow, AreThere, AreOf, IsOf};
ghost use Rattle.asl_class_reasons.specs.Chains.{AreStepsThere};
ghost use Rattle.asl_class_reasons.specs.Reasons.{IsReasoned, AreReasons};
ghost use Rattle.asl_class_reasons.specs.Following.{AreFollowing};

use crate::draft::{Draft, number};
use crate::flow::{Flow, Owed};
use crate::following::Shown;
use crate::place::{Place, Step};
use crate::waiting::Waiting;
use crate::waking::lacking;
use asl_lower::Lowering;
use std::alloc::{AllocError, Global};

/// For each number that is owed so many steps are noted in the mean, before no more are looked for whose address comes to other cells.
const MEAN_NOTED: usize = 4;

/// The steps that follow from first reasons, of the first so many: each step that is due in the draft of these reasons is noted as
/// soon as it is.
pub(crate) fn shown_steps(
    alloc: Global,
    lowering: &Lowering,
    members: u32,
    functions: u32,
    owed: &[Owed],
    steps: &[Step],
    count: usize,
) -> Result<Vec<Shown>, AllocError>
    requires few_members { members < 2 ^ 20 }
    requires few_functions { functions ≤ 65536 }
    requires members { members ≡ lowering.now.globals + lowering.now.sites }
    requires functions { functions ≡ length lowering.now.functions }
    requires owed { AreOf lowering.now owed.now }
    requires there { AreStepsThere members functions steps.now }
    requires reasons { AreReasons lowering.now steps.now }
    ensures { IfOk result (λ v. AreFollowing lowering.now steps.now v.items) }
{
    let mut draft = Draft::new(alloc, members, functions)?;
    let places = (members + members + functions * 256) as usize;
    let mut waiting = Waiting::new(alloc, owed.len(), places)?;
    let mut items = Vec::new(alloc);
    note_woken(&mut draft, &mut waiting, owed, 0, &mut items)?;
    for index in 0..count.min(steps.len()) {
        go_on(&mut draft, &mut waiting, steps[index])?;
        note_woken(&mut draft, &mut waiting, owed, index + 1, &mut items)?;
    }
    Ok(items)
}

/// Notes what is due of what was woken, after so many reasons.
fn note_woken(
    draft: &mut Draft,
    waiting: &mut Waiting,
    owed: &[Owed],
    before: usize,
    items: &mut Vec<Shown>,
) -> Result<(), AllocError>
    requires sized { IsSized draft.old }
    requires there { AreThere draft.old owed.now }
    ensures same { draft.new ≡ draft.old }
    ensures shown { (l : Lowered) (reasons : List StepValue) → IsFounded l draft.old → AreOf l owed.now → draft.old.steps.items ≡ take before reasons → AreFollowing l reasons items.old.items → IfOk result (λ _. AreFollowing l reasons items.new.items) }
{
    // (counted, since it is proved that each function returns; no run comes to the end)
    for _ in 0..u64::MAX {
        let Some(next) = waiting.pop() else {
            return Ok(());
        };
        note(draft, waiting, owed, before, items, next)?;
    }
    Ok(())
}

/// Notes the step that is owed by a number, if it is due, or lets the number wait for the place that it lacks.
fn note(
    draft: &mut Draft,
    waiting: &mut Waiting,
    owed: &[Owed],
    before: usize,
    items: &mut Vec<Shown>,
    next: u32,
) -> Result<(), AllocError>
    requires sized { IsSized draft.old }
    requires there { AreThere draft.old owed.now }
    ensures same { draft.new ≡ draft.old }
    ensures shown { (l : Lowered) (reasons : List StepValue) → IsFounded l draft.old → AreOf l owed.now → draft.old.steps.items ≡ take before reasons → AreFollowing l reasons items.old.items → IfOk result (λ _. AreFollowing l reasons items.new.items) }
{
    match owed.get(next as usize) {
        Some(one) => note_one(draft, waiting, *one, before, items, next, owed.len()),
        None => Ok(()),
    }
}

/// So where this is owed by the number, one of so many.
fn note_one(
    draft: &mut Draft,
    waiting: &mut Waiting,
    owed: Owed,
    before: usize,
    items: &mut Vec<Shown>,
    next: u32,
    count: usize,
) -> Result<(), AllocError>
    requires sized { IsSized draft.old }
    requires there { IsThereFlow draft.old owed.flow }
    ensures same { draft.new ≡ draft.old }
    ensures shown { (l : Lowered) (reasons : List StepValue) → IsFounded l draft.old → IsOf l owed → draft.old.steps.items ≡ take before reasons → AreFollowing l reasons items.old.items → IfOk result (λ _. AreFollowing l reasons items.new.items) }
{
    let Some(step) = draft.due(owed) else {
        waiting.wait(next, lacking(draft, owed.flow));
        return Ok(());
    };
    let more = items.len() / MEAN_NOTED < count;
    wait_for_other_cells(draft, waiting, next, owed.flow, more);
    items.push(Shown {
        step,
        before,
        owed: next,
    })?;
    Ok(())
}

/// Lets the number of a load or a store wait until the first member of its address's class is another, by the one that it is now, if
/// more steps are to be noted.
fn wait_for_other_cells(draft: &mut Draft, waiting: &mut Waiting, next: u32, flow: Flow, more: bool)
    requires sized { IsSized draft.old }
    requires there { IsThereFlow draft.old flow }
    ensures same { draft.new ≡ draft.old }
{
    let address = match flow {
        Flow::Copy { .. } => return,
        Flow::Load { address, .. } => address,
        Flow::Store { address, .. } => address,
    };
    match draft.target(address) {
        Some(first) if more => waiting.wait(next, first),
        _ => {}
    }
}

/// Makes the next reason again, and wakes what has to be looked at therefore.
fn go_on(draft: &mut Draft, waiting: &mut Waiting, step: Step) -> Result<(), AllocError>
    requires sized { IsSized draft.old }
    requires there { IsThere draft.old step.from × IsThere draft.old step.into }
    ensures grown { IfOk result (λ _. IsGrown draft.old draft.new) }
    ensures founded { (l : Lowered) → IsFounded l draft.old → IsReasoned l draft.old.steps.items step → IfOk result (λ _. IsFounded l draft.new) }
    ensures steps { IfOk result (λ _. draft.new.steps.items ≡ draft.old.steps.items ++ step ∷ []) }
{
    let from = draft.target(step.from);
    let into = draft.target(step.into);
    draft.add(step)?;
    wake(draft, waiting, step.into, from, into)
}

/// After a step into a place, wakes what has to be looked at therefore: where the two places of the step pointed before it is told.
fn wake(
    draft: &mut Draft,
    waiting: &mut Waiting,
    place: Place,
    from: Option<u32>,
    into: Option<u32>,
) -> Result<(), AllocError>
    requires sized { IsSized draft.old }
    requires there { IsThere draft.old place }
    ensures same { draft.new ≡ draft.old }
{
    match (from, into) {
        (Some(one), Some(other)) if one != other => {
            wake_gone(draft, waiting, one.min(other), one.max(other))
        }
        (_, Some(_)) => Ok(()),
        _ => waiting.wake_all(number(draft.members, place)),
    }
}

/// After the class with the first member `gone` has become one with that of `kept`, wakes what comes to other cells therefore.
fn wake_gone(
    draft: &mut Draft,
    waiting: &mut Waiting,
    kept: u32,
    gone: u32,
) -> Result<(), AllocError>
    requires { IsSized draft.old }
    ensures { draft.new ≡ draft.old }
{
    if kept >= draft.members || gone >= draft.members {
        return Ok(());
    }
    waiting.wake_all(gone)?;
    let place = number(draft.members, Place::Cells(gone));
    if draft.target(Place::Cells(kept)).is_some() {
        return waiting.wake_all(place);
    }
    waiting.move_all(place, number(draft.members, Place::Cells(kept)));
    Ok(())
}
