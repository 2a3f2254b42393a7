//! Steps that follow from first reasons, and chains of these.

ghost use Rattle.std.specs.Prelude.{◌≡◌, true, List, IfOk, IfSome, take};
ghost use Rattle.asl_lower.specs.Lowered.{Lowered};
ghost use Rattle.asl_class_reasons.specs.declared.place.Step.{Step as StepValue};
ghost use Rattle.asl_class_reasons.specs.Reasons.{Leads, Joined, IsReasoned, AreReasonsOf, IsStraight};
ghost use Rattle.asl_class_reasons.specs.Following.{AreFollowing};

use crate::flows::program_owed;
use crate::place::{Link, Place, Step};
use crate::reasons::Reasons;
use crate::replay::shown_steps;
use crate::straight::StraightChain;
use crate::ways::Ways;
use asl_lower::Lowering;
use std::alloc::{AllocError, Global};
use std::marker::Model;

/// A step that first reasons show.
#[derive(Clone, Copy)]
pub(crate) struct Shown {
    pub(crate) step: Step,
    /// How many of the first reasons show it: the fewest.
    pub(crate) before: usize,
    /// The number of what is owed. It says only in which order steps are gone through.
    pub(crate) owed: u32,
}

/// The steps that follow from first reasons of a program, each with how many of these show it (`docs/ANALYSIS.md`, "Why one class").
#[derive(Drop)]
pub struct Following {
    items: Vec<Shown>,
    ways: Ways,
}

impl Model for Following {
    ghost use Rattle.std.specs.Prelude.{List};
    ghost use Rattle.asl_class_reasons.specs.declared.following.Shown.{Shown as ShownValue};

    ghost Value = { List ShownValue };

    ghost view = { λ f. f.items.items };
}

/// The step, if the first reasons show it, so many of them.
fn if_shown(shown: Shown, before: usize) -> Option<Step>
    ensures { (l : Lowered) (reasons : List StepValue) → IsReasoned l (take shown.before reasons) shown.step → IfSome result (IsReasoned l (take before reasons)) }
{
    if shown.before <= before {
        Some(shown.step)
    } else {
        None
    }
}

/// The step of a number, if the first reasons show it, so many of them.
fn shown_by(items: &[Shown], number: usize, before: usize) -> Option<Step>
    ensures { (l : Lowered) (reasons : List StepValue) → AreFollowing l reasons items.now → IfSome result (IsReasoned l (take before reasons)) }
{
    match items.get(number) {
        Some(shown) => if_shown(*shown, before),
        None => None,
    }
}

/// To where a step leads from a place.
fn other_end(step: Step, at: Place) -> Option<Place>
    ensures { IfSome result (Leads step at) }
{
    if step.from == at {
        Some(step.into)
    } else if step.into == at {
        Some(step.from)
    } else {
        None
    }
}

/// Whether one place is another.
fn is_at(at: Place, into: Place) -> bool
    ensures { result ≡ true → at ≡ into }
{
    at == into
}

/// The chain over the steps of these numbers, if the first reasons show them, so many of them, and they lead from one place to
/// another. It is no circle where these reasons leave the two apart.
fn picked(
    alloc: Global,
    items: &[Shown],
    path: &[usize],
    before: usize,
    from: Place,
    into: Place,
) -> Result<Option<StraightChain>, AllocError>
    ensures { (l : Lowered) (reasons : List StepValue) → AreFollowing l reasons items.now → ¬ Joined (take before reasons) from into → IfOk result (λ o. IfSome o (IsStraight l reasons from into)) }
{
    let mut steps = Vec::new(alloc);
    let mut links = Vec::new(alloc);
    let mut at = from;
    for number in path {
        let Some(step) = shown_by(items, *number, before) else {
            return Ok(None);
        };
        let Some(next) = other_end(step, at) else {
            return Ok(None);
        };
        links.push(Link {
            step: steps.len(),
            into: next,
        })?;
        steps.push(step)?;
        at = next;
    }
    if !is_at(at, into) {
        return Ok(None);
    }
    Ok(Some(StraightChain {
        before,
        steps,
        links,
    }))
}

impl Following {
    /// A shortest chain from one place to another by the steps that the first reasons show, so many of them, if one is found. It is no
    /// circle where these reasons leave the two apart.
    pub(crate) fn chain(
        &self,
        alloc: Global,
        before: usize,
        from: Place,
        into: Place,
    ) -> Result<Option<StraightChain>, AllocError>
        ensures { (l : Lowered) (reasons : List StepValue) → AreFollowing l reasons self.now → ¬ Joined (take before reasons) from into → IfOk result (λ o. IfSome o (IsStraight l reasons from into)) }
    {
        let items = self.items.as_slice();
        let path = self.ways.path(alloc, items, before, from, into)?;
        picked(alloc, items, &path, before, from, into)
    }
}

impl Reasons {
    /// The steps that follow from first reasons. They are found once, and serve all straight chains.
    pub fn following(&self, alloc: Global, lowering: &Lowering) -> Result<Following, AllocError>
        requires { AreReasonsOf lowering.now self.now }
        ensures { IfOk result (AreFollowing lowering.now self.now.steps) }
    {
        let owed = program_owed(alloc, lowering)?;
        let members = self.draft.members;
        let functions = self.draft.functions;
        let steps = self.draft.steps.as_slice();
        let items = shown_steps(alloc, lowering, members, functions, &owed, steps, self.made)?;
        let places = (members + members + functions * 256) as usize;
        let ways = Ways::new(alloc, members, places, owed.len(), &items)?;
        Ok(Following { items, ways })
    }
}
