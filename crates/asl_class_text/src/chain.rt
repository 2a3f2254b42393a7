//! From links to the steps that are told, each looked at again: nothing that is told rests on how a search goes.
ghost use Rattle.std.specs.Prelude.{◌≡◌, true, false, Some, None, IfOk, IfSome, slice_get};
ghost use Rattle.asl_class_reasons.specs.declared.place.Step.{Step as StepValue};
ghost use Rattle.asl_class_reasons.specs.Reasons.{Leads, IsChain};
ghost use Rattle.asl_class_text.specs.Chains.{IsTold, IsToldChain};

use crate::kinds::end_of;
use crate::told::ToldStep;
use asl_class_reasons::{Link, Place, Step};
use std::alloc::{AllocError, Global};

/// Whether these are the places of a step: from which, and into which it leads.
fn are_ends(from: Place, into: Place, start: Place, end: Place) -> bool
    ensures yes { result ≡ true → (from ≡ start) × (into ≡ end) }
    ensures no { result ≡ false → from ≡ start → into ≡ end → ⊥ }
{
    from == start && into == end
}

/// The step of a link that leads from a place, if it does.
#[tactic(auto, using(crate::proofs::Chaining::leads_not))]
fn told_step(steps: &[Step], at: Place, link: Link) -> Option<ToldStep>
    ensures told { IfSome result (IsTold steps.now at link) }
    ensures none { result ≡ None → (s : StepValue) → slice_get steps.now link.step ≡ Some s → Leads s at link.into → ⊥ }
{
    let step = *steps.get(link.step)?;
    let ahead = ToldStep {
        number: link.step,
        step,
        back: false,
    };
    if are_ends(step.from, step.into, at, link.into) {
        Some(ahead)
    } else if are_ends(step.into, step.from, at, link.into) {
        Some(ToldStep {
            back: true,
            ..ahead
        })
    } else {
        None
    }
}

/// The steps of links that lead from one place to another, if they do.
pub(crate) fn told_chain(
    alloc: Global,
    steps: &[Step],
    from: Place,
    links: &[Link],
    into: Place,
) -> Result<Option<Vec<ToldStep>>, AllocError>
    ensures told { IfOk result (λ o. IfSome o (λ chain. IsToldChain steps.now from chain.items into)) }
    ensures none { IfOk result (λ o. o ≡ None → IsChain steps.now from links.now into → ⊥) }
{
    let mut chain = Vec::new(alloc);
    let mut at = from;
    for link in links {
        let Some(told) = told_step(steps, at, *link) else {
            return Ok(None);
        };
        chain.push(told)?;
        at = end_of(told);
    }
    if at == into {
        Ok(Some(chain))
    } else {
        Ok(None)
    }
}
