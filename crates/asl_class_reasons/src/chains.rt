//! Chains from place to place.

ghost use Rattle.std.specs.Prelude.{◌≡◌, ◌<◌, ℕ, List, IfOk, IfSome, Some, None, length, slice_get, take};
ghost use Rattle.asl_class_reasons.specs.declared.place.Step.{Step as StepValue};
ghost use Rattle.asl_class_reasons.specs.declared.search.Visit.{Visit as VisitValue};
ghost use Rattle.asl_class_reasons.specs.Draft.{Has, IsSized};
ghost use Rattle.asl_class_reasons.specs.Chains.{seen, AreStepsThere, AreChains, IsSearch, IsShaped};
ghost use Rattle.asl_class_reasons.specs.Reasons.{IsChain, Joined};

use crate::draft::{Draft, number};
use crate::place::{Link, Place, Step};
use crate::reasons::Reasons;
use crate::search::{Search, is_there};
use crate::step_ends::StepEnds;
use std::alloc::{AllocError, Global};
use std::marker::Model;

/// All chains from one place, as a search found them.
#[derive(Drop)]
pub struct Chains {
    search: Search,
}

impl Model for Chains {
    ghost use Rattle.asl_class_reasons.specs.declared.search.Search.{Search as SearchValue};
    ghost use Rattle.asl_class_reasons.specs.Chains.{IsShaped};

    ghost Value = { SearchValue };

    ghost view = { λ c. c.search };

    ghost invariant = { λ c. IsShaped c.search };
}

/// All chains from a place by the first steps: those whose ends are given. Their places are of the draft.
pub(crate) fn search(
    alloc: Global,
    draft: &Draft,
    ends: &StepEnds,
    steps: &[Step],
    from: Place,
) -> Result<Chains, AllocError>
    requires sized { IsSized draft.now }
    requires there { AreStepsThere draft.now.members draft.now.functions steps.now }
    ensures chains { IfOk result (AreChains steps.now) }
    ensures from { IfOk result (λ t. t.from ≡ from) }
{
    let mut search = Search::begun(alloc, draft, from)?;
    search.spread(steps, ends)?;
    search.complete(steps)?;
    Ok(Chains { search })
}

impl Search {
    /// The number of the visit of a place, if the search has come to it.
    fn visit_of(&self, place: Place) -> Option<usize>
        requires { IsShaped self.now }
        ensures some { IfSome result (λ k. (v : VisitValue) × (slice_get self.now.visits.items k ≡ Some v) × (v.place ≡ place)) }
        ensures none { result ≡ None → Has self.now.members self.now.functions place → seen self.now place ≡ 0 }
    {
        if !is_there(self.members, self.functions, place) {
            return None;
        }
        let at = self.at[number(self.members, place) as usize];
        if at == 0 { None } else { Some(at - 1) }
    }

    /// The links from the start of the search to the place of a visit.
    fn links(&self, alloc: Global, visit: usize) -> Result<Vec<Link>, AllocError>
        requires shaped { IsShaped self.now }
        requires there { visit < length self.now.visits.items }
        ensures { (steps : List StepValue) (v : VisitValue) → IsSearch steps self.now → slice_get self.now.visits.items visit ≡ Some v → IfOk result (λ ks. IsChain steps self.now.from ks.items v.place) }
    {
        let mut links = Vec::new(alloc);
        let mut at = visit;
        while at > 0 {
            let here = self.visits[at];
            links.push(Link {
                step: here.step,
                into: here.place,
            })?;
            at = here.before;
        }
        links.reverse();
        Ok(links)
    }

    /// A shortest chain from the start of the search to a place; none where no chain leads there.
    fn chain_to(&self, alloc: Global, into: Place) -> Result<Option<Vec<Link>>, AllocError>
        requires { IsShaped self.now }
        ensures some { (steps : List StepValue) → AreChains steps self.now → IfOk result (λ o. IfSome o (λ ks. IsChain steps self.now.from ks.items into)) }
        ensures none { (steps : List StepValue) → AreChains steps self.now → IfOk result (λ o. o ≡ None → ¬ Joined steps self.now.from into) }
    {
        if into == self.from {
            return Ok(Some(Vec::new(alloc)));
        }
        match self.visit_of(into) {
            Some(visit) => Ok(Some(self.links(alloc, visit)?)),
            None => Ok(None),
        }
    }
}

impl Chains {
    /// A shortest chain from the place at which all of them begin to another; none where no chain leads there.
    pub fn chain_to(&self, alloc: Global, into: Place) -> Result<Option<Vec<Link>>, AllocError>
        ensures some { (steps : List StepValue) → AreChains steps self.now → IfOk result (λ o. IfSome o (λ ks. IsChain steps self.now.from ks.items into)) }
        ensures none { (steps : List StepValue) → AreChains steps self.now → IfOk result (λ o. o ≡ None → ¬ Joined steps self.now.from into) }
    {
        self.search.chain_to(alloc, into)
    }
}

impl Reasons {
    ghost use Rattle.asl_class_reasons.specs.declared.place.Place.TheVariants.{Member};

    /// All chains from one place: a search, for which each step is looked at three times at most, and which serves all places.
    pub fn chains_from(&self, alloc: Global, from: Place) -> Result<Chains, AllocError>
        ensures chains { IfOk result (AreChains self.now.steps) }
        ensures from { IfOk result (λ t. t.from ≡ from) }
    {
        search(
            alloc,
            &self.draft,
            &self.ends,
            self.draft.steps.as_slice(),
            from,
        )
    }

    /// A shortest chain from one member to another; none where no chain leads there. Any numbers are allowed.
    pub fn chain(
        &self,
        alloc: Global,
        from: u32,
        into: u32,
    ) -> Result<Option<Vec<Link>>, AllocError>
        ensures some { IfOk result (λ o. IfSome o (λ ks. IsChain self.now.steps (Member from) ks.items (Member into))) }
        ensures none { IfOk result (λ o. o ≡ None → ¬ Joined self.now.steps (Member from) (Member into)) }
    {
        self.chain_between(alloc, Place::Member(from), Place::Member(into))
    }

    /// A shortest chain from one place to another; none where no chain leads there.
    pub fn chain_between(
        &self,
        alloc: Global,
        from: Place,
        into: Place,
    ) -> Result<Option<Vec<Link>>, AllocError>
        ensures some { IfOk result (λ o. IfSome o (λ ks. IsChain self.now.steps from ks.items into)) }
        ensures none { IfOk result (λ o. o ≡ None → ¬ Joined self.now.steps from into) }
    {
        let chains = self.chains_from(alloc, from)?;
        chains.chain_to(alloc, into)
    }

    /// A shortest chain by the steps before the one of a number alone, as those are by which it is reasoned; none where no such
    /// chain leads there.
    pub fn chain_before(
        &self,
        alloc: Global,
        step: usize,
        from: Place,
        into: Place,
    ) -> Result<Option<Vec<Link>>, AllocError>
        ensures some { IfOk result (λ o. IfSome o (λ ks. IsChain (take step self.now.steps) from ks.items into)) }
        ensures none { IfOk result (λ o. o ≡ None → ¬ Joined (take step self.now.steps) from into) }
    {
        let steps = self.draft.steps.as_slice();
        let steps = &steps[..step.min(steps.len())];
        let chains = search(alloc, &self.draft, &self.ends, steps, from)?;
        chains.chain_to(alloc, into)
    }
}
