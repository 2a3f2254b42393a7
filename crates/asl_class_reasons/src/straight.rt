//! Chains that are no circle: each of their steps is reasoned by steps that leave their ends apart.

ghost use Rattle.std.specs.Prelude.{◌≡◌, ◌≢◌, ◌<◌, ◌≤◌, ◌^◌, ◌+◌, ◌-◌, true, false, IfOk, IfSome, None, length, take};
ghost use Rattle.asl_lower.specs.Lowered.{Lowered};
ghost use Rattle.asl_class_reasons.specs.Draft.{IsSized, IsFounded, IsOf, IsThereFlow};
ghost use Rattle.asl_class_reasons.specs.Chains.{AreStepsThere};
ghost use Rattle.asl_class_reasons.specs.Reasons.{Joined, AreReasons, AreReasonsOf, AreReasonedBy, IsStraight};
ghost use Rattle.asl_class_reasons.specs.Following.{AreFollowing};

use crate::chains::search;
use crate::draft::{Draft, number};
use crate::flow::Owed;
use crate::flows::program_owed;
use crate::following::Following;
use crate::place::{Link, Place, Step};
use crate::reasons::Reasons;
use crate::search::is_there;
use crate::step_ends::StepEnds;
use asl_lower::Lowering;
use std::alloc::{AllocError, Global};

/// A chain that is no circle (`docs/ANALYSIS.md`, "Why one class").
#[derive(Drop)]
pub struct StraightChain {
    /// How many of the first reasons show each step of the chain. They leave its ends apart.
    pub before: usize,
    /// The steps that these show.
    pub steps: Vec<Step>,
    /// The links of the chain, by numbers of those steps.
    pub links: Vec<Link>,
}

/// The draft that steps make.
fn draft_of(
    alloc: Global,
    members: u32,
    functions: u32,
    steps: &[Step],
) -> Result<Draft, AllocError>
    requires members { members < 2 ^ 20 }
    requires functions { functions ≤ 65536 }
    requires there { AreStepsThere members functions steps.now }
    ensures sized { IfOk result IsSized }
    ensures places { IfOk result (λ s. (s.members ≡ members) × (s.functions ≡ functions)) }
    ensures steps { IfOk result (λ s. s.steps.items ≡ steps.now) }
    ensures founded { (l : Lowered) → members ≡ l.globals + l.sites → functions ≡ length l.functions → AreReasons l steps.now → IfOk result (IsFounded l) }
{
    let mut draft = Draft::new(alloc, members, functions)?;
    for step in steps {
        draft.add(*step)?;
    }
    Ok(draft)
}

/// Adds the step that is due in a draft, if one is.
fn push_due(steps: &mut Vec<Step>, draft: &mut Draft, owed: Owed) -> Result<(), AllocError>
    requires sized { IsSized draft.old }
    requires there { IsThereFlow draft.old owed.flow }
    ensures same { draft.new ≡ draft.old }
    ensures there { AreStepsThere draft.old.members draft.old.functions steps.old.items → IfOk result (λ _. AreStepsThere draft.old.members draft.old.functions steps.new.items) }
    ensures reasoned { (l : Lowered) → IsFounded l draft.old → IsOf l owed → AreReasonedBy l draft.old.steps.items steps.old.items → IfOk result (λ _. AreReasonedBy l draft.old.steps.items steps.new.items) }
{
    if let Some(step) = draft.due(owed) {
        steps.push(step)?;
    }
    Ok(())
}

/// The steps that are due in a draft of a program.
fn due_steps(alloc: Global, lowering: &Lowering, draft: &mut Draft) -> Result<Vec<Step>, AllocError>
    requires sized { IsSized draft.old }
    requires founded { IsFounded lowering.now draft.old }
    ensures same { draft.new ≡ draft.old }
    ensures there { IfOk result (λ v. AreStepsThere draft.old.members draft.old.functions v.items) }
    ensures reasoned { IfOk result (λ v. AreReasonedBy lowering.now draft.old.steps.items v.items) }
{
    let owed = program_owed(alloc, lowering)?;
    let mut steps = Vec::new(alloc);
    for one in &owed {
        push_due(&mut steps, draft, *one)?;
    }
    Ok(steps)
}

impl Reasons {
    /// The first steps, so many of them.
    fn first_steps(&self, count: usize) -> &[Step]
        ensures { result.now ≡ take count self.now.steps }
    {
        let steps = self.draft.steps.as_slice();
        &steps[..count.min(steps.len())]
    }

    /// Whether the first steps, so many of them, join two places.
    fn are_joined_by(
        &self,
        alloc: Global,
        count: usize,
        from: Place,
        into: Place,
    ) -> Result<bool, AllocError>
        ensures yes { IfOk result (λ are. are ≡ true → Joined (take count self.now.steps) from into) }
        ensures no { IfOk result (λ are. are ≡ false → ¬ Joined (take count self.now.steps) from into) }
    {
        match self.chain_before(alloc, count, from, into)? {
            Some(_) => Ok(true),
            None => Ok(false),
        }
    }

    /// A shortest chain from one place to another by the steps that are due after the first so many, if these leave the two apart and
    /// such a chain leads there.
    fn straight_at(
        &self,
        alloc: Global,
        lowering: &Lowering,
        before: usize,
        from: Place,
        into: Place,
    ) -> Result<Option<StraightChain>, AllocError>
        requires { AreReasonsOf lowering.now self.now }
        ensures { IfOk result (λ o. IfSome o (IsStraight lowering.now self.now.steps from into)) }
    {
        if self.are_joined_by(alloc, before, from, into)? {
            return Ok(None);
        }
        let firsts = self.first_steps(before);
        let mut draft = draft_of(alloc, self.draft.members, self.draft.functions, firsts)?;
        let steps = due_steps(alloc, lowering, &mut draft)?;
        let ends = StepEnds::new(alloc, &draft, &steps)?;
        let chains = search(alloc, &draft, &ends, &steps, from)?;
        match chains.chain_to(alloc, into)? {
            Some(links) => Ok(Some(StraightChain {
                before,
                steps,
                links,
            })),
            None => Ok(None),
        }
    }

    /// How many of the first steps join two places which one less leave apart.
    fn joining_steps(&self, alloc: Global, from: Place, into: Place) -> Result<usize, AllocError>
        requires two { from ≢ into }
        requires joined { Joined (take (length self.now.steps) self.now.steps) from into }
        ensures some { IfOk result (λ n. 0 < n) }
        ensures apart { IfOk result (λ n. ¬ Joined (take (n - 1) self.now.steps) from into) }
        ensures joined { IfOk result (λ n. Joined (take n self.now.steps) from into) }
    {
        let mut apart = 0;
        let mut joined = self.steps().len();
        while joined - apart > 1 {
            let middle = apart + (joined - apart) / 2;
            if self.are_joined_by(alloc, middle, from, into)? {
                joined = middle;
            } else {
                apart = middle;
            }
        }
        Ok(joined)
    }

    /// A shortest chain from one place to another by the first steps, up to one that joins the two.
    fn first_chain(
        &self,
        alloc: Global,
        from: Place,
        into: Place,
    ) -> Result<StraightChain, AllocError>
        requires two { from ≢ into }
        requires joined { Joined (take (length self.now.steps) self.now.steps) from into }
        ensures { (l : Lowered) → AreReasons l self.now.steps → IfOk result (IsStraight l self.now.steps from into) }
    {
        let joined = self.joining_steps(alloc, from, into)?;
        let Some(links) = self.chain_before(alloc, joined, from, into)? else {
            unreachable!()
        };
        let mut steps = Vec::new(alloc);
        steps.extend_from_slice(self.first_steps(joined))?;
        Ok(StraightChain {
            before: joined - 1,
            steps,
            links,
        })
    }

    /// The number of a place; one that no place has, where it is not of the program.
    fn number_of(&self, place: Place) -> usize {
        if is_there(self.draft.members, self.draft.functions, place) {
            number(self.draft.members, place) as usize
        } else {
            usize::MAX
        }
    }

    /// Whether the first steps, so many of them, leave two places apart, as far as the trees show it.
    fn are_left_apart(&self, count: usize, from: Place, into: Place) -> bool
        ensures { result ≡ true → ¬ Joined (take count self.now.steps) from into }
    {
        if count > self.made
            || !is_there(self.draft.members, self.draft.functions, from)
            || !is_there(self.draft.members, self.draft.functions, into)
        {
            return false;
        }
        let one = number(self.draft.members, from) as usize;
        let other = number(self.draft.members, into) as usize;
        self.joins.are_apart(count, one, other)
    }

    /// A shortest chain from one place to another by the steps that follow from the first so many, if these leave the two apart and
    /// such a chain is found among them.
    fn straight_by(
        &self,
        alloc: Global,
        following: &Following,
        before: usize,
        from: Place,
        into: Place,
    ) -> Result<Option<StraightChain>, AllocError>
        ensures { (l : Lowered) → AreFollowing l self.now.steps following.now → IfOk result (λ o. IfSome o (IsStraight l self.now.steps from into)) }
    {
        if self.are_left_apart(before, from, into) {
            following.chain(alloc, before, from, into)
        } else {
            Ok(None)
        }
    }

    /// A chain from one place to another that is no circle: a shortest one by all steps that those reason which were made before the
    /// two were joined. None where no chain leads there, and for one place. Any places are allowed.
    pub fn straight_chain(
        &self,
        alloc: Global,
        lowering: &Lowering,
        following: &Following,
        from: Place,
        into: Place,
    ) -> Result<Option<StraightChain>, AllocError>
        requires reasons { AreReasonsOf lowering.now self.now }
        requires following { AreFollowing lowering.now self.now.steps following.now }
        ensures straight { IfOk result (λ o. IfSome o (IsStraight lowering.now self.now.steps from into)) }
        ensures none { IfOk result (λ o. o ≡ None → from ≢ into → ¬ Joined self.now.steps from into) }
    {
        if from == into {
            return Ok(None);
        }
        let first = self.joins.first(self.number_of(from), self.number_of(into));
        if let Some(chain) = self.straight_by(alloc, following, first, from, into)? {
            return Ok(Some(chain));
        }
        if let Some(chain) = self.straight_at(alloc, lowering, first, from, into)? {
            return Ok(Some(chain));
        }
        if self.are_joined_by(alloc, self.draft.steps.len(), from, into)? {
            Ok(Some(self.first_chain(alloc, from, into)?))
        } else {
            Ok(None)
        }
    }
}
