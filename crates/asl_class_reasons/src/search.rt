//! Searches: from one place by steps, either way, to all that they lead to.

ghost use Rattle.std.specs.Prelude.{◌≡◌, ◌<◌, ◌≤◌, ◌^◌, ◌+◌, ◌↔◌, List, true, false, IfOk, Some, length, sum_by, slice_get, IsTrue};
ghost use Rattle.asl_class_reasons.specs.declared.place.Step.{Step as StepValue};
ghost use Rattle.asl_class_reasons.specs.Draft.{Has, IsSized};
ghost use Rattle.asl_class_reasons.specs.Chains.{unseen, AreStepsThere, IsShaped, IsSearch, IsClosed, IsEven, IsVisited, IsStarted};

use crate::draft::{Draft, number};
use crate::place::{Place, Step};
use crate::step_ends::StepEnds;
use std::alloc::{AllocError, Global};

/// A visit of a place, by a step from the place of a visit before it. The first visit is that of the start.
#[derive(Clone, Copy)]
pub(crate) struct Visit {
    pub(crate) place: Place,
    pub(crate) step: usize,
    pub(crate) before: usize,
}

/// A search from one place: the places that it has come to.
#[derive(Drop)]
pub(crate) struct Search {
    pub(crate) members: u32,
    pub(crate) functions: u32,
    pub(crate) from: Place,
    pub(crate) visits: Vec<Visit>,
    /// For each place, by its number, one more than the number of its visit, or 0.
    pub(crate) at: Vec<usize>,
}

/// Whether a program with so many members and functions has the place.
pub(crate) fn is_there(members: u32, functions: u32, place: Place) -> bool
    ensures { IsTrue result ↔ Has members functions place }
{
    match place {
        Place::Member(member) => member < members,
        Place::Cells(member) => member < members,
        Place::Register { function, .. } => u32::from(function) < functions,
    }
}

/// The entries of a search that has come to its start alone.
fn started(
    alloc: Global,
    members: u32,
    functions: u32,
    from: Place,
) -> Result<Vec<usize>, AllocError>
    requires members { members < 2 ^ 20 }
    requires functions { functions ≤ 65536 }
    ensures { IfOk result (λ at. IsStarted members functions from at.items) }
{
    let places = members + members + functions * 256;
    let mut at = vec![in alloc; 0; places as usize]?;
    if is_there(members, functions, from) {
        at[number(members, from) as usize] = 1;
        return Ok(at);
    }
    Ok(at)
}

impl Search {
    /// A search that has come to its start alone.
    pub(crate) fn begun(alloc: Global, draft: &Draft, from: Place) -> Result<Search, AllocError>
        requires { IsSized draft.now }
        ensures search { (steps : List StepValue) → AreStepsThere draft.now.members draft.now.functions steps → IfOk result (IsSearch steps) }
        ensures from { IfOk result (λ t. t.from ≡ from) }
    {
        let at = started(alloc, draft.members, draft.functions, from)?;
        let mut visits = Vec::new(alloc);
        visits.push(Visit {
            place: from,
            step: 0,
            before: 0,
        })?;
        Ok(Search {
            members: draft.members,
            functions: draft.functions,
            from,
            visits,
            at,
        })
    }

    /// Visits a place by a step from the place of a visit.
    fn visit(&mut self, visit: Visit) -> Result<(), AllocError>
        requires shaped { IsShaped self.old }
        requires there { Has self.old.members self.old.functions visit.place }
        ensures { IfOk result (λ _. IsVisited self.old self.new visit) }
    {
        let number = number(self.members, visit.place);
        let before = self.visits.len();
        self.visits.push(visit)?;
        self.at[number as usize] = before + 1;
        Ok(())
    }

    /// Where the step of a number leads from a place that was visited to one that was not, either way, visits this, and says
    /// whether it did.
    fn follow(&mut self, steps: &[Step], index: usize) -> Result<bool, AllocError>
        requires search { IsSearch steps.now self.old }
        requires there { index < length steps.now }
        ensures search { IfOk result (λ _. IsSearch steps.now self.new) }
        ensures from { IfOk result (λ _. self.new.from ≡ self.old.from) }
        ensures less { IfOk result (λ more. more ≡ true → sum_by unseen self.new.at.items < sum_by unseen self.old.at.items) }
        ensures same { IfOk result (λ more. more ≡ false → self.new ≡ self.old) }
        ensures even { IfOk result (λ more. more ≡ false → (s : StepValue) → slice_get steps.now index ≡ Some s → IsEven self.old s) }
    {
        let step = steps[index];
        let from = self.at[number(self.members, step.from) as usize];
        let into = self.at[number(self.members, step.into) as usize];
        if from == 0 {
            if into == 0 {
                return Ok(false);
            }
            self.visit(Visit {
                place: step.from,
                step: index,
                before: into - 1,
            })?;
            return Ok(true);
        }
        if into > 0 {
            return Ok(false);
        }
        self.visit(Visit {
            place: step.into,
            step: index,
            before: from - 1,
        })?;
        Ok(true)
    }

    /// Follows each step at the place of a number.
    fn spread_from(&mut self, steps: &[Step], ends: &StepEnds, place: u32) -> Result<(), AllocError>
        requires { IsSearch steps.now self.old }
        ensures search { IfOk result (λ _. IsSearch steps.now self.new) }
        ensures from { IfOk result (λ _. self.new.from ≡ self.old.from) }
    {
        let mut end = ends.first(place);
        for _ in 0..ends.count() {
            let Some(index) = ends.step(end) else {
                return Ok(());
            };
            if index < steps.len() {
                self.follow(steps, index)?;
            }
            end = ends.next(end);
        }
        Ok(())
    }

    /// Visits what steps lead to, the nearest places first.
    pub(crate) fn spread(&mut self, steps: &[Step], ends: &StepEnds) -> Result<(), AllocError>
        requires { IsSearch steps.now self.old }
        ensures search { IfOk result (λ _. IsSearch steps.now self.new) }
        ensures from { IfOk result (λ _. self.new.from ≡ self.old.from) }
    {
        for next in 0..self.at.len() {
            if next >= self.visits.len() {
                return Ok(());
            }
            let place = self.visits[next].place;
            if is_there(self.members, self.functions, place) {
                self.spread_from(steps, ends, number(self.members, place))?;
            }
        }
        Ok(())
    }

    /// Follows each step once, and says whether that led to a new place.
    fn follow_all(&mut self, steps: &[Step]) -> Result<bool, AllocError>
        requires { IsSearch steps.now self.old }
        ensures search { IfOk result (λ _. IsSearch steps.now self.new) }
        ensures from { IfOk result (λ _. self.new.from ≡ self.old.from) }
        ensures less { IfOk result (λ more. more ≡ true → sum_by unseen self.new.at.items < sum_by unseen self.old.at.items) }
        ensures closed { IfOk result (λ more. more ≡ false → IsClosed steps.now self.new) }
    {
        let mut more = false;
        for index in 0..steps.len() {
            if self.follow(steps, index)? {
                more = true;
            }
        }
        Ok(more)
    }

    /// Follows all steps until they lead to nothing more. After `spread` this only looks whether that is so.
    pub(crate) fn complete(&mut self, steps: &[Step]) -> Result<(), AllocError>
        requires { IsSearch steps.now self.old }
        ensures search { IfOk result (λ _. IsSearch steps.now self.new) }
        ensures from { IfOk result (λ _. self.new.from ≡ self.old.from) }
        ensures closed { IfOk result (λ _. IsClosed steps.now self.new) }
    {
        loop {
            if !self.follow_all(steps)? {
                return Ok(());
            }
        }
    }
}
