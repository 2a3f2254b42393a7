//! The steps on the way, and which places they have joined.

ghost use Rattle.std.specs.Prelude.{◌≡◌, ◌≢◌, ◌<◌, ◌≤◌, ◌^◌, ◌+◌, ◌++◌, ◌∷◌, [], ℕ, true, false, Ok, OnOk, IfOk, IfSome, MatchOption, Some, None, length, sum, slice_get};
ghost use Rattle.asl_lower.specs.Lowered.{Lowered};
ghost use Rattle.asl_class_reasons.specs.Reasons.{IsReasoned};
ghost use Rattle.asl_class_reasons.specs.Draft.{number, Has, IsThere, IsThereFlow, IsSized, IsFounded, label, target, drafted, Holds, IsOf, IsHead, IsGrown, IsSettled};

use crate::flow::{Flow, Owed};
use crate::place::{Cause, Place, Step};
use asl_points_to::DisjointSets;
use std::alloc::{AllocError, Global};

/// The steps of a program on the way. Places that they join are in one set, whose first is a member where they point somewhere.
#[derive(Drop)]
pub(crate) struct Draft {
    pub(crate) members: u32,
    pub(crate) functions: u32,
    pub(crate) sets: DisjointSets,
    pub(crate) steps: Vec<Step>,
}

/// The number of a place, in a program with so many members: members first, then their cells, then registers.
pub(crate) fn number(members: u32, place: Place) -> u32
    requires few { members < 2 ^ 20 }
    requires there { Has members 65536 place }
    ensures { result ≡ number members place }
{
    match place {
        Place::Member(member) => member,
        Place::Cells(member) => members + member,
        Place::Register { function, register } => {
            members + members + u32::from(function) * 256 + u32::from(register)
        }
    }
}

impl Draft {
    /// No steps, and each place for itself.
    pub(crate) fn new(alloc: Global, members: u32, functions: u32) -> Result<Draft, AllocError>
        requires members { members < 2 ^ 20 }
        requires functions { functions ≤ 65536 }
        ensures sized { IfOk result IsSized }
        ensures places { IfOk result (λ s. (s.members ≡ members) × (s.functions ≡ functions)) }
        ensures none { IfOk result (λ s. s.steps.items ≡ []) }
        ensures founded { (l : Lowered) → members ≡ l.globals + l.sites → functions ≡ length l.functions → IfOk result (IsFounded l) }
    {
        Ok(Draft {
            members,
            functions,
            sets: DisjointSets::new(alloc, members + members + functions * 256)?,
            steps: Vec::new(alloc),
        })
    }

    /// The first member of the class that a place points to, if it points to any.
    pub(crate) fn target(&mut self, place: Place) -> Option<u32>
        requires sized { IsSized self.old }
        requires there { IsThere self.old place }
        ensures same { self.new ≡ self.old }
        ensures target { result ≡ target self.old place }
        ensures head { IfSome result (IsHead self.old place) }
    {
        let first = self.sets.first(number(self.members, place));
        if first < self.members {
            Some(first)
        } else {
            None
        }
    }

    /// The step from a place by the instruction at a pc, if the place points somewhere.
    fn step(&mut self, pc: u16, from: Place, into: Place) -> Option<Step>
        requires sized { IsSized self.old }
        requires there { IsThere self.old from }
        ensures same { self.new ≡ self.old }
        ensures step { IfSome result (λ s. s ≡ record { cause = Cause.Instruction pc; from = from; into = into }) }
        ensures head { IfSome result (λ _. (m : ℕ) × IsHead self.old from m) }
        ensures none { result ≡ None → target self.old from ≡ None }
    {
        match self.target(from) {
            Some(_) => Some(Step {
                cause: Cause::Instruction(pc),
                from,
                into,
            }),
            None => None,
        }
    }

    /// The step that is owed now, if the places from which it leads point somewhere.
    pub(crate) fn due(&mut self, owed: Owed) -> Option<Step>
        requires sized { IsSized self.old }
        requires there { IsThereFlow self.old owed.flow }
        ensures same { self.new ≡ self.old }
        ensures there { IfSome result (λ s. IsThere self.old s.from × IsThere self.old s.into) }
        ensures reasoned { (l : Lowered) → IsFounded l self.old → IsOf l owed → IfSome result (IsReasoned l self.old.steps.items) }
        ensures holds { (l : Lowered) → IsFounded l self.old → IsOf l owed → MatchOption result (Holds (drafted l self.old) owed.flow) (λ s. label self.old s.from ≡ label self.old s.into → Holds (drafted l self.old) owed.flow) }
    {
        match owed.flow {
            Flow::Copy { from, into } => self.step(owed.pc, from, into),
            Flow::Load { address, into } => match self.target(address) {
                Some(member) => self.step(owed.pc, Place::Cells(member), into),
                None => None,
            },
            Flow::Store { address, from } => match self.target(address) {
                Some(member) => self.step(owed.pc, from, Place::Cells(member)),
                None => None,
            },
        }
    }

    /// Makes a step where its places are apart, and says whether they were.
    pub(crate) fn join(&mut self, step: Step) -> Result<bool, AllocError>
        requires sized { IsSized self.old }
        requires there { IsThere self.old step.from × IsThere self.old step.into }
        ensures grown { IfOk result (λ _. IsGrown self.old self.new) }
        ensures founded { (l : Lowered) → IsFounded l self.old → IsReasoned l self.old.steps.items step → IfOk result (λ _. IsFounded l self.new) }
        ensures lower { IfOk result (λ apart. apart ≡ true → sum self.new.sets < sum self.old.sets) }
        ensures same { IfOk result (λ apart. apart ≡ false → (self.new ≡ self.old) × (label self.old step.from ≡ label self.old step.into)) }
        ensures steps { IfOk result (λ apart. apart ≡ true → self.new.steps.items ≡ self.old.steps.items ++ step ∷ []) }
    {
        let from = self.sets.first(number(self.members, step.from));
        let into = self.sets.first(number(self.members, step.into));
        if from == into {
            return Ok(false);
        }
        self.steps.push(step)?;
        self.sets.join(from.min(into), from.max(into));
        Ok(true)
    }

    /// Adds a step, and joins its places.
    pub(crate) fn add(&mut self, step: Step) -> Result<(), AllocError>
        requires sized { IsSized self.old }
        requires there { IsThere self.old step.from × IsThere self.old step.into }
        ensures grown { IfOk result (λ _. IsGrown self.old self.new) }
        ensures founded { (l : Lowered) → IsFounded l self.old → IsReasoned l self.old.steps.items step → IfOk result (λ _. IsFounded l self.new) }
        ensures steps { IfOk result (λ _. self.new.steps.items ≡ self.old.steps.items ++ step ∷ []) }
    {
        if self.join(step)? {
            return Ok(());
        }
        self.steps.push(step)?;
        Ok(())
    }

    /// Makes the step that is owed now, if its places are apart, and says whether they were.
    pub(crate) fn make(&mut self, owed: Owed) -> Result<bool, AllocError>
        requires sized { IsSized self.old }
        requires there { IsThereFlow self.old owed.flow }
        ensures grown { IfOk result (λ _. IsGrown self.old self.new) }
        ensures founded { (l : Lowered) → IsFounded l self.old → IsOf l owed → IfOk result (λ _. IsFounded l self.new) }
        ensures lower { IfOk result (λ apart. apart ≡ true → sum self.new.sets < sum self.old.sets) }
        ensures same { IfOk result (λ apart. apart ≡ false → self.new ≡ self.old) }
        ensures holds { (l : Lowered) → IsFounded l self.old → IsOf l owed → IfOk result (λ apart. apart ≡ false → Holds (drafted l self.new) owed.flow) }
    {
        match self.due(owed) {
            Some(step) => self.join(step),
            None => Ok(false),
        }
    }

    /// Joins the cells of a member with those of the first member of its class, where they point somewhere.
    pub(crate) fn join_cells(&mut self, member: u32) -> Result<bool, AllocError>
        requires sized { IsSized self.old }
        requires there { member < self.old.members }
        ensures grown { IfOk result (λ _. IsGrown self.old self.new) }
        ensures founded { (l : Lowered) → IsFounded l self.old → IfOk result (λ _. IsFounded l self.new) }
    {
        let from = Place::Cells(member);
        match (self.target(Place::Member(member)), self.target(from)) {
            (Some(first), Some(_)) => self.join(Step {
                cause: Cause::SameClass,
                from,
                into: Place::Cells(first),
            }),
            _ => Ok(false),
        }
    }

    /// Whether two members are apart. Who is no member is apart from all.
    pub(crate) fn are_apart(&mut self, m: u32, n: u32) -> bool
        requires { IsSized self.old }
        ensures apart { result ≡ true → m < self.old.members → n < self.old.members → label self.old (Place.Member m) ≢ label self.old (Place.Member n) }
        ensures one { result ≡ false → (m < self.old.members) × (n < self.old.members) × (label self.old (Place.Member m) ≡ label self.old (Place.Member n)) }
    {
        if m >= self.members || n >= self.members {
            return true;
        }
        let first = self.sets.first(m);
        let other = self.sets.first(n);
        first != other
    }

    /// Makes a step more between places that are joined, so that chains get shorter.
    pub(crate) fn shorten(&mut self, owed: Owed) -> Result<(), AllocError>
        requires sized { IsSized self.old }
        requires there { IsThereFlow self.old owed.flow }
        ensures sized { IfOk result (λ _. IsSized self.new) }
        ensures places { IfOk result (λ _. (self.new.members ≡ self.old.members) × (self.new.functions ≡ self.old.functions)) }
        ensures settled { (l : Lowered) → IsSettled l self.old → IsOf l owed → IfOk result (λ _. IsSettled l self.new) }
    {
        if let Some(step) = self.due(owed) {
            self.steps.push(step)?;
        }
        Ok(())
    }
}
