//! By which step places were joined first.

ghost use Rattle.std.specs.Prelude.{◌≡◌, ◌<◌, ◌^◌, ◌+◌, true, IfSome};
ghost use Rattle.asl_class_reasons.specs.Draft.{number, Has, IsSized};
ghost use Rattle.asl_class_reasons.specs.Following.{above_of, number_of, IsRootAt, HaveOneRoot, HaveTwoRoots, AreInTrees};

use crate::draft::{Draft, number};
use crate::place::Step;
use std::alloc::{AllocError, Global};

/// More levels than a tree of places has.
const MOST_LEVELS: u32 = 64;

/// Places in trees, each by its number below one that has more places below it, and the number of the step that put it there; that
/// of a root is the greatest one. Nothing is proved of how the trees are made: for each step it is looked whether it joins its places
/// in them.
#[derive(Drop)]
pub(crate) struct JoinNumbers {
    pub(crate) above: Vec<usize>,
    pub(crate) numbers: Vec<usize>,
    sizes: Vec<usize>,
}

impl JoinNumbers {
    /// The trees that the steps of a draft make.
    pub(crate) fn new(alloc: Global, draft: &Draft) -> Result<JoinNumbers, AllocError>
        requires { IsSized draft.now }
    {
        let places = (draft.members + draft.members + draft.functions * 256) as usize;
        let mut above = Vec::with_capacity(alloc, places)?;
        for place in 0..places {
            above.push(place)?;
        }
        let numbers = vec![in alloc; usize::MAX; places]?;
        let sizes = vec![in alloc; 1; places]?;
        let mut joins = JoinNumbers {
            above,
            numbers,
            sizes,
        };
        let steps = draft.steps.as_slice();
        for index in 0..steps.len() {
            let step = steps[index];
            let from = number(draft.members, step.from);
            let into = number(draft.members, step.into);
            joins.join(from as usize, into as usize, index);
        }
        Ok(joins)
    }

    /// The place above another; itself for a root.
    fn above(&self, place: usize) -> usize
        ensures { result ≡ above_of self.now place }
    {
        self.above.get(place).copied().unwrap_or(place)
    }

    /// The number of the step that put a place below another.
    fn number(&self, place: usize) -> usize
        ensures { result ≡ number_of self.now place }
    {
        self.numbers.get(place).copied().unwrap_or(usize::MAX)
    }

    /// The root of the tree of a place.
    fn root(&self, place: usize) -> usize {
        let mut at = place;
        for _ in 0..MOST_LEVELS {
            if self.above(at) == at {
                return at;
            }
            at = self.above(at);
        }
        at
    }

    /// Joins the trees of two places by the step of a number.
    fn join(&mut self, one: usize, other: usize, step: usize) {
        let one = self.root(one);
        let other = self.root(other);
        if one != other && one < self.sizes.len() && other < self.sizes.len() {
            if self.sizes[one] < self.sizes[other] {
                self.put(one, other, step);
            } else {
                self.put(other, one, step);
            }
        }
    }

    /// Puts a root below another by the step of a number.
    fn put(&mut self, low: usize, high: usize, step: usize) {
        let places = self.sizes.len();
        if self.above.len() == places
            && self.numbers.len() == places
            && low < places
            && high < places
        {
            self.above[low] = high;
            self.numbers[low] = step;
            self.sizes[high] = self.sizes[high].saturating_add(self.sizes[low]);
        }
    }

    /// The number of the step by which two places were joined first; any where they were not.
    pub(crate) fn first(&self, one: usize, other: usize) -> usize {
        let mut one = one;
        let mut other = other;
        let mut step = 0;
        for _ in 0..2 * MOST_LEVELS {
            if one == other {
                return step;
            }
            if self.number(one) < self.number(other) {
                step = step.max(self.number(one));
                one = self.above(one);
            } else {
                step = step.max(self.number(other));
                other = self.above(other);
            }
        }
        step
    }

    /// The highest place above another to which the steps before the one of a number lead; none where the way is too long.
    fn root_at(&self, before: usize, place: usize) -> Option<usize>
        ensures { IfSome result (IsRootAt self.now before place) }
    {
        let mut at = place;
        for _ in 0..MOST_LEVELS {
            if self.number(at) >= before {
                return Some(at);
            }
            at = self.above(at);
        }
        None
    }

    /// Whether the steps before the one of a number leave two places in two trees.
    pub(crate) fn are_apart(&self, before: usize, one: usize, other: usize) -> bool
        ensures { result ≡ true → HaveTwoRoots self.now before one other }
    {
        match (self.root_at(before, one), self.root_at(before, other)) {
            (Some(first), Some(second)) => first != second,
            _ => false,
        }
    }

    /// Whether the steps before the one of a number have two places in one tree.
    fn are_one(&self, before: usize, one: usize, other: usize) -> bool
        ensures { result ≡ true → HaveOneRoot self.now before one other }
    {
        match (self.root_at(before, one), self.root_at(before, other)) {
            (Some(first), Some(second)) => first == second,
            _ => false,
        }
    }

    /// Whether the steps up to the one of a number, this one too, have its places in one tree.
    fn meets(&self, members: u32, step: Step, index: usize) -> bool
        requires few { members < 2 ^ 20 }
        requires there { Has members 65536 step.from × Has members 65536 step.into }
        requires low { index < 2 ^ 63 }
        ensures { result ≡ true → HaveOneRoot self.now (index + 1) (number members step.from) (number members step.into) }
    {
        let from = number(members, step.from) as usize;
        let into = number(members, step.into) as usize;
        self.are_one(index + 1, from, into)
    }

    /// How many of the first steps of a draft have their places in one tree once they are made, of so many.
    pub(crate) fn met(&self, draft: &Draft, count: usize) -> usize
        requires { IsSized draft.now }
        ensures { AreInTrees self.now draft.now.members draft.now.steps.items result }
    {
        let steps = draft.steps.as_slice();
        let count = count.min(steps.len());
        for index in 0..count {
            if !self.meets(draft.members, steps[index], index) {
                return index;
            }
        }
        count
    }
}
