//! What searches found in bodies, by the lock at the body's entry, so that no body is searched anew for each section that calls it.

use crate::explained_value::Why;
use crate::search::nodes::Cost;
use crate::search::point::Point;
use crate::search::statements::Statements;
use std::alloc::{AllocError, Global};
use std::collections::HashMap;

/// So many changes of trees are kept.
const MOST_CHANGES: usize = 1048576;

/// What a tree takes besides its changes and its statements, as so many changes.
const OWN_CHANGES: usize = 16;

/// So many pcs of statements take as much as a change.
const PCS_OF_CHANGE: usize = 4;

/// A statement with its place among the changes takes as much as so many of them.
const CHANGES_OF_REACHED: usize = 3;

/// A change of the lock on the way from a body's entry to a statement.
#[derive(Clone, Copy)]
pub(crate) struct Turn {
    pub(crate) point: Point,
    pub(crate) why: Why,
}

/// The statement that is found first, and what the way to it costs.
#[derive(Clone, Copy)]
pub(crate) struct First {
    pub(crate) cost: Cost,
    pub(crate) point: Point,
}

/// From which pc up to which statements stand.
#[derive(Clone, Copy, PartialEq, Eq, PartialOrd, Ord)]
pub(crate) struct Range {
    pub(crate) low: u16,
    pub(crate) high: u16,
}

/// A statement, and where among all the changes on the way to it lie, the last first.
#[derive(Clone, Copy)]
pub(crate) struct Reached {
    pub(crate) point: Point,
    pub(crate) first: usize,
    pub(crate) end: usize,
}

/// What was found from the first point of a lock in a body on.
#[derive(Drop)]
pub(crate) struct Tree {
    /// The statement that is found first, if there is one.
    pub(crate) first: Option<First>,
    /// The changes on the way to it, the last first.
    pub(crate) turns: Vec<Turn>,
    /// All statements.
    pub(crate) all: Statements,
    /// All but the first.
    pub(crate) others: Statements,
    /// Where they stand.
    pub(crate) range: Range,
    /// The pcs of all statements.
    pub(crate) pcs: Vec<u16>,
    /// All statements in the order in which they are found, and the changes on the ways to them, where all chains are kept.
    pub(crate) reached: Vec<Reached>,
    pub(crate) changes: Vec<Turn>,
}

/// What was found, by the first points.
#[derive(Drop)]
pub(crate) struct Trees {
    trees: Vec<Tree>,
    numbers: HashMap<Point, usize>,
    changes: usize,
}

/// Whether two of the ranges have a pc in common.
pub(crate) fn overlap(ranges: &mut Vec<Range>) -> bool {
    ranges.sort_unstable();
    let mut last: Option<u16> = None;
    for range in ranges.as_slice() {
        if let Some(high) = last {
            if range.low <= high {
                return true;
            }
        }
        last = Some(range.high);
    }
    false
}

impl Trees {
    /// Nothing was found.
    pub(crate) fn new(alloc: Global) -> Trees {
        Trees {
            trees: Vec::new(alloc),
            numbers: HashMap::new(alloc),
            changes: 0,
        }
    }

    /// Whether what is found may still be kept.
    pub(crate) fn may_grow(&self) -> bool {
        self.changes < MOST_CHANGES
    }

    /// The number of what was found from a point on.
    pub(crate) fn number(&self, from: Point) -> Option<usize> {
        self.numbers.get(&from).copied()
    }

    /// What was found, by its number.
    pub(crate) fn tree(&self, number: usize) -> Option<&Tree> {
        self.trees.get(number)
    }

    /// Keeps what was found from a point on.
    pub(crate) fn keep(&mut self, from: Point, tree: Tree) -> Result<(), AllocError> {
        let own = OWN_CHANGES.saturating_add(tree.pcs.len() / PCS_OF_CHANGE);
        let turns = tree.turns.len().saturating_add(tree.changes.len());
        let reached = tree.reached.len().saturating_mul(CHANGES_OF_REACHED);
        let added = turns.saturating_add(reached).saturating_add(own);
        self.changes = self.changes.saturating_add(added);
        let number = self.trees.len();
        self.trees.push(tree)?;
        self.numbers.insert(from, number)?;
        Ok(())
    }
}
