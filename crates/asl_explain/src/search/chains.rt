//! The chains of a search, made of the changes on the way. They are unproved, as the search is: `confirm.rt` looks at each again.

use crate::explain_analysis::ExplainAnalysis;
use crate::explained_value::{Chain, Ending, Step, Why};
use crate::search::point::{Point, lock_of};
use crate::search::{Access, Change, Searcher};
use asl_code::Items;
use std::alloc::AllocError;

impl Searcher {
    /// The `new` and the chain of the first statement that was found.
    pub(crate) fn ending_of(
        &self,
        analysis: &ExplainAnalysis,
    ) -> Result<Option<Ending>, AllocError> {
        let Some(access) = self.search.accesses.first() else {
            return Ok(None);
        };
        let mut steps = self.steps(analysis, *access)?;
        let Some(end) = steps.pop() else {
            return Ok(None);
        };
        Ok(Some(Ending {
            pc: end.pc,
            chain: Chain {
                steps: Items::from_vec(steps),
            },
        }))
    }

    /// The chains of the first statements that were found, so many of them.
    pub(crate) fn chains_of(
        &self,
        analysis: &ExplainAnalysis,
        count: usize,
    ) -> Result<Vec<Chain>, AllocError> {
        let mut chains = Vec::new(self.alloc);
        for place in 0..count {
            let Some(access) = self.search.accesses.get(place) else {
                break;
            };
            let steps = self.steps(analysis, *access)?;
            chains.push(Chain {
                steps: Items::from_vec(steps),
            })?;
        }
        Ok(chains)
    }

    /// The steps of the chain of a statement.
    fn steps(&self, analysis: &ExplainAnalysis, access: Access) -> Result<Vec<Step>, AllocError> {
        let count = self.count_changes(access.last).saturating_add(1);
        let mut steps = Vec::with_capacity(self.alloc, count)?;
        self.add_step(analysis, access.point, Why::Accessed, &mut steps)?;
        self.add_changes(analysis, access.last, &mut steps)?;
        Ok(steps)
    }

    /// Adds the steps of a change and of those before it.
    pub(crate) fn add_changes(
        &self,
        analysis: &ExplainAnalysis,
        from: Option<usize>,
        steps: &mut Vec<Step>,
    ) -> Result<(), AllocError> {
        let mut last = from;
        for _ in 0..self.search.changes.len() {
            let Some(change) = self.change_at(last) else {
                break;
            };
            self.add_step(analysis, change.point, change.why, steps)?;
            last = change.earlier;
        }
        Ok(())
    }

    /// The change of a number, if there is one.
    pub(crate) fn change_at(&self, number: Option<usize>) -> Option<Change> {
        self.search.changes.get(number?).copied()
    }

    /// How many changes lead up to one, itself among them.
    pub(crate) fn count_changes(&self, from: Option<usize>) -> usize {
        let mut last = from;
        for count in 0..self.search.changes.len() {
            let Some(change) = self.change_at(last) else {
                return count;
            };
            last = change.earlier;
        }
        self.search.changes.len()
    }

    /// Adds a step with the lock of a point.
    pub(crate) fn add_step(
        &self,
        analysis: &ExplainAnalysis,
        point: Point,
        why: Why,
        steps: &mut Vec<Step>,
    ) -> Result<(), AllocError> {
        if let (Some(table), Some(lock)) = (
            self.graph.table_of(point.place),
            lock_of(analysis, point),
        ) {
            steps.push(Step {
                region: table.region,
                pc: point.pc,
                lock: lock.clone()?,
                why,
            })?;
        }
        Ok(())
    }
}
