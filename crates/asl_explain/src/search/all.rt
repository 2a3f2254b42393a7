//! The search for all chains. Where a section comes into one body alone, what is found there is kept for all sections that call it.
//! Nothing is proved of what it finds: `confirm.rt` looks at each chain again.
ghost use Rattle.asl_explain.specs.Analysed.{IsAnalysed};

use crate::explain_analysis::ExplainAnalysis;
use crate::explained_value::{Chain, Why};
use crate::search::Searcher;
use crate::search::point::Point;
use crate::search::trees::{Reached, Tree, Turn};
use asl_code::{Items, Lock};
use asl_lower::Section;
use std::alloc::AllocError;

/// The entry of the only body that a section comes into: its number among the points that are kept.
#[derive(Clone, Copy)]
struct Only {
    point: Point,
    number: usize,
}

impl Searcher {
    /// The chains of a lock that the section of a number needs at its start, one for each statement that needs it, the cheapest first.
    pub(crate) fn all_chains(
        &mut self,
        analysis: &ExplainAnalysis,
        number: u16,
        section: Section,
        lock: &Lock,
    ) -> Result<Vec<Chain>, AllocError>
        requires { IsAnalysed analysis.now }
    {
        self.look_outside(analysis, number, section, lock)?;
        if self.only_entry().is_some() {
            if self.add_trees(analysis)? {
                self.look_outside(analysis, number, section, lock)?;
            }
        }
        // (anew, since points may have other numbers after what was looked at in between)
        if let Some(only) = self.only_entry() {
            if let Some(tree) = self.trees.number(only.point) {
                return self.chains_in(analysis, only, tree);
            }
        }
        self.begin_at_start(analysis, number, section, lock)?;
        self.go_on(analysis, usize::MAX)?;
        self.chains_of(analysis, self.search.accesses.len())
    }

    /// The entry of the only body that the search came to, if it has found no statement outside and came to one body.
    fn only_entry(&self) -> Option<Only> {
        if self.search.accesses.len() > 0 {
            return None;
        }
        let first = self.search.entries.first()?;
        for entry in &self.search.entries {
            if entry.number != first.number {
                return None;
            }
        }
        Some(Only {
            point: first.point,
            number: first.number,
        })
    }

    /// The chains to all that was found in the body of an entry.
    fn chains_in(
        &mut self,
        analysis: &ExplainAnalysis,
        only: Only,
        tree: usize,
    ) -> Result<Vec<Chain>, AllocError> {
        let mut chains = Vec::new(self.alloc);
        let Some(visit) = self.nodes.leave(only.number) else {
            return Ok(chains);
        };
        if let Some(tree) = self.trees.tree(tree) {
            for reached in &tree.reached {
                chains.push(self.chain_to(analysis, tree, *reached, visit.last)?)?;
            }
        }
        Ok(chains)
    }

    /// The chain to a statement of a body, with the last change on the way to the body.
    fn chain_to(
        &self,
        analysis: &ExplainAnalysis,
        tree: &Tree,
        reached: Reached,
        last: Option<usize>,
    ) -> Result<Chain, AllocError> {
        let count = reached.end.saturating_sub(reached.first);
        let outside = self.count_changes(last).saturating_add(1);
        let mut steps = Vec::with_capacity(self.alloc, count.saturating_add(outside))?;
        self.add_step(analysis, reached.point, Why::Accessed, &mut steps)?;
        for place in reached.first..reached.end {
            if let Some(turn) = tree.changes.get(place) {
                self.add_step(analysis, turn.point, turn.why, &mut steps)?;
            }
        }
        self.add_changes(analysis, last, &mut steps)?;
        Ok(Chain {
            steps: Items::from_vec(steps),
        })
    }

    /// Adds all statements that were found to a tree, with the changes on the ways to them.
    pub(crate) fn add_reached(&self, tree: &mut Tree) -> Result<(), AllocError> {
        for access in &self.search.accesses {
            let first = tree.changes.len();
            self.add_turns(access.last, &mut tree.changes)?;
            tree.reached.push(Reached {
                point: access.point,
                first,
                end: tree.changes.len(),
            })?;
        }
        Ok(())
    }

    /// Adds a change and those before it.
    pub(crate) fn add_turns(
        &self,
        from: Option<usize>,
        turns: &mut Vec<Turn>,
    ) -> Result<(), AllocError> {
        let mut last = from;
        for _ in 0..self.search.changes.len() {
            let Some(change) = self.change_at(last) else {
                break;
            };
            turns.push(Turn {
                point: change.point,
                why: change.why,
            })?;
            last = change.earlier;
        }
        Ok(())
    }
}
