//! The search in the section itself, and once for each lock in each body that it enters; and what is told where not all chains are kept.
//! Nothing is proved of what it finds: `confirm.rt` looks at each chain again, and `tests/explained` compares what is told.
ghost use Rattle.asl_explain.specs.Analysed.{IsAnalysed};

use crate::explain_analysis::ExplainAnalysis;
use crate::explained_value::{Chain, Step, Why};
use crate::search::nodes::{Cost, Via};
use crate::search::point::Point;
use crate::search::statements::Statements;
use crate::search::trees::{First, Range, Tree, overlap};
use crate::search::{Access, Searcher, Waiting};
use asl_code::{Items, Lock};
use asl_lower::Section;
use std::alloc::AllocError;

/// A body that the section calls with a lock: the number of what is found there, and the last change on the way to the body.
#[derive(Clone, Copy)]
struct Entered {
    tree: usize,
    last: Option<usize>,
}

/// The statement that is found first of all, and the place of its body among those that are entered, unless the section has it itself.
#[derive(Clone, Copy)]
struct Best {
    first: First,
    entered: Option<usize>,
    /// Whether another way to it costs as much.
    is_tied: bool,
}

/// What is found in the section itself, and in bodies.
#[derive(Drop)]
struct Joined {
    entered: Vec<Entered>,
    best: Option<Best>,
    /// Where the statements of each stand.
    ranges: Vec<Range>,
    /// The pcs of all statements in order, where some may be found in several ways.
    pcs: Option<Vec<u16>>,
}

/// The first of both.
fn better(best: Option<Best>, first: First, entered: Option<usize>) -> Option<Best> {
    let new = Best {
        first,
        entered,
        is_tied: false,
    };
    let Some(old) = best else {
        return Some(new);
    };
    if first.cost == old.first.cost && first.point == old.first.point {
        return Some(Best {
            is_tied: true,
            ..old
        });
    }
    let is_before = first.cost < old.first.cost
        || (first.cost == old.first.cost && first.point < old.first.point);
    if is_before { Some(new) } else { Some(old) }
}

impl Searcher {
    /// The chain of a lock that the section of a number needs at its start, if it is to be kept; its other statements are noted.
    pub(crate) fn shown_chain(
        &mut self,
        analysis: &ExplainAnalysis,
        number: u16,
        section: Section,
        listed: &Lock,
        lock: &Lock,
    ) -> Result<Vec<Chain>, AllocError>
        requires { IsAnalysed analysis.now }
    {
        let is_listed = listed == lock;
        self.look_outside(analysis, number, section, lock)?;
        if self.add_trees(analysis)? {
            self.look_outside(analysis, number, section, lock)?;
        }
        if let Some(joined) = self.joined()? {
            return self.joined_chain(analysis, &joined, is_listed);
        }
        self.begin_at_start(analysis, number, section, lock)?;
        self.go_on(analysis, usize::MAX)?;
        let count = self.search.accesses.len();
        let kept = self.count_kept(count, is_listed);
        let statements = self.statements_from(kept)?;
        self.others.add(statements)?;
        self.chains_of(analysis, kept)
    }

    /// Looks for statements in the section of a number, and notes where it enters bodies.
    pub(crate) fn look_outside(
        &mut self,
        analysis: &ExplainAnalysis,
        number: u16,
        section: Section,
        lock: &Lock,
    ) -> Result<(), AllocError>
        requires { IsAnalysed analysis.now }
    {
        self.search.is_outside = true;
        self.begin_at_start(analysis, number, section, lock)?;
        self.go_on(analysis, usize::MAX)?;
        self.search.is_outside = false;
        Ok(())
    }

    /// Looks for statements in the bodies that are entered, as far as that is not done and there is room for what is found. Says whether
    /// there was such a body: then the search has to look outside again.
    pub(crate) fn add_trees(&mut self, analysis: &ExplainAnalysis) -> Result<bool, AllocError>
        requires { IsAnalysed analysis.now }
    {
        let mut points = Vec::new(self.alloc);
        for entry in &self.search.entries {
            if self.trees.number(entry.point).is_none() {
                points.push(entry.point)?;
            }
        }
        let mut is_changed = false;
        for point in points {
            if self.trees.number(point).is_none() && self.trees.may_grow() {
                self.add_tree(analysis, point)?;
                is_changed = true;
            }
        }
        Ok(is_changed)
    }

    /// Looks for statements from a point of a body on, and keeps what is found.
    fn add_tree(&mut self, analysis: &ExplainAnalysis, from: Point) -> Result<(), AllocError>
        requires { IsAnalysed analysis.now }
    {
        self.begin();
        let number = self.nodes.number(from)?;
        self.wait(from, number, Cost::none(), Via::start(), None)?;
        self.go_on(analysis, usize::MAX)?;
        let mut turns = Vec::new(self.alloc);
        let first = match self.search.accesses.first() {
            Some(access) => {
                self.add_turns(access.last, &mut turns)?;
                Some(access.first())
            }
            None => None,
        };
        let mut tree = Tree {
            first,
            turns,
            all: self.statements_from(0)?,
            others: self.statements_from(1)?,
            range: self.range(),
            pcs: self.pcs()?,
            reached: Vec::new(self.alloc),
            changes: Vec::new(self.alloc),
        };
        if self.keeps_all {
            self.add_reached(&mut tree)?;
        }
        self.trees.keep(from, tree)
    }

    /// The statements that were found, from a number on.
    fn statements_from(&self, first: usize) -> Result<Statements, AllocError> {
        let mut statements = Statements::none(self.alloc);
        for place in first..self.search.accesses.len() {
            if let Some(access) = self.search.accesses.get(place) {
                statements.add(access.point.pc)?;
            }
        }
        Ok(statements)
    }

    /// The pcs of the statements that were found.
    fn pcs(&self) -> Result<Vec<u16>, AllocError> {
        let mut pcs = Vec::with_capacity(self.alloc, self.search.accesses.len())?;
        for access in &self.search.accesses {
            pcs.push(access.point.pc)?;
        }
        Ok(pcs)
    }

    /// Where the statements stand that were found.
    fn range(&self) -> Range {
        let mut range = Range {
            low: 65535,
            high: 0,
        };
        for access in &self.search.accesses {
            range.low = range.low.min(access.point.pc);
            range.high = range.high.max(access.point.pc);
        }
        range
    }

    /// What is found in the section itself, and in the bodies that it enters, if all is known of the bodies, and no two ways to the statement
    /// that is found first cost as much.
    fn joined(&mut self) -> Result<Option<Joined>, AllocError> {
        let mut joined = Joined {
            entered: Vec::new(self.alloc),
            best: None,
            ranges: Vec::new(self.alloc),
            pcs: None,
        };
        if let Some(access) = self.search.accesses.first() {
            joined.best = better(None, access.first(), None);
            joined.ranges.push(self.range())?;
        }
        for place in 0..self.search.entries.len() {
            if let Some(entry) = self.search.entries.get(place).copied() {
                if !self.join(entry, &mut joined)? {
                    return Ok(None);
                }
            }
        }
        match joined.best {
            Some(best) if best.is_tied => return Ok(None),
            _ => {}
        }
        if overlap(&mut joined.ranges) {
            joined.pcs = Some(self.joined_pcs(&joined.entered)?);
        }
        Ok(Some(joined))
    }

    /// Joins what is found in the body of an entry, if that is known. Says whether it is.
    fn join(&mut self, entry: Waiting, joined: &mut Joined) -> Result<bool, AllocError> {
        let Some(visit) = self.nodes.leave(entry.number) else {
            return Ok(true);
        };
        let Some(tree) = self.trees.number(entry.point) else {
            return Ok(false);
        };
        let Some((first, range)) = self.found_in(tree) else {
            return Ok(true);
        };
        let there = First {
            cost: visit.cost.with(first.cost),
            point: first.point,
        };
        joined.best = better(joined.best, there, Some(joined.entered.len()));
        joined.ranges.push(range)?;
        joined.entered.push(Entered {
            tree,
            last: visit.last,
        })?;
        Ok(true)
    }

    /// The pcs of the statements of the section itself, and of the bodies that are entered, in order.
    fn joined_pcs(&self, entered: &[Entered]) -> Result<Vec<u16>, AllocError> {
        let mut pcs = self.pcs()?;
        for entered in entered {
            if let Some(tree) = self.trees.tree(entered.tree) {
                pcs.extend_from_slice(tree.pcs.as_slice())?;
            }
        }
        pcs.sort_unstable();
        Ok(pcs)
    }

    /// The first statement of a tree, and where all stand, if it has any.
    fn found_in(&self, tree: usize) -> Option<(First, Range)> {
        let tree = self.trees.tree(tree)?;
        Some((tree.first?, tree.range))
    }

    /// The chain of what is joined, if it is to be kept; the other statements are noted.
    fn joined_chain(
        &mut self,
        analysis: &ExplainAnalysis,
        joined: &Joined,
        is_listed: bool,
    ) -> Result<Vec<Chain>, AllocError> {
        let mut chains = Vec::new(self.alloc);
        let Some(best) = joined.best else {
            self.others.add(Statements::none(self.alloc))?;
            return Ok(chains);
        };
        let is_kept = self.count_kept(1, is_listed) > 0;
        if is_kept {
            let steps = self.steps_to(analysis, joined, best)?;
            chains.push(Chain {
                steps: Items::from_vec(steps),
            })?;
        }
        let statements = self.joined_statements(joined, best, is_kept)?;
        self.others.add(statements)?;
        Ok(chains)
    }

    /// The statements of what is joined, perhaps without the first.
    fn joined_statements(
        &self,
        joined: &Joined,
        best: Best,
        without_first: bool,
    ) -> Result<Statements, AllocError> {
        if let Some(pcs) = &joined.pcs {
            let left_out = if without_first {
                Some(best.first.point.pc)
            } else {
                None
            };
            return Statements::of(self.alloc, pcs, left_out);
        }
        let own = if without_first && best.entered.is_none() {
            1
        } else {
            0
        };
        let mut statements = self.statements_from(own)?;
        for (place, entered) in joined.entered.iter().enumerate() {
            if let Some(tree) = self.trees.tree(entered.tree) {
                if without_first && best.entered == Some(place) {
                    statements.join(&tree.others)?;
                } else {
                    statements.join(&tree.all)?;
                }
            }
        }
        Ok(statements)
    }

    /// The steps of the chain of the statement that is found first of all.
    fn steps_to(
        &self,
        analysis: &ExplainAnalysis,
        joined: &Joined,
        best: Best,
    ) -> Result<Vec<Step>, AllocError> {
        let mut steps = Vec::new(self.alloc);
        self.add_step(analysis, best.first.point, Why::Accessed, &mut steps)?;
        let entered = match best.entered {
            Some(place) => joined.entered.get(place).copied(),
            None => None,
        };
        let Some(entered) = entered else {
            if let Some(access) = self.search.accesses.first() {
                self.add_changes(analysis, access.last, &mut steps)?;
            }
            return Ok(steps);
        };
        if let Some(tree) = self.trees.tree(entered.tree) {
            for turn in &tree.turns {
                self.add_step(analysis, turn.point, turn.why, &mut steps)?;
            }
        }
        self.add_changes(analysis, entered.last, &mut steps)?;
        Ok(steps)
    }
}

impl Access {
    /// The statement as one that is found first.
    fn first(&self) -> First {
        First {
            cost: self.cost,
            point: self.point,
        }
    }
}
