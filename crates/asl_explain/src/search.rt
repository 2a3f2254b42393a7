//! The search for the statements that need a lock of a section's start: forward over the code and into calls. Nothing is proved of what it
//! finds: each chain is looked at again before it is kept (`confirm.rt`).
ghost use Rattle.asl_explain.specs.Analysed.{IsAnalysed};

mod all;
mod calls;
mod chains;
mod gates;
mod graph;
mod nodes;
mod others;
mod passing;
mod point;
mod points;
mod seek;
mod statements;
mod trees;
mod ways;

use crate::confirm::{is_on, made_at};
use crate::explain_analysis::ExplainAnalysis;
use crate::explained_value::{Chain, Ending, Why};
use crate::search::gates::Gates;
use crate::search::graph::Graph;
use crate::search::nodes::{Cost, Nodes, Way};
pub use crate::search::others::Others;
use crate::search::point::{Point, needed_point};
pub use crate::search::statements::Statements;
use crate::search::trees::Trees;
use asl_code::Lock;
use asl_lower::Section;
use std::alloc::{AllocError, Global};
use std::cmp::Reverse;
use std::collections::BinaryHeap;

/// A point that is to be looked at, with its number among those that are kept: the one with the fewest changes first, then that with
/// the fewest instructions.
#[derive(Clone, Copy, PartialEq, Eq, PartialOrd, Ord)]
struct Waiting {
    cost: Cost,
    point: Point,
    number: usize,
}

/// A change of the lock on the way on from a section's start: the point before it, and the change before that.
#[derive(Clone, Copy)]
pub(crate) struct Change {
    point: Point,
    why: Why,
    earlier: Option<usize>,
}

/// A statement that needs the lock: the point of its access, what the way to it costs, and the last change on it.
#[derive(Clone, Copy)]
struct Access {
    cost: Cost,
    point: Point,
    last: Option<usize>,
}

/// One search.
#[derive(Drop)]
struct LockSearch {
    number: u32,
    waiting: BinaryHeap<Reverse<Waiting>>,
    changes: Vec<Change>,
    /// For each pc the number of the last search that found its statement.
    statements: Vec<u32>,
    accesses: Vec<Access>,
    /// Whether the bodies that the section calls are left for later.
    is_outside: bool,
    /// The place of the section in the flow.
    place: u16,
    /// The entries of bodies that are left for later.
    entries: Vec<Waiting>,
}

/// The searches of a program, one after the other.
#[derive(Drop)]
pub struct Searcher {
    alloc: Global,
    graph: Graph,
    nodes: Nodes,
    gates: Gates,
    /// The ways on from the point that is looked at.
    ways: Vec<Way>,
    search: LockSearch,
    /// Of how many needs under a lock of a list statements are sought.
    most: usize,
    /// For how many more of these needs statements are to be sought.
    left: usize,
    /// Whether all chains are kept.
    keeps_all: bool,
    /// Whether a chain is kept of some need under the lock.
    is_kept: bool,
    /// The statements of which no chain is kept.
    others: Others,
    /// What was found in bodies, where not all chains are kept.
    trees: Trees,
}

/// No search of a program of so many instructions.
fn no_search(alloc: Global, count: usize) -> Result<LockSearch, AllocError> {
    let mut statements = Vec::with_capacity(alloc, count)?;
    for _ in 0..count {
        statements.push(0)?;
    }
    Ok(LockSearch {
        number: 0,
        waiting: BinaryHeap::new(alloc),
        changes: Vec::new(alloc),
        statements,
        accesses: Vec::new(alloc),
        is_outside: false,
        place: 0,
        entries: Vec::new(alloc),
    })
}

impl LockSearch {
    /// Begins the next search.
    fn begin(&mut self) {
        self.number = self.number.saturating_add(1);
        self.waiting.clear();
        self.changes.clear();
        self.accesses.clear();
        self.entries.clear();
    }

    /// Notes a change, and returns its number.
    fn change(
        &mut self,
        point: Point,
        why: Why,
        earlier: Option<usize>,
    ) -> Result<usize, AllocError> {
        let number = self.changes.len();
        self.changes.push(Change {
            point,
            why,
            earlier,
        })?;
        Ok(number)
    }

    /// Notes a statement that needs the lock, unless it is noted.
    fn note(&mut self, access: Access) -> Result<(), AllocError> {
        let Some(mark) = self.statements.get_mut(usize::from(access.point.pc)) else {
            return Ok(());
        };
        if *mark == self.number {
            return Ok(());
        }
        *mark = self.number;
        self.accesses.push(access)?;
        Ok(())
    }
}

impl Searcher {
    /// The searcher of a program.
    pub fn new(alloc: Global, analysis: &ExplainAnalysis) -> Result<Searcher, AllocError> {
        Ok(Searcher {
            alloc,
            graph: Graph::new(alloc, analysis)?,
            nodes: Nodes::new(alloc),
            gates: Gates::new(alloc),
            ways: Vec::new(alloc),
            search: no_search(alloc, analysis.lowering.code().len())?,
            most: usize::MAX,
            left: usize::MAX,
            keeps_all: true,
            is_kept: false,
            others: Others::new(alloc),
            trees: Trees::new(alloc),
        })
    }

    /// From now on only the first needs under a lock of a list are sought, so many of them. One chain is kept of the lock itself, and one
    /// of the first need that has any; of all other statements it is noted where they stand.
    pub fn tell_first(&mut self, most: usize) {
        self.most = most;
        self.keeps_all = false;
    }

    /// Begins with another section.
    pub fn begin_section(&mut self) {
        self.others.clear();
    }

    /// Begins with the needs under another lock of a list.
    pub fn begin_needs(&mut self) -> Result<(), AllocError> {
        self.left = self.most;
        self.is_kept = false;
        self.others.begin_lock()
    }

    /// The statements of which no chain is kept, of the needs under the locks of the section's list.
    pub fn others(&self) -> &Others {
        &self.others
    }

    /// The chains of a lock that the section of a number needs at its start, one for each statement that needs it, the cheapest first, as far
    /// as they are to be kept; none where the statements of enough needs are sought. `listed` is the lock of the list under which it stands.
    pub fn chains(
        &mut self,
        analysis: &ExplainAnalysis,
        number: u16,
        section: Section,
        listed: &Lock,
        lock: &Lock,
    ) -> Result<Vec<Chain>, AllocError>
        requires { IsAnalysed analysis.now }
    {
        if self.left == 0 {
            return Ok(Vec::new(self.alloc));
        }
        self.left = self.left.saturating_sub(1);
        if !self.keeps_all {
            return self.shown_chain(analysis, number, section, listed, lock);
        }
        self.all_chains(analysis, number, section, lock)
    }

    /// Begins with a lock at the start of the section of a number.
    fn begin_at_start(
        &mut self,
        analysis: &ExplainAnalysis,
        number: u16,
        section: Section,
        lock: &Lock,
    ) -> Result<(), AllocError>
        requires { IsAnalysed analysis.now }
    {
        self.begin();
        if let Some(place) = self
            .graph
            .enter_section(analysis, number, section.function)?
        {
            self.search.place = place;
            let start = section.acquire.saturating_add(1);
            if let Some(from) = needed_point(analysis, place, start, lock) {
                self.begin_at(analysis, from, None)?;
            }
        }
        Ok(())
    }

    /// How many of so many chains are kept of a need, which may be that of the lock of the list itself.
    fn count_kept(&mut self, count: usize, is_listed: bool) -> usize {
        if count == 0 || (self.is_kept && !is_listed) {
            return 0;
        }
        self.is_kept = true;
        1
    }

    /// The cheapest chain of a lock that the section of a number needs after one of its `new`, which sets the register on which the
    /// lock begins, if there is such a chain: `news` has the pcs of the section's `new`.
    pub fn ending(
        &mut self,
        analysis: &ExplainAnalysis,
        number: u16,
        section: Section,
        news: &[u16],
        lock: &Lock,
    ) -> Result<Option<Ending>, AllocError>
        requires { IsAnalysed analysis.now }
    {
        self.begin();
        if let Some(place) = self
            .graph
            .enter_section(analysis, number, section.function)?
        {
            self.begin_after_all(analysis, place, news, lock)?;
        }
        self.go_on(analysis, 1)?;
        self.ending_of(analysis)
    }

    /// Begins the next search, with nothing to be looked at. Where too many points are kept, they are all given up.
    fn begin(&mut self) {
        if self.nodes.is_full() {
            self.nodes = Nodes::new(self.alloc);
            self.gates = Gates::new(self.alloc);
        }
        self.search.begin();
    }

    /// Begins with the lock after each `new` of the list that sets the register on which the lock begins.
    fn begin_after_all(
        &mut self,
        analysis: &ExplainAnalysis,
        place: u16,
        news: &[u16],
        lock: &Lock,
    ) -> Result<(), AllocError> {
        for pc in news {
            if let Some(to) = made_at(analysis, *pc) {
                if is_on(to, lock) {
                    self.begin_after(analysis, place, *pc, lock)?;
                }
            }
        }
        Ok(())
    }

    /// Begins with a lock after the `new` at a pc, if the region at a place needs it there. The `new` is noted as its last change.
    fn begin_after(
        &mut self,
        analysis: &ExplainAnalysis,
        place: u16,
        pc: u16,
        lock: &Lock,
    ) -> Result<(), AllocError> {
        let Some(from) = needed_point(analysis, place, pc.saturating_add(1), lock) else {
            return Ok(());
        };
        let at = Point {
            place,
            pc,
            number: from.number,
        };
        let last = self.search.change(at, Why::Linked, None)?;
        self.begin_at(analysis, from, Some(last))
    }
}
