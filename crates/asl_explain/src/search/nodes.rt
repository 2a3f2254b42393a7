//! The points that searches came to, each with the ways on from it, so that later searches find them again.

use crate::explained_value::Why;
use crate::search::point::Point;
use std::alloc::{AllocError, Global};
use std::collections::HashMap;

/// So many points are kept from search to search.
const MOST_KEPT: usize = 262144;

/// And so many edges.
const MOST_EDGES: usize = 524288;

/// What a search has passed on its way, by which a chain is cheaper than another: fewer changes of the lock, then fewer instructions.
#[derive(Clone, Copy, PartialEq, Eq, PartialOrd, Ord)]
pub(crate) struct Cost {
    pub(crate) changes: u32,
    pub(crate) instructions: u32,
}

/// From where a search came to a point. Of two ways that cost as much the one by the lesser of these is taken.
#[derive(Clone, Copy, PartialEq, Eq, PartialOrd, Ord)]
pub(crate) struct Via {
    pub(crate) cost: Cost,
    pub(crate) point: Point,
}

/// How the last search that came to a point came there.
#[derive(Clone, Copy)]
pub(crate) struct Visit {
    /// The number of the search; no search has the number 0.
    pub(crate) search: u32,
    pub(crate) cost: Cost,
    pub(crate) via: Via,
    /// The last change on the way.
    pub(crate) last: Option<usize>,
    /// Whether the search has looked where the point leads.
    pub(crate) is_done: bool,
}

/// A way on from a point. `why` is the rule by which the lock at `to` makes that of the point needed; `None` where the lock is the
/// same.
#[derive(Clone, Copy)]
pub(crate) struct Way {
    pub(crate) to: Point,
    pub(crate) why: Option<Why>,
}

/// A way to the point of a number, over so many instructions. The lock changes at a pc, after so many of them, if it does.
#[derive(Clone, Copy)]
pub(crate) struct Edge {
    pub(crate) to: usize,
    pub(crate) instructions: u32,
    pub(crate) passed: u32,
    pub(crate) pc: u16,
    pub(crate) why: Option<Why>,
}

/// What a way to a point is beside those that the search has found.
#[derive(Clone, Copy, PartialEq, Eq)]
pub(crate) enum Compared {
    /// It is the first, or it costs less.
    Nearer(Point),
    /// It costs as much, and is to be taken.
    Before,
    /// Another is at least as near, or the search has looked on from the point.
    Behind,
}

/// What is known of where a point leads.
#[derive(Clone, Copy)]
pub(crate) struct Onward {
    /// Where its edges lie among all.
    pub(crate) first: usize,
    pub(crate) end: usize,
    /// Whether its instruction needs the lock itself.
    pub(crate) is_access: bool,
}

/// A point that is kept.
#[derive(Clone, Copy)]
struct Node {
    point: Point,
    visit: Visit,
    onward: Option<Onward>,
}

/// The points that are kept, by their numbers.
#[derive(Drop)]
pub(crate) struct Nodes {
    nodes: Vec<Node>,
    numbers: HashMap<Point, usize>,
    edges: Vec<Edge>,
}

/// A point to which no search came.
fn new_node(point: Point) -> Node {
    Node {
        point,
        visit: Visit {
            search: 0,
            cost: Cost::none(),
            via: Via::start(),
            last: None,
            is_done: false,
        },
        onward: None,
    }
}

impl Via {
    /// From where a search begins.
    pub(crate) fn start() -> Via {
        Via {
            cost: Cost::none(),
            point: Point {
                place: 0,
                pc: 0,
                number: 0,
            },
        }
    }
}

impl Cost {
    /// What nothing costs.
    pub(crate) fn none() -> Cost {
        Cost {
            changes: 0,
            instructions: 0,
        }
    }

    /// The cost after so many instructions more.
    pub(crate) fn passing(self, instructions: u32) -> Cost {
        Cost {
            changes: self.changes,
            instructions: self.instructions.saturating_add(instructions),
        }
    }

    /// The cost of both.
    pub(crate) fn with(self, more: Cost) -> Cost {
        Cost {
            changes: self.changes.saturating_add(more.changes),
            instructions: self.instructions.saturating_add(more.instructions),
        }
    }

    /// The cost after an edge more.
    pub(crate) fn after(self, edge: Edge) -> Cost {
        let changed = if edge.why.is_some() { 1 } else { 0 };
        Cost {
            changes: self.changes.saturating_add(changed),
            instructions: self.instructions.saturating_add(edge.instructions),
        }
    }
}

impl Nodes {
    /// No points.
    pub(crate) fn new(alloc: Global) -> Nodes {
        Nodes {
            nodes: Vec::new(alloc),
            numbers: HashMap::new(alloc),
            edges: Vec::new(alloc),
        }
    }

    /// Whether there are too many points to be kept.
    pub(crate) fn is_full(&self) -> bool {
        self.nodes.len() > MOST_KEPT || self.edges.len() > MOST_EDGES
    }

    /// The number of a point, which is kept from now on.
    pub(crate) fn number(&mut self, point: Point) -> Result<usize, AllocError> {
        if let Some(number) = self.numbers.get(&point) {
            return Ok(*number);
        }
        let number = self.nodes.len();
        self.nodes.push(new_node(point))?;
        self.numbers.insert(point, number)?;
        Ok(number)
    }

    /// What a way of this search to the point of a number is beside those that it has found.
    pub(crate) fn compare(&self, number: usize, search: u32, cost: Cost, via: Via) -> Compared {
        let Some(node) = self.nodes.get(number) else {
            return Compared::Behind;
        };
        let visit = node.visit;
        if visit.search != search {
            return Compared::Nearer(node.point);
        }
        if visit.is_done || visit.cost < cost {
            return Compared::Behind;
        }
        if cost < visit.cost {
            return Compared::Nearer(node.point);
        }
        if via < visit.via {
            Compared::Before
        } else {
            Compared::Behind
        }
    }

    /// Notes how a search came to the point of a number.
    pub(crate) fn visit(&mut self, number: usize, visit: Visit) {
        if let Some(node) = self.nodes.get_mut(number) {
            node.visit = visit;
        }
    }

    /// How the search came to the point of a number, where it has not looked yet where that leads: now it does.
    pub(crate) fn leave(&mut self, number: usize) -> Option<Visit> {
        let node = self.nodes.get_mut(number)?;
        let visit = node.visit;
        if visit.is_done {
            return None;
        }
        node.visit.is_done = true;
        Some(visit)
    }

    /// Where the point of a number leads, if that is known.
    pub(crate) fn onward(&self, number: usize) -> Option<Onward> {
        self.nodes.get(number)?.onward
    }

    /// Notes where the point of a number leads: the edges from a place on.
    pub(crate) fn know(&mut self, number: usize, first: usize, is_access: bool) -> Onward {
        let onward = Onward {
            first,
            end: self.edges.len(),
            is_access,
        };
        if let Some(node) = self.nodes.get_mut(number) {
            node.onward = Some(onward);
        }
        onward
    }

    /// How many edges there are.
    pub(crate) fn count(&self) -> usize {
        self.edges.len()
    }

    /// Adds an edge from a pc to a point.
    pub(crate) fn add(
        &mut self,
        pc: u16,
        to: Point,
        instructions: u32,
        why: Option<Why>,
    ) -> Result<(), AllocError> {
        let to = self.number(to)?;
        self.add_edge(Edge {
            to,
            instructions,
            passed: 0,
            pc,
            why,
        })
    }

    /// Adds an edge.
    pub(crate) fn add_edge(&mut self, edge: Edge) -> Result<(), AllocError> {
        self.edges.push(edge)?;
        Ok(())
    }

    /// The edge at a place.
    pub(crate) fn edge(&self, place: usize) -> Option<Edge> {
        self.edges.get(place).copied()
    }
}
