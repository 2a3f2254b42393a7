//! What the points of a search are read from: the tables of regions, and the instructions at which something may happen.

use crate::events::{Events, find_events};
use crate::explain_analysis::ExplainAnalysis;
use crate::region_table::{RegionTable, make_table};
use crate::search::calls::{CallSite, Calls, Taking, find_calls};
use crate::search::point::{Point, lock_of, narrow, point_of};
use asl_backward_flow::Region;
use asl_code::Instr;
use std::alloc::{AllocError, Global};

/// A point, and how many instructions are on the way to it.
#[derive(Clone, Copy)]
pub(crate) struct Ahead {
    pub(crate) to: Point,
    pub(crate) instructions: u32,
}

/// A section and its place in the flow.
#[derive(Clone, Copy)]
struct Placed {
    number: u16,
    place: u16,
}

/// So many calls and returns of a body are passed one by one.
const FEW_CALLS: usize = 4;

/// What the points of a program are read from.
#[derive(Drop)]
pub(crate) struct Graph {
    pub(crate) alloc: Global,
    events: Events,
    /// For each function the place of its body in the flow, if it is an inner function.
    bodies: Vec<Option<u16>>,
    /// The tables of the bodies that a search came to, and of one section, by their places in the flow.
    tables: Vec<Option<RegionTable>>,
    /// The calls of these bodies, of those that have many.
    calls: Vec<Option<Calls>>,
    /// That section.
    section: Option<Placed>,
}

impl Graph {
    /// The graph of a program.
    pub(crate) fn new(alloc: Global, analysis: &ExplainAnalysis) -> Result<Graph, AllocError> {
        let mut bodies = Vec::new(alloc);
        let mut function = 0;
        for _ in analysis.lowering.functions() {
            bodies.push(narrow(analysis.flow.place(Region::Body(function))))?;
            function = function.saturating_add(1);
        }
        Ok(Graph {
            alloc,
            events: find_events(alloc, &analysis.lowering)?,
            bodies,
            tables: Vec::new(alloc),
            calls: Vec::new(alloc),
            section: None,
        })
    }

    /// The place of the body of a function.
    pub(crate) fn body(&self, function: u16) -> Option<u16> {
        match self.bodies.get(usize::from(function)) {
            Some(place) => *place,
            None => None,
        }
    }

    /// The table of the region at a place.
    pub(crate) fn table_of(&self, place: u16) -> Option<&RegionTable> {
        match self.tables.get(usize::from(place)) {
            Some(Some(table)) => Some(table),
            _ => None,
        }
    }

    /// The first point from this one on at which something may happen to its lock, if the lock is needed up to there.
    pub(crate) fn event(&self, analysis: &ExplainAnalysis, from: Point) -> Option<Ahead> {
        let table = self.table_of(from.place)?;
        let lock = lock_of(analysis, from)?;
        let passed = self.events.next(table.function, lock, from.pc)?;
        Some(Ahead {
            to: point_of(analysis, from.place, passed.pc, usize::from(from.number))?,
            instructions: passed.instructions,
        })
    }

    /// The place of the section of a number, which is of a function. Sees to it that there is a table of it, in place of that of
    /// another section.
    pub(crate) fn enter_section(
        &mut self,
        analysis: &ExplainAnalysis,
        number: u16,
        function: u16,
    ) -> Result<Option<u16>, AllocError> {
        if let Some(placed) = self.section {
            if placed.number == number {
                return Ok(Some(placed.place));
            }
            self.set_table(placed.place, None);
            self.section = None;
        }
        let region = Region::Section(number);
        let Some(place) = narrow(analysis.flow.place(region)) else {
            return Ok(None);
        };
        self.prepare(analysis, place, region, function)?;
        self.section = Some(Placed { number, place });
        Ok(Some(place))
    }

    /// Sees to it that there is a table of what is called at a point.
    pub(crate) fn enter(
        &mut self,
        analysis: &ExplainAnalysis,
        point: Point,
    ) -> Result<(), AllocError> {
        if let Some(Instr::Call { function, .. }) = analysis
            .lowering
            .code()
            .get(usize::from(point.pc))
        {
            if let Some(place) = self.body(*function) {
                self.enter_body(analysis, place, *function)?;
            }
        }
        Ok(())
    }

    /// The first pc of the function whose body is at a place. Sees to it that there is a table of the body, and that its calls are known.
    pub(crate) fn enter_body(
        &mut self,
        analysis: &ExplainAnalysis,
        place: u16,
        function: u16,
    ) -> Result<Option<u16>, AllocError> {
        let lowering = &analysis.lowering;
        let Some(entry) = lowering.functions().get(usize::from(function)) else {
            return Ok(None);
        };
        let start = lowering.start(function);
        if self.table_of(place).is_none() {
            self.prepare(analysis, place, Region::Body(function), function)?;
            self.prepare_calls(analysis, place, start, entry.len as usize)?;
        }
        Ok(Some(start))
    }

    /// Notes the calls of the body at a place, which has so many instructions from a pc on, if they are many.
    fn prepare_calls(
        &mut self,
        analysis: &ExplainAnalysis,
        place: u16,
        start: u16,
        len: usize,
    ) -> Result<(), AllocError> {
        for _ in self.calls.len()..usize::from(place) + 1 {
            self.calls.push(None)?;
        }
        if self.events.count_turns(start, len) <= FEW_CALLS {
            return Ok(());
        }
        let Some(first) = self.events.first_turn(start) else {
            return Ok(());
        };
        let calls = find_calls(self.alloc, analysis, start, len, first.pc)?;
        if let Some(slot) = self.calls.get_mut(usize::from(place)) {
            *slot = Some(calls);
        }
        Ok(())
    }

    /// The calls of the body at a place, if they are many.
    pub(crate) fn calls_of(&self, place: u16) -> Option<&Calls> {
        match self.calls.get(usize::from(place)) {
            Some(Some(calls)) => Some(calls),
            _ => None,
        }
    }

    /// The call of a number of the body at a place.
    pub(crate) fn site(&self, place: u16, number: usize) -> Option<CallSite> {
        self.calls_of(place)?.sites.get(number).copied()
    }

    /// The instruction of a number that takes an address in the body at a place.
    pub(crate) fn taking(&self, place: u16, number: usize) -> Option<Taking> {
        self.calls_of(place)?.takings.get(number).copied()
    }

    /// Sees to it that there is a table of the region at a place.
    fn prepare(
        &mut self,
        analysis: &ExplainAnalysis,
        place: u16,
        region: Region,
        function: u16,
    ) -> Result<(), AllocError> {
        if self.table_of(place).is_some() {
            return Ok(());
        }
        for _ in self.tables.len()..usize::from(place) + 1 {
            self.tables.push(None)?;
        }
        let new = make_table(
            self.alloc,
            &analysis.classes,
            &analysis.flow,
            analysis.k_limit,
            usize::from(place),
            region,
            function,
        )?;
        self.set_table(place, Some(new));
        Ok(())
    }

    /// Keeps the table of a region, or drops it.
    fn set_table(&mut self, place: u16, table: Option<RegionTable>) {
        if let Some(slot) = self.tables.get_mut(usize::from(place)) {
            *slot = table;
        }
    }
}
