//! The points that wait to be looked at, and what is found at each.
ghost use Rattle.asl_explain.specs.Analysed.{IsAnalysed};

use crate::explain_analysis::ExplainAnalysis;
use crate::search::graph::Ahead;
use crate::search::nodes::{Compared, Cost, Edge, Onward, Via, Visit, Way};
use crate::search::point::{Point, lock_of};
use crate::search::{Access, Searcher, Waiting};
use asl_code::{Base, Effect, Instr, Lock};
use std::alloc::AllocError;
use std::cmp::Reverse;

/// Whether the instruction at a point is a load or a store that needs the point's lock itself.
fn is_access(analysis: &ExplainAnalysis, point: Point) -> bool {
    let (address, effect) = match analysis.lowering.code().get(usize::from(point.pc)) {
        Some(Instr::Load { address, .. }) => (*address, Effect::Read),
        Some(Instr::Store { address, .. }) => (*address, Effect::Write),
        _ => return false,
    };
    match lock_of(analysis, point) {
        Some(Lock::Expr(expr, own)) => {
            expr.base == Base::Reg(address) && expr.path.len() == 0 && *own == effect
        }
        _ => false,
    }
}

impl Searcher {
    /// Looks at the points that wait until so many statements are found.
    pub(crate) fn go_on(
        &mut self,
        analysis: &ExplainAnalysis,
        most: usize,
    ) -> Result<(), AllocError>
        requires { IsAnalysed analysis.now }
    {
        // (counted, since it is proved that each function returns; no run comes to the end)
        for _ in 0..u64::MAX {
            if self.search.accesses.len() >= most {
                break;
            }
            let Some(Reverse(waiting)) = self.search.waiting.pop() else {
                break;
            };
            self.look_at(analysis, waiting)?;
        }
        Ok(())
    }

    /// Puts the next point at which something may happen to a lock among those that wait.
    pub(crate) fn begin_at(
        &mut self,
        analysis: &ExplainAnalysis,
        from: Point,
        last: Option<usize>,
    ) -> Result<(), AllocError> {
        let Some(Ahead { to, instructions }) = self.graph.event(analysis, from) else {
            return Ok(());
        };
        let number = self.nodes.number(to)?;
        let cost = Cost::none().passing(instructions);
        let via = Via::start();
        let search = self.search.number;
        match self.nodes.compare(number, search, cost, via) {
            Compared::Nearer(_) => self.wait(to, number, cost, via, last),
            Compared::Before | Compared::Behind => Ok(()),
        }
    }

    /// Puts a point among those that wait, or among the entries of bodies where these are left for later.
    pub(crate) fn wait(
        &mut self,
        point: Point,
        number: usize,
        cost: Cost,
        via: Via,
        last: Option<usize>,
    ) -> Result<(), AllocError> {
        self.visit(number, cost, via, last);
        let waiting = Waiting {
            cost,
            point,
            number,
        };
        if self.search.is_outside && point.place != self.search.place {
            self.search.entries.push(waiting)?;
        } else {
            self.search.waiting.push(Reverse(waiting))?;
        }
        Ok(())
    }

    /// Notes how the search came to the point of a number.
    fn visit(&mut self, number: usize, cost: Cost, via: Via, last: Option<usize>) {
        let visit = Visit {
            search: self.search.number,
            cost,
            via,
            last,
            is_done: false,
        };
        self.nodes.visit(number, visit);
    }

    /// Looks where a point leads, unless the search has done so.
    fn look_at(&mut self, analysis: &ExplainAnalysis, waiting: Waiting) -> Result<(), AllocError>
        requires { IsAnalysed analysis.now }
    {
        let Some(visit) = self.nodes.leave(waiting.number) else {
            return Ok(());
        };
        let onward = self.onward(analysis, waiting)?;
        if onward.is_access {
            self.search.note(Access {
                cost: waiting.cost,
                point: waiting.point,
                last: visit.last,
            })?;
        }
        for place in onward.first..onward.end {
            if let Some(edge) = self.nodes.edge(place) {
                self.go_along(waiting, edge, visit.last)?;
            }
        }
        Ok(())
    }

    /// Where a point leads.
    fn onward(&mut self, analysis: &ExplainAnalysis, waiting: Waiting) -> Result<Onward, AllocError>
        requires { IsAnalysed analysis.now }
    {
        if let Some(onward) = self.nodes.onward(waiting.number) {
            return Ok(onward);
        }
        let point = waiting.point;
        let first = self.nodes.count();
        if !self.add_passing(analysis, point)? {
            self.add_edges(analysis, point)?;
        }
        Ok(
            self.nodes
                .know(waiting.number, first, is_access(analysis, point)),
        )
    }

    /// Adds the edges from a point to those at which something may happen next.
    fn add_edges(&mut self, analysis: &ExplainAnalysis, point: Point) -> Result<(), AllocError>
        requires { IsAnalysed analysis.now }
    {
        self.graph.enter(analysis, point)?;
        self.ways.clear();
        self.graph.add_ways(analysis, point, &mut self.ways)?;
        for way in &self.ways {
            let Way { to: from, why } = *way;
            if let Some(Ahead { to, instructions }) = self.graph.event(analysis, from) {
                let instructions = instructions.saturating_add(1);
                self.nodes.add(point.pc, to, instructions, why)?;
            }
        }
        Ok(())
    }

    /// Goes along an edge from a point, with the last change on the way to it, unless a way to the edge's end is known that is as near.
    fn go_along(
        &mut self,
        from: Waiting,
        edge: Edge,
        last: Option<usize>,
    ) -> Result<(), AllocError> {
        let cost = from.cost.after(edge);
        let via = Via {
            cost: from.cost.passing(edge.passed),
            point: Point {
                pc: edge.pc,
                ..from.point
            },
        };
        let compared = self.nodes.compare(edge.to, self.search.number, cost, via);
        if compared == Compared::Behind {
            return Ok(());
        }
        let last = match edge.why {
            Some(why) => Some(self.search.change(via.point, why, last)?),
            None => last,
        };
        if let Compared::Nearer(to) = compared {
            return self.wait(to, edge.to, cost, via, last);
        }
        self.visit(edge.to, cost, via, last);
        Ok(())
    }
}
