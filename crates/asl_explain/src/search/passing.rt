//! The search past the calls of a body at once, of a lock that stays as it is over the whole body.

use crate::events::has_star;
use crate::explain_analysis::ExplainAnalysis;
use crate::explained_value::Why;
use crate::search::Searcher;
use crate::search::calls::CallSite;
use crate::search::gates::Gate;
use crate::search::graph::{Ahead, Graph};
use crate::search::nodes::Edge;
use crate::search::point::{Point, lock_of, needed_point, point_of};
use asl_code::{Base, Lock};
use std::alloc::AllocError;

/// The number of the global that a lock begins on.
fn global_of(lock: &Lock) -> Option<u16> {
    match lock {
        Lock::Expr(expr, _) => match expr.base {
            Base::Global(global) => Some(global),
            Base::Reg(_) => None,
        },
        _ => None,
    }
}

impl Graph {
    /// Whether the search goes past all calls of the body at once from this point: they are known from its pc on, and neither the lock
    /// nor another that reads its cell changes on the way, but where an address is taken.
    fn is_passing(&self, analysis: &ExplainAnalysis, point: Point) -> bool {
        let (Some(calls), Some(table), Some(lock)) = (
            self.calls_of(point.place),
            self.table_of(point.place),
            lock_of(analysis, point),
        ) else {
            return false;
        };
        if calls.from != point.pc {
            return false;
        }
        match lock {
            Lock::Class(class, _) => table.members(*class).len() == 0,
            Lock::Expr(_, _) => {
                global_of(lock).is_some()
                    && !has_star(lock)
                    && table.is_evaluated_alone(usize::from(point.number))
            }
            Lock::Root(_) => false,
        }
    }
}

impl Searcher {
    /// Adds the edges from a point past all calls of its body, if that can be. Says whether it did.
    pub(crate) fn add_passing(
        &mut self,
        analysis: &ExplainAnalysis,
        point: Point,
    ) -> Result<bool, AllocError> {
        if !self.graph.is_passing(analysis, point) {
            return Ok(false);
        }
        let Some(lock) = lock_of(analysis, point) else {
            return Ok(false);
        };
        self.gates.turn_to(lock)?;
        self.add_sites(analysis, point, lock)?;
        self.add_takings(analysis, point, lock)?;
        Ok(true)
    }

    /// Adds an edge to the gate of each function that is called.
    fn add_sites(
        &mut self,
        analysis: &ExplainAnalysis,
        point: Point,
        lock: &Lock,
    ) -> Result<(), AllocError> {
        // (as many as there may be pcs; the list ends before)
        for place in 0..65536 {
            let Some(site) = self.graph.site(point.place, place) else {
                break;
            };
            if let Some(gate) = self.gate(analysis, site.function, lock)? {
                self.add_site(site, gate)?;
            }
        }
        Ok(())
    }

    /// Adds an edge by a call to the gate of its function.
    fn add_site(&mut self, site: CallSite, gate: Gate) -> Result<(), AllocError> {
        let passed = site.instructions.saturating_add(1);
        self.nodes.add_edge(Edge {
            to: gate.number,
            instructions: passed.saturating_add(gate.instructions),
            passed: site.instructions,
            pc: site.pc,
            why: Some(Why::Entered),
        })
    }

    /// Adds an edge to each instruction that takes the address of the lock's global.
    fn add_takings(
        &mut self,
        analysis: &ExplainAnalysis,
        point: Point,
        lock: &Lock,
    ) -> Result<(), AllocError> {
        let Some(global) = global_of(lock) else {
            return Ok(());
        };
        for place in 0..65536 {
            let Some(taking) = self.graph.taking(point.place, place) else {
                break;
            };
            if taking.global == global {
                let number = usize::from(point.number);
                if let Some(to) = point_of(analysis, point.place, taking.pc, number) {
                    self.nodes.add(point.pc, to, taking.instructions, None)?;
                }
            }
        }
        Ok(())
    }

    /// The gate of a function, if its body needs the lock.
    fn gate(
        &mut self,
        analysis: &ExplainAnalysis,
        function: u16,
        lock: &Lock,
    ) -> Result<Option<Gate>, AllocError> {
        let Some(place) = self.graph.body(function) else {
            return Ok(None);
        };
        if let Some(gate) = self.gates.gate(place) {
            return Ok(gate);
        }
        let gate = self.find_gate(analysis, place, function, lock)?;
        self.gates.note(place, gate)?;
        Ok(gate)
    }

    /// The same, where it is not known.
    fn find_gate(
        &mut self,
        analysis: &ExplainAnalysis,
        place: u16,
        function: u16,
        lock: &Lock,
    ) -> Result<Option<Gate>, AllocError> {
        let Some(start) = self.graph.enter_body(analysis, place, function)? else {
            return Ok(None);
        };
        let Some(from) = needed_point(analysis, place, start, lock) else {
            return Ok(None);
        };
        let Some(Ahead { to, instructions }) = self.graph.event(analysis, from) else {
            return Ok(None);
        };
        let number = self.nodes.number(to)?;
        Ok(Some(Gate {
            number,
            instructions,
        }))
    }
}
