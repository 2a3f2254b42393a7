//! Where the search continues from a point: over the instruction, into a call, to the locks that read the cell.

ghost use Rattle.std.specs.Prelude.{◌≤◌};
ghost use Rattle.asl_explain.specs.Analysed.{IsAnalysed};

use crate::explain_analysis::ExplainAnalysis;
use crate::explained_value::Why;
use crate::links::{based_back, entered_back, is_kept, is_link};
use crate::region_table::RegionTable;
use crate::search::graph::Graph;
use crate::search::nodes::Way;
use crate::search::point::{Point, lock_of, needed_point, point_of};
use asl_code::{Base, Expr, Instr, Lock, Op};
use asl_lock_expr::{LinkContext, stays};
use std::alloc::AllocError;

/// Whether the path of an expression ends with that of another behind a `*`.
fn ends_behind_star(expr: &Expr, end: &Expr) -> bool {
    let (ops, end) = (expr.path.as_slice(), end.path.as_slice());
    let Some(front) = ops.strip_suffix(end) else {
        return false;
    };
    front.last().copied() == Some(Op::Deref)
}

/// Whether the first lock, after the instruction, may become the second before it, as far as is told at once.
fn may_become(instr: &Instr, after: &Lock, before: &Lock) -> bool {
    if after.effect() != before.effect() {
        return false;
    }
    match (instr, after, before) {
        (Instr::Store { .. }, Lock::Expr(expr, _), Lock::Expr(end, _)) => {
            ends_behind_star(expr, end)
        }
        _ => true,
    }
}

impl Graph {
    /// Adds the ways on from a point.
    pub(crate) fn add_ways(
        &self,
        analysis: &ExplainAnalysis,
        point: Point,
        ways: &mut Vec<Way>,
    ) -> Result<(), AllocError>
        requires { IsAnalysed analysis.now }
    {
        let (Some(table), Some(lock)) = (self.table_of(point.place), lock_of(analysis, point))
        else {
            return Ok(());
        };
        let pc = usize::from(point.pc);
        let lowering = &analysis.lowering;
        if pc >= lowering.code().len() {
            return Ok(());
        }
        let instr = &lowering.code()[pc];
        let view = analysis.view(table.function);
        // the same lock where it is still needed after the instruction, then those that become it over the instruction
        for next in lowering.successors(point.pc).as_slice() {
            self.add_kept(analysis, &view, instr, point, lock, *next, ways)?;
            self.add_linked(analysis, &view, instr, table, point, lock, *next, ways)?;
        }
        self.add_entry(analysis, instr, point, lock, ways)?;
        self.add_longer(analysis, table, point, ways)
    }

    /// Adds the ways to the locks at the same pc whose evaluation reads the cell of the point's.
    fn add_longer(
        &self,
        analysis: &ExplainAnalysis,
        table: &RegionTable,
        point: Point,
        ways: &mut Vec<Way>,
    ) -> Result<(), AllocError> {
        let Some(longer) = table.longer.get(usize::from(point.number)) else {
            return Ok(());
        };
        for number in longer {
            if let Some(to) = point_of(analysis, point.place, point.pc, usize::from(*number)) {
                ways.push(Way {
                    to,
                    why: Some(Why::Dereferenced),
                })?;
            }
        }
        Ok(())
    }

    /// Adds the way to the entry of the function that is called at a point.
    fn add_entry(
        &self,
        analysis: &ExplainAnalysis,
        instr: &Instr,
        point: Point,
        lock: &Lock,
        ways: &mut Vec<Way>,
    ) -> Result<(), AllocError> {
        let Instr::Call {
            first,
            function,
            ..
        } = *instr
        else {
            return Ok(());
        };
        let lowering = &analysis.lowering;
        let Some(callee) = lowering.functions().get(usize::from(function)) else {
            return Ok(());
        };
        let Some(place) = self.body(function) else {
            return Ok(());
        };
        if let Some(entered) = entered_back(first, callee.params, lock)? {
            if let Some(to) = needed_point(analysis, place, lowering.start(function), &entered) {
                ways.push(Way {
                    to,
                    why: Some(Why::Entered),
                })?;
            }
        }
        Ok(())
    }

    /// Adds the way over an instruction to the same lock, if it stays.
    fn add_kept(
        &self,
        analysis: &ExplainAnalysis,
        view: &LinkContext,
        instr: &Instr,
        point: Point,
        lock: &Lock,
        next: u16,
        ways: &mut Vec<Way>,
    ) -> Result<(), AllocError>
        requires { view.now.k_limit ≤ 8 }
    {
        if let Some(to) = point_of(analysis, point.place, next, usize::from(point.number)) {
            if is_kept(self.alloc, view, instr, lock)? {
                ways.push(Way { to, why: None })?;
            }
        }
        Ok(())
    }

    /// Adds the ways over an instruction to the other locks after it that become the point's.
    fn add_linked(
        &self,
        analysis: &ExplainAnalysis,
        view: &LinkContext,
        instr: &Instr,
        table: &RegionTable,
        point: Point,
        lock: &Lock,
        next: u16,
        ways: &mut Vec<Way>,
    ) -> Result<(), AllocError>
        requires { view.now.k_limit ≤ 8 }
    {
        if let Some(after) = based_back(instr, lock) {
            if let Some(number) = analysis.flow.number(usize::from(point.place), &after) {
                self.add_changed(analysis, view, instr, point, lock, next, number, ways)?;
            }
        }
        let numbers = match (instr, lock) {
            (Instr::Store { from, .. }, Lock::Expr(expr, _)) if expr.base == Base::Reg(*from) => {
                table.starred.as_slice()
            }
            (Instr::FieldAddress { to, .. } | Instr::Load { to, .. }, Lock::Class(class, _)) => {
                table.full(*to, *class)
            }
            (Instr::Call { .. }, Lock::Class(class, _)) => table.members(*class),
            _ => return Ok(()),
        };
        for number in numbers {
            let number = usize::from(*number);
            self.add_changed(analysis, view, instr, point, lock, next, number, ways)?;
        }
        Ok(())
    }

    /// Adds the way over an instruction to another lock after it, if that is needed there and becomes the point's.
    fn add_changed(
        &self,
        analysis: &ExplainAnalysis,
        view: &LinkContext,
        instr: &Instr,
        point: Point,
        lock: &Lock,
        next: u16,
        number: usize,
        ways: &mut Vec<Way>,
    ) -> Result<(), AllocError>
        requires { view.now.k_limit ≤ 8 }
    {
        if number == usize::from(point.number) {
            return Ok(());
        }
        let Some(after) = analysis.flow.locks(usize::from(point.place)).get(number) else {
            return Ok(());
        };
        if !may_become(instr, after, lock) {
            return Ok(());
        }
        let Some(to) = point_of(analysis, point.place, next, number) else {
            return Ok(());
        };
        if !stays(view, instr, after) && is_link(self.alloc, view, instr, after, lock)? {
            ways.push(Way {
                to,
                why: Some(Why::Linked),
            })?;
        }
        Ok(())
    }
}
