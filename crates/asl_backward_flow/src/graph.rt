//! The jumps to each pc, the calls of each function, and the regions that have each call.
ghost use Rattle.std.specs.Prelude.{◌≡◌, ◌↔◌, IsTrue, ◌++◌, ◌∷◌, ◌+◌, [], ◌<◌, ◌≤◌, length, map, slice_set, vec_len, IfOk, OnOk, replicate};
ghost use Rattle.asl_lower.specs.LegalLowering.{IsLegalLowering};
ghost use Rattle.asl_backward_flow.specs.Found.{list_at};
ghost use Rattle.asl_backward_flow.specs.Graph.{HasRows, HasCall, EndWithin, IsEdge, IsJump, IsCall, goes_to_next, jump_target};

use crate::span::Span;
use asl_code::Instr;
use asl_lower::Lowering;
use std::alloc::{AllocError, Global};

/// So many empty rows.
fn empty_rows(alloc: Global, count: usize) -> Result<Vec<Vec<u16>>, AllocError>
    ensures { IfOk result (λ rows. map (λ r. r.items) rows.items ≡ replicate count []) }
{
    let mut rows = Vec::with_capacity(alloc, count)?;
    for _ in 0..count {
        rows.push(Vec::new(alloc))?;
    }
    Ok(rows)
}

/// Adds a pc to the row of a number.
fn add_to_row(rows: &mut Vec<Vec<u16>>, number: usize, pc: u16) -> Result<(), AllocError>
    requires { number < vec_len rows.old }
    ensures count { OnOk result (vec_len rows.new ≡ vec_len rows.old) }
    ensures rows { OnOk result (map (λ r. r.items) rows.new.items
        ≡ slice_set (map (λ r. r.items) rows.old.items) number (list_at (map (λ r. r.items) rows.old.items) number ++ pc ∷ [])) }
{
    rows[number].push(pc)?;
    Ok(())
}

/// Whether control continues from a pc to another.
pub fn goes_on(lowering: &Lowering, pc: u16, to: u16) -> bool
    requires { pc < length lowering.now.code }
    ensures { IsTrue result ↔ IsEdge lowering.now to pc }
{
    let instr = &lowering.code()[usize::from(pc)];
    if may_jump_to(instr, to) {
        return true;
    }
    if !goes_to_next(instr) {
        return false;
    }
    usize::from(to) == usize::from(pc) + 1
}

/// Whether the instruction may jump to a pc.
fn may_jump_to(instr: &Instr, to: u16) -> bool
    ensures { IsTrue result ↔ (jump_target instr.now ≡ Some to) }
{
    match jump_target(instr) {
        Some(target) => target == to,
        None => false,
    }
}

/// Whether control may continue from the instruction to the next.
fn goes_to_next(instr: &Instr) -> bool
    ensures { result ≡ goes_to_next instr.now }
{
    match instr {
        Instr::Jump { .. } | Instr::Return { .. } => false,
        _ => true,
    }
}

/// Where the instruction may jump to.
fn jump_target(instr: &Instr) -> Option<u16>
    ensures { result ≡ jump_target instr.now }
{
    match instr {
        Instr::Jump { target } => Some(*target),
        Instr::JumpIfZero { target, .. } => Some(*target),
        _ => None,
    }
}

/// For each pc, the pcs from which control continues to it, without the one before it.
pub fn jumps(alloc: Global, lowering: &Lowering) -> Result<Vec<Vec<u16>>, AllocError>
    ensures kept { IsLegalLowering lowering.now }
    ensures rows { IfOk result (λ rows. HasRows (map (λ r. r.items) rows.items) (IsJump lowering.now) (length lowering.now.code)) }
{
    let count = lowering.code().len();
    let mut rows = empty_rows(alloc, count)?;
    for pc in 0..count {
        add_jump(lowering, pc as u16, &mut rows)?;
    }
    Ok(rows)
}

/// Adds the pc to the row of the one to which its instruction may jump, unless that is the next.
fn add_jump(lowering: &Lowering, pc: u16, rows: &mut Vec<Vec<u16>>) -> Result<(), AllocError>
    requires kept { IsLegalLowering lowering.now }
    requires there { pc < length lowering.now.code }
    requires rows { length lowering.now.code ≡ vec_len rows.old }
    requires before { HasRows (map (λ r. r.items) rows.old.items) (IsJump lowering.now) pc }
    ensures rows { OnOk result (HasRows (map (λ r. r.items) rows.new.items) (IsJump lowering.now) (pc + 1)) }
    ensures count { OnOk result (vec_len rows.new ≡ vec_len rows.old) }
{
    match jump_target(&lowering.code()[usize::from(pc)]) {
        Some(target) => {
            let target = usize::from(target);
            if target != usize::from(pc) + 1 {
                return add_to_row(rows, target, pc);
            }
            Ok(())
        }
        None => Ok(()),
    }
}

/// For each function, the pcs at which it is called.
pub fn calls(alloc: Global, lowering: &Lowering) -> Result<Vec<Vec<u16>>, AllocError>
    ensures { IfOk result (λ rows. HasRows (map (λ r. r.items) rows.items) (IsCall lowering.now) (length lowering.now.code)) }
{
    let mut rows = empty_rows(alloc, lowering.functions().len())?;
    let code = lowering.code();
    for pc in 0..code.len() {
        if let Instr::Call { function, .. } = code[pc] {
            add_to_row(&mut rows, usize::from(function), pc as u16)?;
        }
    }
    Ok(rows)
}

/// For each pc at which a function is called, the regions that have it, by their places among the spans.
pub fn regions(
    alloc: Global,
    lowering: &Lowering,
    spans: &[Span],
) -> Result<Vec<Vec<u16>>, AllocError>
    requires few { length spans.now ≤ 1280 }
    requires within { EndWithin spans.now (length lowering.now.code) }
    ensures { IfOk result (λ rows. HasRows (map (λ r. r.items) rows.items) (HasCall lowering.now spans.now) (length spans.now)) }
{
    let mut rows = empty_rows(alloc, lowering.code().len())?;
    for part in 0..spans.len() {
        add_region(lowering, spans, part as u16, &mut rows)?;
    }
    Ok(rows)
}

/// Adds a region to the rows of its calls.
fn add_region(
    lowering: &Lowering,
    spans: &[Span],
    part: u16,
    rows: &mut Vec<Vec<u16>>,
) -> Result<(), AllocError>
    requires there { part < length spans.now }
    requires within { EndWithin spans.now (length lowering.now.code) }
    requires rows { length lowering.now.code ≡ vec_len rows.old }
    requires before { HasRows (map (λ r. r.items) rows.old.items) (HasCall lowering.now spans.now) part }
    ensures rows { OnOk result (HasRows (map (λ r. r.items) rows.new.items) (HasCall lowering.now spans.now) (part + 1)) }
    ensures count { OnOk result (vec_len rows.new ≡ vec_len rows.old) }
{
    let span = spans[usize::from(part)];
    let code = lowering.code();
    for pc in span.first..span.end {
        if let Instr::Call { .. } = code[usize::from(pc)] {
            add_to_row(rows, usize::from(pc), part)?;
        }
    }
    Ok(())
}
