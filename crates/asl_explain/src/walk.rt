//! Whether a lock stays as it is on a way from one pc of a region to another.
ghost use Rattle.std.specs.Prelude.{◌≡◌, ◌<◌, ◌≤◌, ◌⊎◌, ℕ, suc, List, Some, IfOk, IfSome, OnOk, IsTrue, length, slice_get};
ghost use Rattle.asl_code.specs.declared.instr.Instr.{Instr as AnyInstr};
ghost use Rattle.asl_code.specs.declared.instr.Instr.TheVariants.{Release};
ghost use Rattle.asl_code.specs.declared.lock.Lock.{Lock as AnyLock};
ghost use Rattle.asl_lower.specs.Lowered.{Lowered};
ghost use Rattle.asl_lower.specs.OpenSections.{FlowsTo};
ghost use Rattle.asl_lock_expr.specs.Links.{LinkContext as Context, IsOne, link, view};
ghost use Rattle.asl_lock_expr.specs.LinksView.{seen};
ghost use Rattle.asl_lock_expr.specs.Stores.{stores};
ghost use Rattle.asl_backward_flow.specs.Needed.{region_of};
ghost use Rattle.asl_explain.specs.Chains.{Needs, Stays};
ghost use Rattle.asl_explain.specs.Analysed.{read, AreEach, AreFrom, IsAnalysed, IsSettledIn, IsSpan, IsStop};
ghost use Rattle.asl_explain.specs.Known.{AreKnown};

use crate::confirm::is_on;
use crate::confirm_step::{instr_at, is_needed};
use crate::explain_analysis::ExplainAnalysis;
use crate::known::Known;
use crate::links::{copied, is_kept};
use crate::stretch::{Stretch, known_as_far};
use asl_backward_flow::Region;
use asl_code::{Function, Instr, Lock};
use asl_lock_expr::{LinkContext, Touch, set_by, stays, stored_by};
use asl_lower::Section;
use std::alloc::{AllocError, Global};
use std::collections::HashSet;

/// The pcs of a region, and its function: from the first pc up to the end, which is none of them.
#[derive(Clone, Copy)]
pub struct Span {
    pub region: Region,
    pub function: u16,
    pub first: u16,
    pub end: u16,
}

/// The entry of a function.
fn entry_of(analysis: &ExplainAnalysis, function: u16) -> Option<Function>
    ensures { result ≡ slice_get analysis.now.lowering.functions function }
{
    analysis
        .lowering
        .functions()
        .get(usize::from(function))
        .copied()
}

/// The section of a number.
fn section_of(analysis: &ExplainAnalysis, number: u16) -> Option<Section>
    ensures { result ≡ slice_get analysis.now.lowering.sections number }
{
    analysis
        .lowering
        .sections()
        .get(usize::from(number))
        .copied()
}

/// The pcs of a region that needs some lock.
fn span_of(analysis: &ExplainAnalysis, region: Region) -> Option<Span>
    ensures region { IfSome result (λ s. s.region ≡ region) }
    ensures pcs { IfSome result (λ s. (pc : ℕ) (lock : AnyLock) → Needs (read analysis.now) (region_of region) pc lock → IsSpan analysis.now.lowering s) }
{
    match region {
        Region::Body(function) => {
            let entry = entry_of(analysis, function)?;
            let first = analysis.lowering.start(function);
            let end = u32::from(first).saturating_add(entry.len).min(65_535);
            Some(Span {
                region,
                function,
                first,
                end: end as u16,
            })
        }
        Region::Section(number) => {
            let section = section_of(analysis, number)?;
            Some(Span {
                region,
                function: section.function,
                first: section.acquire.checked_add(1)?,
                end: section.release,
            })
        }
    }
}

/// Whether the instruction goes on to the next, stores nothing, and sets a register other than that on which the lock begins.
fn passes(instr: Instr, lock: &Lock) -> bool
    ensures next { IsTrue result → (pc : ℕ) → FlowsTo instr pc (suc pc) }
    ensures same { IsTrue result → (v : Context) → link v instr lock.now ≡ link v Release lock.now }
{
    if !stored_by(instr).is(Touch::Nothing) {
        return false;
    }
    match set_by(instr) {
        Touch::Register(register) => !is_on(register, lock),
        _ => false,
    }
}

/// Whether the instruction may go on elsewhere than to the next.
fn is_turn(instr: Instr) -> bool
    ensures { (pc : ℕ) → IsTrue result ⊎ FlowsTo instr pc (suc pc) }
{
    match instr {
        Instr::Jump { .. } | Instr::JumpIfZero { .. } | Instr::Return { .. } => true,
        _ => false,
    }
}

/// Whether the instruction leaves the lock as it is, perhaps besides others that it becomes, and goes on to the next.
fn is_passed(
    alloc: Global,
    view: &LinkContext,
    instr: Instr,
    lock: &Lock,
) -> Result<bool, AllocError>
    requires short { view.now.k_limit ≤ 8 }
    requires settled { IsSettledIn (seen view.now) lock.now }
    ensures next { IfOk result (λ b. IsTrue b → (pc : ℕ) → FlowsTo instr pc (suc pc)) }
    ensures kept { IfOk result (λ b. IsTrue b → IsOne (link (seen view.now) instr lock.now) lock.now) }
{
    if passes(instr, lock) {
        return Ok(true);
    }
    if is_turn(instr) {
        return Ok(false);
    }
    is_kept(alloc, view, &instr, lock)
}

/// The first pc from one on that is `to`, or at which the lock does not simply stay, if there is one before the region's end.
fn next_stop(
    alloc: Global,
    analysis: &ExplainAnalysis,
    span: Span,
    lock: &Lock,
    from: u16,
    to: u16,
) -> Result<Option<u16>, AllocError>
    requires analysed { IsAnalysed analysis.now }
    requires span { IsSpan analysis.now.lowering span }
    requires settled { IsSettledIn (view analysis.now.classes (stores analysis.now.writes) analysis.now.k_limit span.function) lock.now }
    ensures { IfOk result (λ found. IfSome found (IsStop (read analysis.now) span lock.now from)) }
{
    if from < span.first {
        return Ok(None);
    }
    let view = analysis.view(span.function);
    for pc in from..span.end {
        if pc == to {
            return Ok(Some(pc));
        }
        let Some(instr) = instr_at(analysis, pc) else {
            return Ok(None);
        };
        if !is_passed(alloc, &view, instr, lock)? {
            return Ok(Some(pc));
        }
    }
    Ok(None)
}

/// Puts a pc among those that wait, unless it has waited before.
fn add_next(next: u16, seen: &mut HashSet<u16>, waiting: &mut Vec<u16>) -> Result<(), AllocError>
    ensures { OnOk result ((l : Lowered) (pc : ℕ) (old : List ℕ) → ((i : AnyInstr) → slice_get l.code pc ≡ Some i → FlowsTo i pc next)
        → AreFrom l pc old waiting.old.items → AreFrom l pc old waiting.new.items) }
{
    if !seen.insert(next)? {
        return Ok(());
    }
    waiting.push(next)?;
    Ok(())
}

/// Puts where control continues from a pc among the pcs that wait, but for those that have waited before. The last is looked at first:
/// where a jump leads as far as `to` or less, that is its target, so that what it passes over is looked at only where no other way is.
fn add_successors(
    analysis: &ExplainAnalysis,
    pc: u16,
    to: u16,
    seen: &mut HashSet<u16>,
    waiting: &mut Vec<u16>,
) -> Result<(), AllocError>
    requires { pc < length analysis.now.lowering.code }
    ensures { OnOk result (AreFrom analysis.now.lowering pc waiting.old.items waiting.new.items) }
{
    let successors = analysis.lowering.successors(pc);
    let nexts = successors.as_slice();
    let (Some(first), Some(last)) = (nexts.first(), nexts.last()) else {
        return Ok(());
    };
    if *first <= to {
        add_next(*last, seen, waiting)?;
        add_next(*first, seen, waiting)?;
        return Ok(());
    }
    add_next(*first, seen, waiting)?;
    add_next(*last, seen, waiting)?;
    Ok(())
}

/// Goes on from a pc at which the lock did not simply stay: where control continues waits, if the lock is kept.
fn go_on(
    alloc: Global,
    analysis: &ExplainAnalysis,
    span: Span,
    lock: &Lock,
    pc: u16,
    to: u16,
    seen: &mut HashSet<u16>,
    waiting: &mut Vec<u16>,
) -> Result<(), AllocError>
    requires { IsAnalysed analysis.now }
    ensures { OnOk result ((from : ℕ) → IsStop (read analysis.now) span lock.now from pc
        → AreEach (Stays (read analysis.now) (region_of span.region) lock.now from) waiting.old.items
        → AreEach (Stays (read analysis.now) (region_of span.region) lock.now from) waiting.new.items) }
{
    let Some(instr) = instr_at(analysis, pc) else {
        return Ok(());
    };
    if is_kept(alloc, &analysis.view(span.function), &instr, lock)? {
        add_successors(analysis, pc, to, seen, waiting)?;
    }
    Ok(())
}

/// Whether the lock stays as it is on a way within the region from one pc to another.
fn is_reached(
    alloc: Global,
    analysis: &ExplainAnalysis,
    span: Span,
    lock: &Lock,
    from: u16,
    to: u16,
) -> Result<bool, AllocError>
    requires analysed { IsAnalysed analysis.now }
    requires span { IsSpan analysis.now.lowering span }
    requires settled { IsSettledIn (view analysis.now.classes (stores analysis.now.writes) analysis.now.k_limit span.function) lock.now }
    ensures { IfOk result (λ b. IsTrue b → Stays (read analysis.now) (region_of span.region) lock.now from to) }
{
    let mut seen = HashSet::new(alloc);
    let mut waiting = Vec::new(alloc);
    let mut pc = from;
    // (counted, since it is proved that each function returns; no run comes to the end)
    for _ in 0..u64::MAX {
        if let Some(stop) = next_stop(alloc, analysis, span, lock, pc, to)? {
            if stop == to {
                return Ok(true);
            }
            go_on(
                alloc,
                analysis,
                span,
                lock,
                stop,
                to,
                &mut seen,
                &mut waiting,
            )?;
        }
        match waiting.pop() {
            Some(next) => pc = next,
            None => return Ok(false),
        }
    }
    Ok(false)
}

/// Whether the lock stays as it is on a way within the region from one pc to another, where it is known as far as a third.
fn is_reached_past(
    alloc: Global,
    analysis: &ExplainAnalysis,
    span: Span,
    lock: &Lock,
    from: u16,
    known: u16,
    to: u16,
) -> Result<bool, AllocError>
    requires analysed { IsAnalysed analysis.now }
    requires span { IsSpan analysis.now.lowering span }
    requires settled { IsSettledIn (view analysis.now.classes (stores analysis.now.writes) analysis.now.k_limit span.function) lock.now }
    requires known { Stays (read analysis.now) (region_of span.region) lock.now from known }
    ensures { IfOk result (λ b. IsTrue b → Stays (read analysis.now) (region_of span.region) lock.now from to) }
{
    if is_reached(alloc, analysis, span, lock, known, to)? {
        return Ok(true);
    }
    if known == from {
        return Ok(false);
    }
    is_reached(alloc, analysis, span, lock, from, to)
}

/// Whether the region needs the lock at a pc, from where it stays as it is on some way to another pc. What is found is kept, so
/// that statements one after the other that need the same lock are not walked to from the beginning each time.
pub(crate) fn stays_to(
    alloc: Global,
    analysis: &ExplainAnalysis,
    known: &mut Known,
    region: Region,
    lock: &Lock,
    from: u16,
    to: u16,
) -> Result<bool, AllocError>
    requires analysed { IsAnalysed analysis.now }
    requires known { AreKnown (read analysis.now) known.old }
    ensures known { OnOk result (AreKnown (read analysis.now) known.new) }
    ensures needed { IfOk result (λ b. IsTrue b → Needs (read analysis.now) (region_of region) from lock.now) }
    ensures stays { IfOk result (λ b. IsTrue b → Stays (read analysis.now) (region_of region) lock.now from to) }
{
    if !is_needed(analysis, region, u32::from(from), lock) {
        return Ok(false);
    }
    if from == to {
        return Ok(true);
    }
    if known.has_way(region, lock, from, to) {
        return Ok(true);
    }
    let Some(span) = span_of(analysis, region) else {
        return Ok(false);
    };
    if !stays(&analysis.view(span.function), &Instr::Release, lock) {
        return Ok(false);
    }
    let far = known_as_far(&known.recent, region, lock, from, to);
    if !is_reached_past(alloc, analysis, span, lock, from, far, to)? {
        return Ok(false);
    }
    let lock = copied(lock)?;
    known.keep_way(Stretch {
        region,
        lock,
        from,
        to,
    })?;
    Ok(true)
}
