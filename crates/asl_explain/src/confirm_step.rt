//! Whether a step of a chain follows from the one before it, looked at again without the search.
ghost use Rattle.std.specs.Prelude.{◌≡◌, ◌<◌, ℕ, Some, IfOk, IfSome, OnOk, IsTrue, length, slice_get};
ghost use Rattle.asl_code.specs.declared.image.Function.{Function};
ghost use Rattle.asl_code.specs.declared.instr.Instr.{Instr};
ghost use Rattle.asl_lower.specs.OpenSections.{FlowsTo, start_of};
ghost use Rattle.asl_lower.specs.Regions.{Body, IsIn};
ghost use Rattle.asl_backward_flow.specs.Needed.{region_of};
ghost use Rattle.asl_explain.specs.Chains.{Needs, Stays, StandsAt, IsAccess, IsLink, IsEntry, IsFront, Follows};
ghost use Rattle.asl_explain.specs.Analysed.{read, IsAnalysed};
ghost use Rattle.asl_explain.specs.Known.{AreKnown};

use crate::explain_analysis::ExplainAnalysis;
use crate::explained_value::{Step, Why};
use crate::known::Known;
use crate::links::{are_same, is_accessed, is_dereferenced, is_entered, is_link};
use crate::walk::stays_to;
use asl_backward_flow::Region;
use asl_code::{Instr, Lock};
use asl_lower::Section;
use std::alloc::{AllocError, Global};

/// Whether the region needs the lock at the pc.
pub(crate) fn is_needed(analysis: &ExplainAnalysis, region: Region, pc: u32, lock: &Lock) -> bool
    requires { IsAnalysed analysis.now }
    ensures { IsTrue result → Needs (read analysis.now) (region_of region) pc lock.now }
{
    let flow = &analysis.flow;
    let Some(place) = flow.place(region) else {
        return false;
    };
    let Some(number) = flow.number(place, lock) else {
        return false;
    };
    match flow.locks(place).get(number) {
        Some(own) => are_same(own, lock) && flow.needs(place, pc, number),
        None => false,
    }
}

/// The function of a region, if the region is there.
fn function_of(analysis: &ExplainAnalysis, region: Region) -> Option<u16>
    ensures { (function pc : ℕ) → IsIn analysis.now.lowering (region_of region) function pc → result ≡ Some function }
{
    match region {
        Region::Body(function) => Some(function),
        Region::Section(number) => {
            let section = analysis.lowering.sections().get(usize::from(number))?;
            Some(section.function)
        }
    }
}

/// The instruction at a pc.
pub(crate) fn instr_at(analysis: &ExplainAnalysis, pc: u16) -> Option<Instr>
    ensures { result ≡ slice_get analysis.now.lowering.code pc }
{
    analysis.lowering.code().get(usize::from(pc)).copied()
}

/// An instruction of a function.
#[derive(Clone, Copy)]
struct Here {
    function: u16,
    instr: Instr,
}

/// The instruction of a step, if the step's region needs the step's lock there.
fn find_here(analysis: &ExplainAnalysis, step: &Step) -> Option<Here>
    requires { IsAnalysed analysis.now }
    ensures { IfSome result (λ h. StandsAt (read analysis.now) (region_of step.now.region) step.now.pc h.function h.instr) }
{
    if !is_needed(analysis, step.region, u32::from(step.pc), &step.lock) {
        return None;
    }
    let instr = instr_at(analysis, step.pc)?;
    let function = function_of(analysis, step.region)?;
    Some(Here { function, instr })
}

/// Whether the region needs the lock at a pc at which control continues from another, and from there it stays as far as a third.
fn stays_after(
    alloc: Global,
    analysis: &ExplainAnalysis,
    known: &mut Known,
    region: Region,
    pc: u16,
    lock: &Lock,
    to: u16,
) -> Result<bool, AllocError>
    requires analysed { IsAnalysed analysis.now }
    requires there { pc < length analysis.now.lowering.code }
    requires known { AreKnown (read analysis.now) known.old }
    ensures known { OnOk result (AreKnown (read analysis.now) known.new) }
    ensures stays { IfOk result (λ b. IsTrue b → (i : Instr) → slice_get analysis.now.lowering.code pc ≡ Some i
        → (next : ℕ) × FlowsTo i pc next × Needs (read analysis.now) (region_of region) next lock.now
        × Stays (read analysis.now) (region_of region) lock.now next to) }
{
    let successors = analysis.lowering.successors(pc);
    for next in successors.as_slice() {
        if stays_to(alloc, analysis, known, region, lock, *next, to)? {
            return Ok(true);
        }
    }
    Ok(false)
}

/// Whether the step's instruction is a load or a store that needs the step's lock itself, and the step names this reason.
pub(crate) fn is_access(
    alloc: Global,
    analysis: &ExplainAnalysis,
    step: &Step,
) -> Result<bool, AllocError>
    requires { IsAnalysed analysis.now }
    ensures { IfOk result (λ b. IsTrue b → IsAccess (read analysis.now) step.now) }
{
    if step.why != Why::Accessed {
        return Ok(false);
    }
    let Some(here) = find_here(analysis, step) else {
        return Ok(false);
    };
    is_accessed(
        alloc,
        &analysis.view(here.function),
        &here.instr,
        &step.lock,
    )
}

/// Whether the lock of the step before, needed after the step's instruction, becomes the step's before it.
fn is_linked(
    alloc: Global,
    analysis: &ExplainAnalysis,
    known: &mut Known,
    before: &Step,
    step: &Step,
) -> Result<bool, AllocError>
    requires analysed { IsAnalysed analysis.now }
    requires known { AreKnown (read analysis.now) known.old }
    ensures known { OnOk result (AreKnown (read analysis.now) known.new) }
    ensures step { IfOk result (λ b. IsTrue b → IsLink (read analysis.now) before.now step.now) }
{
    if step.region != before.region {
        return Ok(false);
    }
    let Some(here) = find_here(analysis, step) else {
        return Ok(false);
    };
    if !stays_after(
        alloc,
        analysis,
        known,
        step.region,
        step.pc,
        &before.lock,
        before.pc,
    )? {
        return Ok(false);
    }
    let view = analysis.view(here.function);
    is_link(alloc, &view, &here.instr, &before.lock, &step.lock)
}

/// Whether the lock of the step before, needed at the entry of a callee, becomes the step's at its call.
fn is_entry(
    alloc: Global,
    analysis: &ExplainAnalysis,
    known: &mut Known,
    before: &Step,
    step: &Step,
) -> Result<bool, AllocError>
    requires analysed { IsAnalysed analysis.now }
    requires known { AreKnown (read analysis.now) known.old }
    ensures known { OnOk result (AreKnown (read analysis.now) known.new) }
    ensures step { IfOk result (λ b. IsTrue b → IsEntry (read analysis.now) before.now step.now) }
{
    let Some(here) = find_here(analysis, step) else {
        return Ok(false);
    };
    let Instr::Call {
        first,
        function,
        ..
    } = here.instr
    else {
        return Ok(false);
    };
    if before.region != Region::Body(function) {
        return Ok(false);
    }
    let Some(params) = needed_params(alloc, analysis, known, function, before)? else {
        return Ok(false);
    };
    let view = analysis.view(here.function);
    is_entered(alloc, &view, first, params, &before.lock, &step.lock)
}

/// How many parameters a function has, if its body needs the step's lock at its entry, from where it stays as far as the step.
fn needed_params(
    alloc: Global,
    analysis: &ExplainAnalysis,
    known: &mut Known,
    function: u16,
    step: &Step,
) -> Result<Option<u8>, AllocError>
    requires analysed { IsAnalysed analysis.now }
    requires known { AreKnown (read analysis.now) known.old }
    ensures known { OnOk result (AreKnown (read analysis.now) known.new) }
    ensures params { IfOk result (λ found. IfSome found (λ params. (e : Function) × (slice_get analysis.now.lowering.functions function ≡ Some e) × (e.params ≡ params)
        × Needs (read analysis.now) (Body function) (start_of analysis.now.lowering.functions function) step.now.lock
        × Stays (read analysis.now) (Body function) step.now.lock (start_of analysis.now.lowering.functions function) step.now.pc)) }
{
    let Some(callee) = analysis.lowering.functions().get(usize::from(function)) else {
        return Ok(None);
    };
    let start = analysis.lowering.start(function);
    let region = Region::Body(function);
    if stays_to(alloc, analysis, known, region, &step.lock, start, step.pc)? {
        Ok(Some(callee.params))
    } else {
        Ok(None)
    }
}

/// Whether the lock of the step before, needed at the step's pc, reads the cell of the step's when it is evaluated.
fn is_front(
    alloc: Global,
    analysis: &ExplainAnalysis,
    known: &mut Known,
    before: &Step,
    step: &Step,
) -> Result<bool, AllocError>
    requires analysed { IsAnalysed analysis.now }
    requires known { AreKnown (read analysis.now) known.old }
    ensures known { OnOk result (AreKnown (read analysis.now) known.new) }
    ensures step { IfOk result (λ b. IsTrue b → IsFront (read analysis.now) before.now step.now) }
{
    if step.region != before.region {
        return Ok(false);
    }
    if !stays_to(
        alloc,
        analysis,
        known,
        step.region,
        &before.lock,
        step.pc,
        before.pc,
    )? {
        return Ok(false);
    }
    is_dereferenced(alloc, &before.lock, &step.lock)
}

/// Whether the step follows from the one before it. What is found in bodies is kept, since many sections call one.
pub(crate) fn is_following(
    alloc: Global,
    analysis: &ExplainAnalysis,
    known: &mut Known,
    before: &Step,
    step: &Step,
) -> Result<bool, AllocError>
    requires analysed { IsAnalysed analysis.now }
    requires known { AreKnown (read analysis.now) known.old }
    ensures known { OnOk result (AreKnown (read analysis.now) known.new) }
    ensures follows { IfOk result (λ b. IsTrue b → Follows (read analysis.now) before.now step.now) }
{
    if known.has_pair(before, step) {
        return Ok(true);
    }
    if !follows(alloc, analysis, known, before, step)? {
        return Ok(false);
    }
    known.keep_pair(before, step)?;
    Ok(true)
}

/// Whether the step follows from the one before it, where that is not known.
fn follows(
    alloc: Global,
    analysis: &ExplainAnalysis,
    known: &mut Known,
    before: &Step,
    step: &Step,
) -> Result<bool, AllocError>
    requires analysed { IsAnalysed analysis.now }
    requires known { AreKnown (read analysis.now) known.old }
    ensures known { OnOk result (AreKnown (read analysis.now) known.new) }
    ensures follows { IfOk result (λ b. IsTrue b → Follows (read analysis.now) before.now step.now) }
{
    match step.why {
        Why::Accessed => Ok(false),
        Why::Linked => is_linked(alloc, analysis, known, before, step),
        Why::Entered => is_entry(alloc, analysis, known, before, step),
        Why::Dereferenced => is_front(alloc, analysis, known, before, step),
    }
}
