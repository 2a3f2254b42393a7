//! Whether the steps that a search found are a chain. Each is looked at again here, so nothing of what is explained rests on how
//! the search goes.
ghost use Rattle.std.specs.Prelude.{◌≡◌, ◌<◌, ◌↔◌, ℕ, suc, Some, IfOk, IfSome, OnOk, IsTrue, slice_get};
ghost use Rattle.asl_code.specs.declared.instr.Instr.TheVariants.{New};
ghost use Rattle.asl_lower.specs.Regions.{Inside};
ghost use Rattle.asl_explain.specs.declared.explained_value.Step.{Step as StepValue};
ghost use Rattle.asl_explain.specs.Chains.{Follows, EndsAt, IsChain, IsOn, IsDropped};
ghost use Rattle.asl_explain.specs.Explained.{IsEnding};
ghost use Rattle.asl_explain.specs.Analysed.{read, IsAnalysed, IsMadeAt};
ghost use Rattle.asl_explain.specs.Known.{AreKnown};

use crate::confirm_step::{instr_at, is_access, is_following, is_needed};
use crate::explain_analysis::ExplainAnalysis;
use crate::explained_value::{Ending, Step};
use crate::known::Known;
use crate::links::are_same;
use crate::walk::stays_to;
use asl_backward_flow::Region;
use asl_code::{Base, Instr, Lock};
use asl_lower::Section;
use std::alloc::{AllocError, Global};

/// Whether each step follows from the one before it.
fn all_follow(
    alloc: Global,
    analysis: &ExplainAnalysis,
    known: &mut Known,
    steps: &[Step],
) -> Result<bool, AllocError>
    requires analysed { IsAnalysed analysis.now }
    requires known { AreKnown (read analysis.now) known.old }
    ensures known { OnOk result (AreKnown (read analysis.now) known.new) }
    ensures follow { IfOk result (λ b. IsTrue b → (n : ℕ) (before s : StepValue) → slice_get steps.now n ≡ Some before → slice_get steps.now (suc n) ≡ Some s
        → Follows (read analysis.now) before s) }
{
    for number in 1..steps.len() {
        if !is_following(alloc, analysis, known, &steps[number - 1], &steps[number])? {
            return Ok(false);
        }
    }
    Ok(true)
}

/// Whether the last step is one of the section, and has the lock, which stays as far as this step after an instruction at a pc.
fn ends_at(
    alloc: Global,
    analysis: &ExplainAnalysis,
    known: &mut Known,
    section: u16,
    pc: u16,
    lock: &Lock,
    steps: &[Step],
) -> Result<bool, AllocError>
    requires analysed { IsAnalysed analysis.now }
    requires known { AreKnown (read analysis.now) known.old }
    ensures known { OnOk result (AreKnown (read analysis.now) known.new) }
    ensures ends { IfOk result (λ b. IsTrue b → EndsAt (read analysis.now) (Inside section) (suc pc) lock.now steps.now) }
{
    let (Some(step), Some(start)) = (steps.last(), pc.checked_add(1)) else {
        return Ok(false);
    };
    let region = Region::Section(section);
    if step.region != region || !are_same(&step.lock, lock) {
        return Ok(false);
    }
    stays_to(alloc, analysis, known, region, lock, start, step.pc)
}

/// Whether the steps are a chain from an access to a lock of the section after an instruction at a pc.
pub fn is_chain(
    alloc: Global,
    analysis: &ExplainAnalysis,
    known: &mut Known,
    section: u16,
    pc: u16,
    lock: &Lock,
    steps: &[Step],
) -> Result<bool, AllocError>
    requires analysed { IsAnalysed analysis.now }
    requires known { AreKnown (read analysis.now) known.old }
    ensures known { OnOk result (AreKnown (read analysis.now) known.new) }
    ensures chain { IfOk result (λ b. IsTrue b → IsChain (read analysis.now) (Inside section) (suc pc) lock.now steps.now) }
{
    let Some(first) = steps.first() else {
        return Ok(false);
    };
    if !is_access(alloc, analysis, first)? || !all_follow(alloc, analysis, known, steps)? {
        return Ok(false);
    }
    ends_at(alloc, analysis, known, section, pc, lock, steps)
}

/// Whether the lock begins on the register.
pub fn is_on(register: u8, lock: &Lock) -> bool
    ensures { IsTrue result ↔ IsOn register lock.now }
{
    match lock {
        Lock::Expr(expr, _) => match expr.base {
            Base::Reg(own) => own == register,
            Base::Global(_) => false,
        },
        _ => false,
    }
}

/// The register that the `new` at a pc sets, if there is one.
pub fn made_at(analysis: &ExplainAnalysis, pc: u16) -> Option<u8>
    ensures made { IfSome result (λ to. (cells : ℕ) × (site : ℕ) × (slice_get analysis.now.lowering.code pc ≡ Some (New to cells site))) }
    ensures all { (to cells site : ℕ) → slice_get analysis.now.lowering.code pc ≡ Some (New to cells site) → result ≡ Some to }
{
    match instr_at(analysis, pc)? {
        Instr::New { to, .. } => Some(to),
        _ => None,
    }
}

/// Whether the pc is between the first and the last instruction of a section.
fn is_inside(section: Section, pc: u16) -> bool
    ensures { IsTrue result ↔ ((section.acquire < pc) × (pc < section.release)) }
{
    section.acquire < pc && pc < section.release
}

/// The register that the `new` at a pc sets, if there is one inside the section.
pub fn made_inside(analysis: &ExplainAnalysis, section: Section, pc: u16) -> Option<u8>
    ensures made { IfSome result (IsMadeAt (read analysis.now) section pc) }
    ensures all { (to : ℕ) → IsMadeAt (read analysis.now) section pc to → result ≡ Some to }
{
    if is_inside(section, pc) {
        made_at(analysis, pc)
    } else {
        None
    }
}

/// Whether a `new` of the section of a number stands at the pc, after which the section needs the lock, and whose register the
/// lock begins on.
fn is_dropped(
    analysis: &ExplainAnalysis,
    number: u16,
    section: Section,
    pc: u16,
    lock: &Lock,
) -> bool
    requires analysed { IsAnalysed analysis.now }
    requires there { slice_get analysis.now.lowering.sections number ≡ Some section }
    ensures { IsTrue result → IsDropped (read analysis.now) number pc lock.now }
{
    let Some(to) = made_inside(analysis, section, pc) else {
        return false;
    };
    if !is_on(to, lock) {
        return false;
    }
    is_needed(analysis, Region::Section(number), u32::from(pc) + 1, lock)
}

/// Whether a chain comes to a lock after a `new` of the section of a number, where it ends.
pub fn is_ending(
    alloc: Global,
    analysis: &ExplainAnalysis,
    number: u16,
    section: Section,
    lock: &Lock,
    ending: &Ending,
) -> Result<bool, AllocError>
    requires analysed { IsAnalysed analysis.now }
    requires there { slice_get analysis.now.lowering.sections number ≡ Some section }
    ensures { IfOk result (λ b. IsTrue b → IsEnding (read analysis.now) number lock.now ending.now) }
{
    if !is_dropped(analysis, number, section, ending.pc, lock) {
        return Ok(false);
    }
    let steps = ending.chain.steps.as_slice();
    let mut known = Known::new(alloc);
    is_chain(alloc, analysis, &mut known, number, ending.pc, lock, steps)
}
