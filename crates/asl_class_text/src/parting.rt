//! Which instruction parts two members: without it they would not share a class.
ghost use Rattle.std.specs.Prelude.{◌≡◌, IfOk, IfSome};
ghost use Rattle.asl_class_text.specs.Classes.{IsParting};

use crate::facts::Facts;
use crate::told::ToldStep;
use asl_class_reasons::{Cause, parts};
use asl_code::Instr;
use std::alloc::{AllocError, Global};

/// So many instructions are tried for a class.
const MOST_TRIED: u32 = 16;

/// All trials together go through at most so many instructions; each goes through the code once.
const MOST_GONE_THROUGH: u32 = 16_777_216;

/// In which order instructions are tried.
#[derive(Clone, Copy, PartialEq, Eq)]
enum Turn {
    /// The calls.
    Calls,
    /// Copies, loads and stores.
    Others,
    /// What sets the address of a global.
    Addresses,
    /// A `new`, without which there is no such member.
    Never,
}

/// When an instruction is tried.
fn turn_of(facts: &Facts<'_>, pc: u16) -> Turn {
    match facts.lowering.code().get(usize::from(pc)) {
        Some(Instr::Call { .. }) => Turn::Calls,
        Some(Instr::GlobalAddress { .. }) => Turn::Addresses,
        Some(Instr::New { .. }) => Turn::Never,
        _ => Turn::Others,
    }
}

/// Adds the instructions of a chain that are tried in a turn, each once.
fn push_turn(
    facts: &Facts<'_>,
    chain: &[ToldStep],
    turn: Turn,
    tried: &mut Vec<u16>,
) -> Result<(), AllocError> {
    for told in chain {
        if let Cause::Instruction(pc) = told.step.cause {
            if turn_of(facts, pc) == turn && !tried.contains(&pc) {
                tried.push(pc)?;
            }
        }
    }
    Ok(())
}

/// The instructions of a chain that are tried, in their order.
fn candidates(
    alloc: Global,
    facts: &Facts<'_>,
    chain: &[ToldStep],
) -> Result<Vec<u16>, AllocError> {
    let mut tried = Vec::new(alloc);
    push_turn(facts, chain, Turn::Calls, &mut tried)?;
    push_turn(facts, chain, Turn::Others, &mut tried)?;
    push_turn(facts, chain, Turn::Addresses, &mut tried)?;
    Ok(tried)
}

/// How many instructions are tried for all classes.
pub(crate) fn all_trials(facts: &Facts<'_>) -> u32 {
    let count = u32::try_from(facts.lowering.code().len()).unwrap_or(u32::MAX);
    MOST_GONE_THROUGH / count.max(1)
}

/// How many instructions are tried for a class, where so many trials are left.
pub(crate) fn class_trials(left: u32) -> u32 {
    left.min(MOST_TRIED)
}

/// An instruction of a chain without which the two members would be two, if one is found in so many trials, of which those that were
/// made are taken away.
pub(crate) fn parting(
    alloc: Global,
    facts: &Facts<'_>,
    trials: &mut u32,
    first: u32,
    second: u32,
    chain: &[ToldStep],
) -> Result<Option<u16>, AllocError>
    ensures { IfOk result (λ o. IfSome o (λ pc. IsParting facts.now.lowering pc first second)) }
{
    let tried = candidates(alloc, facts, chain)?;
    for pc in &tried {
        if *trials == 0 {
            return Ok(None);
        }
        *trials -= 1;
        if parts(alloc, &facts.lowering, *pc, first, second)? {
            return Ok(Some(*pc));
        }
    }
    Ok(None)
}
