//! The program of a source, with the longest paths with which it is accepted.
ghost use Rattle.std.specs.Prelude.{◌≤◌, None, IfOk, IfErr, IfSome, MatchBool};
ghost use Rattle.asl_tool.specs.C.{IsProgramAt, IsRefusedAt, IsTooMany};

use crate::command_fault::CommandFault;
use crate::commands::compile::program_of;
use asl_code::Program;
use asl_emitter::InferFault;
use std::alloc::Global;

/// Whether some region needs too many locks.
fn is_too_many(fault: &CommandFault) -> bool
    ensures { MatchBool result (IsTooMany fault.now) (¬ IsTooMany fault.now) }
{
    match fault {
        CommandFault::Infer(InferFault::TooManyLocks(_)) => true,
        _ => false,
    }
}

/// The program with the longest paths with which no region needs too many locks.
fn greatest(alloc: Global, source: &[u8]) -> Result<Program, CommandFault>
    ensures ok { IfOk result (λ program. IsProgramAt source.now None program) }
    ensures err { IfErr result (λ fault. IsRefusedAt source.now None fault) }
{
    let mut k = 8;
    loop {
        match program_of(alloc, k, source) {
            Ok(program) => return Ok(program),
            Err(fault) => {
                if k == 0 || !is_too_many(&fault) {
                    return Err(fault);
                }
                k -= 1;
            }
        }
    }
}

/// The program with paths of this length, or else with the longest with which no region needs too many locks.
pub fn program_at(alloc: Global, k: Option<u32>, source: &[u8]) -> Result<Program, CommandFault>
    requires { IfSome k (λ n. n ≤ 8) }
    ensures ok { IfOk result (λ program. IsProgramAt source.now k program) }
    ensures err { IfErr result (λ fault. IsRefusedAt source.now k fault) }
{
    match k {
        None => greatest(alloc, source),
        Some(k) => program_of(alloc, k, source),
    }
}
