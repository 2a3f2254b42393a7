//! The greatest length of paths with which the lists of a source are inferred.
ghost use Rattle.std.specs.Prelude.{◌≤◌, None, IfOk, IfErr, IfSome, MatchBool};
ghost use Rattle.asl_explain.specs.Opened.{IsOpened};
ghost use Rattle.asl_lists.specs.Lengths.{IsLength, IsTooMany, IsRefusedAt};

use asl_emitter::InferFault;
use asl_explain::{ExplainFault, OpenedExplanation, open_explanation};
use std::alloc::Global;

/// The opened explanation of a source, and with which length of paths it is one.
#[derive(Drop)]
pub struct Found {
    pub k: u32,
    pub opened: OpenedExplanation,
}

/// Whether some region needs too many locks.
fn is_too_many(fault: &ExplainFault) -> bool
    ensures { MatchBool result (IsTooMany fault.now) (¬ IsTooMany fault.now) }
{
    match fault {
        ExplainFault::Infer(InferFault::TooManyLocks(_)) => true,
        _ => false,
    }
}

/// The opened explanation with the longest paths with which no region needs too many locks.
fn greatest(alloc: Global, source: &[u8]) -> Result<Found, ExplainFault>
    ensures ok { IfOk result (λ f. IsLength source.now None f.k × IsOpened source.now f.k f.opened) }
    ensures err { IfErr result (IsRefusedAt source.now None) }
{
    let mut k = 8;
    loop {
        match open_explanation(alloc, source, k) {
            Ok(opened) => return Ok(Found { k, opened }),
            Err(fault) => {
                if k == 0 || !is_too_many(&fault) {
                    return Err(fault);
                }
                k -= 1;
            }
        }
    }
}

/// The opened explanation with paths of this length, or else with the longest with which no region needs too many locks.
pub fn explained_at(alloc: Global, source: &[u8], k: Option<u32>) -> Result<Found, ExplainFault>
    requires { IfSome k (λ n. n ≤ 8) }
    ensures ok { IfOk result (λ f. IsLength source.now k f.k × IsOpened source.now f.k f.opened) }
    ensures err { IfErr result (IsRefusedAt source.now k) }
{
    match k {
        None => greatest(alloc, source),
        Some(k) => {
            let opened = open_explanation(alloc, source, k)?;
            Ok(Found { k, opened })
        }
    }
}
