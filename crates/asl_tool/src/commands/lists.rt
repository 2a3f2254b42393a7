//! The command `lists`: from a source to its lists as one JSON document.
ghost use Rattle.std.specs.Prelude.{map, IfOk, IfErr, string_bytes};
ghost use Rattle.asl_lists.specs.Listed.{IsListed};
ghost use Rattle.asl_tool.specs.Command.{IsRefusedListing};

use crate::command_fault::CommandFault;
use asl_command_line::PathLimit;
use asl_explain::ExplainFault;
use asl_lists::{ListsFault, listed};
use std::alloc::Global;

/// The document of the source's lists.
pub fn listed_source(
    alloc: Global,
    k_limit: &Option<PathLimit>,
    entries: &[String],
    source: &[u8],
) -> Result<Vec<u8>, CommandFault>
    ensures ok { IfOk result (λ text. IsListed source.now k_limit.now (map string_bytes entries.now) text.items) }
    ensures err { IfErr result (λ fault. IsRefusedListing source.now k_limit.now (map string_bytes entries.now) fault) }
{
    let limit = match k_limit {
        Some(k_limit) => Some(k_limit.operations()),
        None => None,
    };
    match listed(alloc, source, limit, entries) {
        Ok(text) => Ok(text.into_bytes()),
        Err(ListsFault::Refused(ExplainFault::Source(fault))) => Err(CommandFault::Source(fault)),
        Err(ListsFault::Refused(ExplainFault::Infer(fault))) => Err(CommandFault::Infer(fault)),
        Err(ListsFault::OutOfMemory) => Err(CommandFault::OutOfMemory),
    }
}
