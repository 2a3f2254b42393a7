//! The command `map`: from a source to what the numbers in its code stand for, and where the code comes from.
ghost use Rattle.std.specs.Prelude.{IfOk, IfErr};
ghost use Rattle.asl_map.specs.Mapped.{IsMapText};
ghost use Rattle.asl_tool.specs.Command.{IsRefusedMap};

use crate::command_fault::CommandFault;
use asl_map::mapped;
use std::alloc::Global;

/// The map of the source.
pub fn mapped_source(alloc: Global, source: &[u8]) -> Result<Vec<u8>, CommandFault>
    ensures ok { IfOk result (λ text. IsMapText source.now text.items) }
    ensures err { IfErr result (λ fault. IsRefusedMap source.now fault) }
{
    match mapped(alloc, source) {
        Ok(text) => Ok(text.into_bytes()),
        Err(fault) => Err(CommandFault::Map(fault)),
    }
}
