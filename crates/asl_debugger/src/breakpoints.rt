//! Breakpoints: places of the code.
ghost use Rattle.std.specs.Prelude.{◌≡◌, ◌==◌, ◌≤◌, filter, not, IsOk, IsTrue, OnErr, OnOk};
ghost use Rattle.asl_debugger.specs.Breaks.{has_break, HasBreak, HasNoBreak};

use asl_journal::Memory;
use std::alloc::AllocError;

/// Code has places below this number alone.
const PLACES: u32 = 65_536;

/// Whether the place is among the breakpoints.
pub fn has_break(breakpoints: &[u32], pc: u32) -> bool
    ensures { result ≡ has_break breakpoints.now pc }
{
    breakpoints.contains(&pc)
}

/// Puts the place among the breakpoints, if code may have it.
pub fn put_break<M: Memory>(
    memory: M,
    breakpoints: &mut Vec<u32>,
    pc: u32,
) -> Result<(), AllocError>
    ensures has { OnOk result (HasBreak breakpoints.old.items breakpoints.new.items pc) }
    ensures again { IsTrue (has_break breakpoints.old.items pc)
        → IsOk result × (breakpoints.new.items ≡ breakpoints.old.items) }
    ensures never { 65536 ≤ pc → IsOk result × (breakpoints.new.items ≡ breakpoints.old.items) }
    ensures growth { OnErr result (M.refused memory) }
    ensures err { OnErr result (breakpoints.new.items ≡ breakpoints.old.items) }
{
    if pc < PLACES && !has_break(breakpoints.as_slice(), pc) {
        memory.reserve(breakpoints, 1)?;
        breakpoints.push_reserved(pc);
    }
    Ok(())
}

/// Takes the place from the breakpoints.
pub fn clear_break(breakpoints: &mut Vec<u32>, pc: u32)
    ensures rest { breakpoints.new.items ≡ filter (λ place. not (place == pc)) breakpoints.old.items }
    ensures has { HasNoBreak breakpoints.old.items breakpoints.new.items pc }
{
    breakpoints.retain(|place| *place != pc);
}
