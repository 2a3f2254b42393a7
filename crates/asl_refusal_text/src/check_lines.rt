//! Refusals of lists of one's own, a line each.
ghost use Rattle.std.specs.Prelude.{◌≡◌, ◌+◌, ◌<◌, ◌++◌, IfOk, OnErr, OnOk, length};
ghost use Rattle.asl_refusal_text.specs.FaultText.{check_line, check_lines};

use crate::fault_text::push_check;
use crate::line_text::{Line, push};
use arrayvec::{ArrayVec, CapacityError};
use asl_check::CheckFault;
use std::alloc::{AllocError, Global};

/// Adds the line of a refusal.
fn push_check_line(line: &mut Line, fault: &CheckFault) -> Result<(), CapacityError>
    ensures text { OnOk result (line.new.items ≡ line.old.items ++ check_line fault.now) }
    ensures room { OnErr result (256 < length line.old.items + 247) }
{
    push(line, "asl: ")?;
    push_check(line, fault)?;
    push(line, "\n")
}

/// The line of a refusal, as the program has it on standard error. There is room for each.
fn line_of(fault: &CheckFault) -> Line
    ensures { result.items ≡ check_line fault.now }
{
    let mut line = ArrayVec::new();
    push_check_line(&mut line, fault).unwrap();
    line
}

/// The lines of refusals, one after the other.
///
/// # Errors
///
/// An allocation failed.
pub fn lines_of_checks(alloc: Global, faults: &[CheckFault]) -> Result<Vec<u8>, AllocError>
    ensures { IfOk result (λ lines. lines.items ≡ check_lines faults.now) }
{
    let mut lines = Vec::new(alloc);
    for fault in faults {
        lines.extend_from_slice(line_of(fault).as_slice())?;
    }
    Ok(lines)
}
