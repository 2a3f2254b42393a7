//! What a source and a program have where their code differs.
ghost use Rattle.std.specs.Prelude.{◌≡◌, ◌+◌, ◌<◌, ◌≤◌, ◌++◌, length, OnOk, OnErr};
ghost use Rattle.asl_refusal_text.specs.FaultText.{function_text, marked_text, source_alone_text, program_alone_text, both_text, difference_text, other_code_text};

use crate::instr_text::push_instr;
use crate::line_text::{Line, push, push_number, push_numbered};
use arrayvec::CapacityError;
use asl_check::CodeDifference;
use asl_code::Instr;

/// Adds which function it is.
fn push_function(line: &mut Line, function: usize) -> Result<(), CapacityError>
    ensures text { OnOk result (line.new.items ≡ line.old.items ++ function_text function) }
    ensures adds { length line.new.items ≤ length line.old.items + 31 }
    ensures room { OnErr result (256 < length line.old.items + 31) }
{
    push(line, ": function ")?;
    push_number(line, function)
}

/// Adds an instruction between its marks.
fn push_marked(line: &mut Line, instr: Instr) -> Result<(), CapacityError>
    ensures text { OnOk result (line.new.items ≡ line.old.items ++ marked_text instr) }
    ensures adds { length line.new.items ≤ length line.old.items + 27 }
    ensures room { OnErr result (256 < length line.old.items + 27) }
{
    push(line, "`")?;
    push_instr(line, instr)?;
    push(line, "`")
}

/// Adds what a source has where a program has no instruction.
fn push_source_alone(line: &mut Line, function: usize, own: Instr) -> Result<(), CapacityError>
    ensures text { OnOk result (line.new.items ≡ line.old.items ++ source_alone_text function own) }
    ensures adds { length line.new.items ≤ length line.old.items + 119 }
    ensures room { OnErr result (256 < length line.old.items + 119) }
{
    push_function(line, function)?;
    push(line, " of the source has ")?;
    push_marked(line, own)?;
    push(line, " there, and the program has none")
}

/// Adds what a program has where the source has no instruction.
fn push_program_alone(line: &mut Line, function: usize, there: Instr) -> Result<(), CapacityError>
    ensures text { OnOk result (line.new.items ≡ line.old.items ++ program_alone_text function there) }
    ensures adds { length line.new.items ≤ length line.old.items + 119 }
    ensures room { OnErr result (256 < length line.old.items + 119) }
{
    push_function(line, function)?;
    push(line, " of the program has ")?;
    push_marked(line, there)?;
    push(line, " there, and the source has none")
}

/// Adds what a source and a program have at the same place.
fn push_both(
    line: &mut Line,
    function: usize,
    own: Instr,
    there: Instr,
) -> Result<(), CapacityError>
    ensures text { OnOk result (line.new.items ≡ line.old.items ++ both_text function own there) }
    ensures adds { length line.new.items ≤ length line.old.items + 132 }
    ensures room { OnErr result (256 < length line.old.items + 132) }
{
    push_function(line, function)?;
    push(line, " of the source has ")?;
    push_marked(line, own)?;
    push(line, " there, and the program has ")?;
    push_marked(line, there)
}

/// Adds what a source and a program have where they differ.
fn push_difference(line: &mut Line, difference: &CodeDifference) -> Result<(), CapacityError>
    ensures text { OnOk result (line.new.items ≡ line.old.items ++ difference_text difference.now.function difference.now.source difference.now.program) }
    ensures adds { length line.new.items ≤ length line.old.items + 132 }
    ensures room { OnErr result (256 < length line.old.items + 132) }
{
    match (difference.source, difference.program) {
        (Some(own), Some(there)) => push_both(line, difference.function, own, there),
        (Some(own), None) => push_source_alone(line, difference.function, own),
        (None, Some(there)) => push_program_alone(line, difference.function, there),
        (None, None) => push(
            line,
            ": the code is the source's, and the version or a table is not",
        ),
    }
}

/// Adds that the code of a program is another's, and where.
pub fn push_other_code(line: &mut Line, difference: &CodeDifference) -> Result<(), CapacityError>
    ensures text { OnOk result (line.new.items ≡ line.old.items ++ other_code_text difference.now) }
    ensures adds { length line.new.items ≤ length line.old.items + 163 }
    ensures room { OnErr result (256 < length line.old.items + 163) }
{
    push_numbered(line, "OtherCode", difference.pc)?;
    push_difference(line, difference)
}
