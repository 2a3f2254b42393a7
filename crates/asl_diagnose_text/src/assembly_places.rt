//! The place of a fault of an assembly text.

ghost use Rattle.std.specs.Prelude.{◌≡◌, ◌+◌, ◌<◌, ◌≤◌, length};
ghost use Rattle.asl_assembler.specs.declared.assembly.AsmFault.TheVariants as asm;
ghost use Rattle.asl_assembler.specs.Faults.{IsFault};
ghost use Rattle.asl_assembler.specs.Text.{IsBadLine};
ghost use Rattle.asl_assembler.specs.Words.{lines_of};
ghost use Rattle.asl_diagnose_text.specs.Position.{IsLineFront};
ghost use Rattle.asl_diagnose_text.specs.AssemblyPlaces.{IsAssemblyPlace, IsInstructionPlace, IsLinePlace, IsRulePlace};

use crate::fault_row::{breaking_row, fault_row};
use crate::listing::instruction_row;
use crate::text_lines::{front, line_begin};
use asl_assembler::AsmFault;
use asl_code::VerifyFault;

/// The place of a fault.
pub fn assembly_place(text: &[u8], fault: AsmFault) -> usize
    requires { IsFault text.now fault }
    ensures { IsAssemblyPlace text.now fault result }
{
    match fault {
        AsmFault::Line(number) => wrong_place(text, number),
        AsmFault::Verify(cause) => verify_place(text, cause),
        AsmFault::OutOfMemory => text.len(),
    }
}

/// The first word of a wrong line, or the end of a text that ends too early.
fn wrong_place(text: &[u8], number: usize) -> usize
    requires { IsBadLine (lines_of text.now) number }
    ensures { IsLinePlace text.now number result }
{
    match line_begin(text, number) {
        Some(start) => front(text, start),
        None => text.len(),
    }
}

/// The place of a rule that the image breaks.
fn verify_place(text: &[u8], cause: VerifyFault) -> usize
    ensures { IsAssemblyPlace text.now (AsmFault.Verify cause) result }
{
    match cause {
        VerifyFault::Target(pc)
        | VerifyFault::Register(pc)
        | VerifyFault::Operand(pc)
        | VerifyFault::ListBase(pc) => instruction_place(text, pc as usize),
        VerifyFault::Limit
        | VerifyFault::Table
        | VerifyFault::NoEntry
        | VerifyFault::FunctionRange
        | VerifyFault::FallsOut => rule_place(text, cause),
    }
}

/// The first word of an instruction; the end of a text that has no such instruction.
fn instruction_place(text: &[u8], pc: usize) -> usize
    ensures { IsInstructionPlace text.now pc result }
{
    match instruction_row(text, pc) {
        Some(number) => row_front(text, number),
        None => text.len(),
    }
}

/// The first word of a line.
fn row_front(text: &[u8], number: usize) -> usize
    requires some { 0 < number }
    requires there { number ≤ length (lines_of text.now) }
    ensures { IsLineFront text.now number result }
{
    match line_begin(text, number) {
        Some(start) => front(text, start),
        None => unreachable!(),
    }
}

/// The first word of a line by which a rule of the whole image may be broken: of the one that breaks it, by what is counted, and else of
/// the first; the end of a text without such a line.
fn rule_place(text: &[u8], cause: VerifyFault) -> usize
    ensures { IsRulePlace text.now cause result }
{
    if let Some(broken) = fault_row(text, cause) {
        if let Some(number) = breaking_row(text, cause, broken) {
            return row_front(text, number);
        }
    }
    match breaking_row(text, cause, 1) {
        Some(row) => row_front(text, row),
        None => text.len(),
    }
}
