//! From a text to a program: reading the text, then judging the image that it spells.

ghost use Rattle.std.specs.Prelude.{◌≡◌, ◌⊎◌, Err, IfOk, IfErr, Ok};
ghost use Rattle.asl_code.specs.Verified.{IsVerified};
ghost use Rattle.asl_code.specs.declared.image.Image.{Image};
ghost use Rattle.asl_assembler.specs.Faults.{IsFault};
ghost use Rattle.asl_assembler.specs.Text.{Spells};
ghost use Rattle.asl_assembler.specs.Reading.{HasLineOr};

use crate::line_order::wrong_line;
use crate::read::{ReadFault, read};
use asl_code::{Program, VerifyFault};
use std::alloc::Global;
use thiserror::Error;

/// Why a text is not a program.
#[derive(Clone, Copy, Debug, PartialEq, Eq, Error)]
pub enum AsmFault {
    /// The line of this number, from 1, is the first that is not as its place asks; or it is one past the last, where
    /// the text ends too early.
    #[error("Line({0})")]
    Line(usize),
    /// All lines are right, and the image that they spell is not verified.
    #[error("Verify({0})")]
    Verify(VerifyFault),
    /// The text spells an image, and memory ran out.
    #[error("OutOfMemory")]
    OutOfMemory,
}

/// The first wrong line of the text, and where there is none this fault.
fn line_or(text: &[u8], fault: AsmFault) -> AsmFault
    ensures { HasLineOr text.now fault result }
{
    match wrong_line(text) {
        Some(number) => AsmFault::Line(number),
        None => fault,
    }
}

/// The program that an assembly text spells (`docs/FORMATS.md`).
///
/// # Errors
///
/// The first line that is not as its place asks; where all lines are right, the first rule that the image breaks; or
/// `OutOfMemory`, which hides no wrong line.
pub fn assemble(alloc: Global, text: &[u8]) -> Result<Program, AsmFault>
    ensures spelled { IfOk result (λ program. Spells text.now program) }
    ensures verified { IfOk result (λ program. IsVerified program) }

    // What is spelled and verified is answered, unless memory runs out.
    ensures only { (image : Image) → Spells text.now image → IsVerified image
        → (result ≡ Ok image) ⊎ (result ≡ Err AsmFault.OutOfMemory) }
    ensures refused { IfErr result (λ fault. IsFault text.now fault) }
{
    let image = match read(alloc, text) {
        Ok(image) => image,
        Err(ReadFault::Line(number)) => return Err(AsmFault::Line(number)),
        Err(ReadFault::Over) => return Err(line_or(text, AsmFault::Verify(VerifyFault::Limit))),
        Err(ReadFault::OutOfMemory) => return Err(line_or(text, AsmFault::OutOfMemory)),
    };
    match Program::verify(image) {
        Ok(program) => Ok(program),
        Err((cause, _)) => Err(AsmFault::Verify(cause)),
    }
}
