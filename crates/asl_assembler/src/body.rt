//! Taking the instructions of a body in, one after the other: most lines of a text are such.

ghost use Rattle.std.specs.Prelude.{◌≡◌, ◌<◌, ◌≤◌, ◌+◌, ◌^◌, length, IfOk, IfSome};
ghost use Rattle.asl_assembler.specs.declared.image_draft.Place.TheVariants as place;
ghost use Rattle.asl_assembler.specs.declared.line.Line.TheVariants as line;
ghost use Rattle.asl_assembler.specs.Words.{lines_of};
ghost use Rattle.asl_assembler.specs.Reading.{image_from, BeginsWith};

use crate::image_draft::{Place, one_longer};
use crate::keyword::find_keyword;
use crate::line::instruction;
use crate::line_words::{next_word, split_line};
use asl_code::{Function, Image, Instr, image_limits};
use std::alloc::AllocError;

/// The instruction that is the first line of the text, if one is, and the text after it.
fn first_instruction(text: &[u8]) -> Option<(Instr, &[u8])>
    requires { 0 < length text.now }
    ensures line { IfSome result (λ x. BeginsWith text.now (line.Instruction x.0) x.1.now) }
    ensures shorter { IfSome result (λ x. length x.1.now < length text.now) }
{
    let (line, after) = split_line(text);
    let (word, rest) = next_word(line)?;
    let instr = instruction(find_keyword(word)?, rest)?;
    Some((instr, after))
}

/// Takes lines into the body of the function, and counts them, up to one that is no instruction, or until there are as many
/// instructions as a program has at most. What is left of the text is the result.
#[tactic(auto, using(crate::proofs::Rows::instr_taken))]
fn take_instructions<'t>(
    text: &'t [u8],
    number: &mut usize,
    function: &mut Function,
    image: &mut Image,
) -> Result<&'t [u8], AllocError>
    requires { number.old + length text.now < 2 ^ 64 }
    ensures same { IfOk result (λ rest. image_from number.new (place.Body function.new) image.new (lines_of rest.now)
        ≡ image_from number.old (place.Body function.old) image.old (lines_of text.now)) }
    ensures counted { IfOk result (λ rest. number.new + length rest.now ≤ number.old + length text.now) }
    ensures shorter { IfOk result (λ rest. length rest.now ≤ length text.now) }
{
    let mut rest = text;
    while !rest.is_empty() && image.code.len() < image_limits::CODE {
        let Some((instr, after)) = first_instruction(rest) else {
            return Ok(rest);
        };
        image.code.push(instr)?;
        *function = one_longer(*function);
        *number += 1;
        rest = after;
    }
    Ok(rest)
}

/// Takes the instructions in that stand next, where a body is open.
pub(crate) fn take_body<'t>(
    text: &'t [u8],
    number: &mut usize,
    place: &mut Place,
    image: &mut Image,
) -> Result<&'t [u8], AllocError>
    requires { number.old + length text.now < 2 ^ 64 }
    ensures same { IfOk result (λ rest. image_from number.new place.new image.new (lines_of rest.now)
        ≡ image_from number.old place.old image.old (lines_of text.now)) }
    ensures counted { IfOk result (λ rest. number.new + length rest.now ≤ number.old + length text.now) }
    ensures shorter { IfOk result (λ rest. length rest.now ≤ length text.now) }
{
    match place {
        Place::Body(function) => take_instructions(text, number, function, image),
        _ => Ok(text),
    }
}
