//! The words of a call, which stand in one text with a line feed between two.
ghost use Rattle.std.specs.Prelude.{◌≡◌, ◌==◌, ◌<◌, length, map, IfOk, OnErr, string_bytes};
ghost use Rattle.std.specs.List.{slice_split};
ghost use Rattle.asl_c_commands.specs.Words.{words_of};

use std::alloc::{AllocError, Global};

/// What stands between the line feeds of a text.
fn pieces(alloc: Global, text: &str) -> Result<Vec<&str>, AllocError>
    ensures { IfOk result (λ v. map (λ x. x.now) v.items ≡ slice_split (λ b. b == 10) text.now) }
{
    text.split('\n').collect(alloc)
}

/// The pieces as words of their own, for `ended_over` (call.rt): it is given a `&[String]`, which borrowed pieces are not.
fn owned(alloc: Global, pieces: &[&str]) -> Result<Vec<String>, AllocError>
    ensures { IfOk result (λ words. map string_bytes words.items ≡ map (λ x. x.now) pieces.now) }
{
    let mut words = Vec::new(alloc);
    for piece in pieces {
        words.push(String::from_str(alloc, piece)?)?;
    }
    Ok(words)
}

/// The words of a text; the empty text has none.
///
/// # Errors
///
/// An allocation failed, and the text is not empty.
pub fn split(alloc: Global, text: &str) -> Result<Vec<String>, AllocError>
    ensures some { OnErr result (0 < length text.now) }
    ensures words { IfOk result (λ words. map string_bytes words.items ≡ words_of text.now) }
{
    if text.is_empty() {
        return Ok(Vec::new(alloc));
    }
    let pieces = pieces(alloc, text)?;
    owned(alloc, pieces.as_slice())
}
