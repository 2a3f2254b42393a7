//! The text of a refusal: where and what, the line, a caret, and what helps.

ghost use Rattle.std.specs.Prelude.{◌≡◌, ◌≤◌, ◌++◌, ℕ, List, length, IfOk, IsSome, OnErr, OnOk, string_bytes};
ghost use Rattle.asl_diagnose_text.specs.Listed.{expected_text};
ghost use Rattle.asl_diagnose.specs.Bringing.{bringers_text};
ghost use Rattle.asl_diagnose.specs.Names.{head_text};
ghost use Rattle.asl_diagnose.specs.RefusalText.{IsHeaded, IsAnswer, byte_at, IsByteTold, IsShownPlace, IsSpelled, IsTold, MayLackFor, MayLackText};

use crate::assembly_refusal::diagnose_assembly;
use crate::bringers_text::push_bringers;
use crate::diagnosis::{Diagnosis, Refusal};
use crate::infer_hints::push_infer_hints;
use crate::infer_sentence::push_infer_sentence;
use crate::missing_end::missing_end;
use crate::refusal_name::refusal_name;
use crate::source_refusal::diagnose_source;
use asl_diagnose_text::{
    ToldPlaces, push_assembly_hints, push_assembly_sentence, push_bytes, push_expected,
    push_letter, push_line, push_missing_end, push_syntax_hints, push_syntax_sentence,
};
use asl_syntax::SyntaxFault;
use std::alloc::{AllocError, Global};

/// What is told of a text that is refused, as text.
///
/// # Errors
///
/// An allocation failed.
pub fn spell(alloc: Global, text: &[u8], told: &Diagnosis) -> Result<String, AllocError>
    ensures { IfOk result (λ t. IsHeaded text.now told.now (string_bytes t)) }
{
    let mut message = String::new(alloc);
    push_head(&mut message, told)?;
    push_byte(&mut message, text, byte_at(&told.refusal))?;
    let sentence = sentence(alloc, text, told)?;
    push_bytes(&mut message, sentence.as_str().as_bytes())?;
    message.push_str("\n")?;
    push_line(&mut message, text, shown_place(text, told))?;
    push_rest(alloc, &mut message, text, told)?;
    Ok(message)
}

/// The place that is shown: that of the refusal; of a line that does not end the place behind it.
fn shown_place(text: &[u8], told: &Diagnosis) -> usize
    ensures within { result ≤ length text.now }
    ensures place { IsShownPlace text.now told.now result }
{
    match missing_end(text, told) {
        Some(end) => end,
        None => told.at.min(text.len()),
    }
}

/// The byte that is not ASCII, if that is the refusal.
fn byte_at(refusal: &Refusal) -> Option<usize>
    ensures { result ≡ byte_at refusal.now }
{
    match refusal {
        Refusal::Syntax(SyntaxFault::NotAscii(at)) => Some(*at),
        _ => None,
    }
}

/// Adds the character that begins at a byte which is not ASCII, if there is such a byte.
fn push_byte(message: &mut String, text: &[u8], at: Option<usize>) -> Result<(), AllocError>
    ensures { OnOk result ((letter : List ℕ) × IsByteTold text.now at letter × (string_bytes message.new ≡ string_bytes message.old ++ letter)) }
{
    match at {
        Some(at) => {
            let (_, rest) = text.split_at(text.len().min(at));
            push_letter(message, rest)
        }
        None => Ok(()),
    }
}

/// Adds with what a program continues, which statements bring most of the locks, and what else helps.
fn push_rest(
    alloc: Global,
    message: &mut String,
    text: &[u8],
    told: &Diagnosis,
) -> Result<(), AllocError>
    ensures { OnOk result ((hints : List ℕ) × (string_bytes message.new ≡ string_bytes message.old ++ (expected_text told.now.expected.items told.now.may_end ++ (bringers_text text.now told.now.bringers ++ hints)))) }
{
    let hints = hints(alloc, text, told)?;
    push_expected(message, told.expected.as_slice(), told.may_end)?;
    push_bringers(message, text, &told.bringers)?;
    message.push_str(hints.as_str())?;
    Ok(())
}

/// Adds the line, the column and the name.
fn push_head(message: &mut String, told: &Diagnosis) -> Result<(), AllocError>
    ensures { OnOk result (string_bytes message.new ≡ string_bytes message.old ++ head_text told.now) }
{
    let line = told.line;
    let column = told.column;
    let name = refusal_name(&told.refusal);
    write!(message, "{line}:{column}: {name}: ")
}

/// The sentence.
fn sentence(alloc: Global, text: &[u8], told: &Diagnosis) -> Result<String, AllocError> {
    let mut message = String::new(alloc);
    push_sentence(alloc, &mut message, text, told)?;
    Ok(message)
}

/// What helps.
fn hints(alloc: Global, text: &[u8], told: &Diagnosis) -> Result<String, AllocError> {
    let mut message = String::new(alloc);
    push_hints(alloc, &mut message, text, told)?;
    Ok(message)
}

/// Adds what is wrong, as one sentence.
fn push_sentence(
    alloc: Global,
    message: &mut String,
    text: &[u8],
    told: &Diagnosis,
) -> Result<(), AllocError> {
    if let Some(end) = missing_end(text, told) {
        return push_missing_end(message, text, end, told.at);
    }
    match &told.refusal {
        Refusal::Syntax(fault) => push_syntax_sentence(message, text, fault, told.at),
        Refusal::Infer(fault) => push_infer_sentence(alloc, message, text, *fault),
        Refusal::Asm(fault) => push_assembly_sentence(message, text, *fault),
    }
}

/// Adds what helps, as lines of their own.
fn push_hints(
    alloc: Global,
    message: &mut String,
    text: &[u8],
    told: &Diagnosis,
) -> Result<(), AllocError> {
    match &told.refusal {
        Refusal::Syntax(fault) => {
            let told = ToldPlaces {
                at: told.at,
                first: told.first,
            };
            push_syntax_hints(alloc, message, text, fault, told)
        }
        Refusal::Infer(fault) => push_infer_hints(alloc, message, text, *fault, told.is_cut),
        Refusal::Asm(fault) => push_assembly_hints(alloc, message, text, *fault),
    }
}

/// What is told of an input, as text: of an assembly text, or of a source for paths of at most `k` operations. The text is empty
/// where the input is accepted.
///
/// # Errors
///
/// An allocation failed. Of an input that is accepted this is so only where the call that judges it may say so.
pub fn diagnosed(
    alloc: Global,
    input: &[u8],
    is_assembly: bool,
    k: u32,
) -> Result<String, AllocError>
    requires { k ≤ 8 }
    ensures told { IfOk result (λ t. IsTold input.now is_assembly k (string_bytes t)) }
    ensures memory { OnErr result (MayLackText input.now is_assembly k) }
{
    let told = answer(alloc, input, is_assembly, k)?;
    let text = spell_answer(alloc, input, &told)?;
    Ok(text)
}

/// What is told of an input.
fn answer(
    alloc: Global,
    input: &[u8],
    is_assembly: bool,
    k: u32,
) -> Result<Option<Diagnosis>, AllocError>
    requires { k ≤ 8 }
    ensures told { IfOk result (IsAnswer input.now is_assembly k) }
    ensures memory { OnErr result (MayLackFor input.now is_assembly) }
{
    if is_assembly {
        diagnose_assembly(alloc, input)
    } else {
        diagnose_source(alloc, input, k)
    }
}

/// An answer as text, which is empty where there is nothing to tell.
fn spell_answer(alloc: Global, input: &[u8], told: &Option<Diagnosis>) -> Result<String, AllocError>
    ensures spelled { IfOk result (λ t. IsSpelled input.now told.now (string_bytes t)) }
    ensures memory { OnErr result (IsSome told.now) }
{
    match told {
        None => Ok(String::new(alloc)),
        Some(told) => spell(alloc, input, told),
    }
}
