//! Reads the words of the command `debug`.
ghost use Rattle.std.specs.Prelude.{◌≡◌, ◌<◌, ◌≤◌, ℕ, List, [], ◌∷◌, true, false, length, take, IfOk, IfErr, MatchOption};
ghost use Rattle.clap.specs.Walk.{texts};
ghost use Rattle.asl_command_line.specs.Number.{IsNumber};
ghost use Rattle.asl_command_line.specs.Words.{AreDebugWords, IsDebugWord, TakesNumber};
ghost use Rattle.asl_command_line.specs.Reading.{IsDebugWordsFault, IsNamedWord, IsNoBareWord, IsNoNumberedWord};

use crate::debug_word::{DebugWord, Move};
use crate::number_words::number;
use std::alloc::Global;

/// Why words ask a debugger for nothing.
pub enum DebugWordsFault<'a> {
    /// This word is none of the debugger's.
    NoWord(&'a str),
    /// This word is no number.
    NoNumber(&'a str),
    /// The last word wants a number after it.
    NumberMissing,
    /// Memory ran out.
    OutOfMemory,
}

/// What these words ask the debugger for, one after the other.
pub fn debug_words<'a>(
    alloc: Global,
    all: &[&'a str],
) -> Result<Vec<DebugWord>, DebugWordsFault<'a>>
    ensures ok { IfOk result (λ words. AreDebugWords (texts all.now) words.items) }
    ensures err { IfErr result (IsDebugWordsFault (texts all.now)) }
    ensures named { IfErr result (IsNamedWord (texts all.now)) }
{
    let mut words = Vec::new(alloc);
    let mut done = 0;
    while done < all.len() {
        let (word, count) = front_word(&all[done..])?;
        if words.push(word).is_err() {
            return Err(DebugWordsFault::OutOfMemory);
        }
        done += count;
    }
    Ok(words)
}

/// What the first words ask for, and how many they are.
fn front_word<'a>(all: &[&'a str]) -> Result<(DebugWord, usize), DebugWordsFault<'a>>
    requires { 0 < length all.now }
    ensures some { IfOk result (λ front. (0 < front.1) × (front.1 ≤ length all.now)) }
    ensures front { IfOk result (λ front. IsDebugWord (take front.1 (texts all.now)) front.0) }
    ensures err { IfErr result (IsDebugWordsFault (texts all.now)) }
    ensures named { IfErr result (IsNamedWord (texts all.now)) }
{
    let name = all[0];
    if let Some(word) = bare_word(name) {
        return Ok((word, 1));
    }
    if !takes_number(name) {
        return Err(DebugWordsFault::NoWord(name));
    }
    if all.len() < 2 {
        return Err(DebugWordsFault::NumberMissing);
    }
    let Some(number) = number(all[1]) else {
        return Err(DebugWordsFault::NoNumber(all[1]));
    };
    match numbered_word(name, number) {
        Some(word) => Ok((word, 2)),
        None => Err(DebugWordsFault::NoWord(name)),
    }
}

/// What a word asks for that stands alone, if it is one.
fn bare_word(word: &str) -> Option<DebugWord>
    ensures { MatchOption result (IsNoBareWord word.now) (IsDebugWord (word.now ∷ [])) }
{
    match word {
        "forward" => Some(DebugWord::Move(Move::Forward)),
        "back" => Some(DebugWord::Move(Move::Back)),
        "next" => Some(DebugWord::Move(Move::Next)),
        "prev" => Some(DebugWord::Move(Move::Previous)),
        "view" => Some(DebugWord::View),
        "asks" => Some(DebugWord::Asks),
        "stack" => Some(DebugWord::Stack),
        "objects" => Some(DebugWord::Objects),
        _ => None,
    }
}

/// Whether a number follows the word.
fn takes_number(word: &str) -> bool
    ensures yes { result ≡ true → TakesNumber word.now }
    ensures no { result ≡ false → IsNoNumberedWord word.now }
{
    matches!(word, "goto" | "break" | "clear")
}

/// What a word asks for with the number after it, if it is one that takes a number.
fn numbered_word(word: &str, number: u32) -> Option<DebugWord>
    ensures { MatchOption result (IsNoNumberedWord word.now) (λ asked. (text : List ℕ) → IsNumber text number → IsDebugWord (word.now ∷ text ∷ []) asked) }
{
    match word {
        "goto" => Some(DebugWord::Move(Move::Goto(number))),
        "break" => Some(DebugWord::Break(number)),
        "clear" => Some(DebugWord::Clear(number)),
        _ => None,
    }
}
