//! The character that begins at a byte which is not ASCII.
ghost use Rattle.std.specs.Prelude.{◌≡◌, ◌++◌, ℕ, List, MatchOption, OnOk, string_bytes};
ghost use Rattle.asl_diagnose_text.specs.Shown.{IsLetter, IsLetterText, is_hidden, width};

use std::alloc::AllocError;
use std::str;

/// How many bytes the character has that stands in front, where it has more than one.
fn width(bytes: &[u8]) -> usize
    ensures { result ≡ width bytes.now }
{
    match bytes {
        [] => 0,
        [0..=191, ..] => 0,
        [192..=223, ..] => 2,
        [224..=239, ..] => 3,
        [240..=255, ..] => 4,
    }
}

/// Whether a character shows nothing of its own: a control, a blank, or a mark that joins or turns what stands round it.
fn is_hidden(letter: &[u8]) -> bool
    ensures { result ≡ is_hidden letter.now }
{
    match *letter {
        [a, b] => a == 194 && (b <= 160 || b == 173) || a == 216 && b == 156,
        [a, b, c] => {
            a == 226 && b == 128 && (c <= 143 || 168 <= c && c <= 175)
                || a == 226 && b == 129 && 159 <= c && c <= 175
                || a == 227 && b == 128 && c == 128
                || a == 239 && b == 187 && c == 191
        }
        [a, b, ..] => a == 243 && b == 160,
        _ => false,
    }
}

/// The character that bytes begin with, if it is not ASCII, and shows.
pub fn letter(bytes: &[u8]) -> Option<&str>
    ensures { MatchOption result ((l : List ℕ) → ¬ IsLetter bytes.now l) (λ l. IsLetter bytes.now l.now) }
{
    let front = &bytes[..width(bytes).min(bytes.len())];
    if front.is_empty() || is_hidden(front) {
        return None;
    }
    match str::from_utf8(front) {
        Ok(letter) => Some(letter),
        Err(_) => None,
    }
}

/// Adds the character that bytes begin with between backticks, if it is not ASCII, and shows.
pub fn push_letter(message: &mut String, bytes: &[u8]) -> Result<(), AllocError>
    ensures { OnOk result ((text : List ℕ) × IsLetterText bytes.now text × (string_bytes message.new ≡ string_bytes message.old ++ text)) }
{
    match letter(bytes) {
        Some(letter) => {
            message.push_str("`")?;
            message.push_str(letter)?;
            message.push_str("`")
        }
        None => Ok(()),
    }
}
