//! The words that a process was started with, as texts.
ghost use Rattle.std.specs.Prelude.{◌≡◌, ℕ, List, IfOk, IfErr, IfSome, map, option_map, slice_get, string_bytes, IsUtf8};
ghost use Rattle.asl.specs.declared.process_words.WordsFault.TheVariants.{NotText, OutOfMemory};
ghost use Rattle.asl.specs.CommandLine.{AreGiven, IsWordsFault, IsWordFault};

use crate::command_line::CommandLine;
use std::alloc::{AllocError, Global};
use std::env::FillError;

/// How many bytes a word has room for at first: as many as the least piece of memory has, since a schedule has many words.
const FIRST_ROOM: usize = 24;

/// Why a process has no words.
#[derive(Clone, Copy)]
pub enum WordsFault {
    /// A word is not UTF-8.
    NotText,
    /// Memory ran out.
    OutOfMemory,
}

impl From<AllocError> for WordsFault {
    ghost from_gives = { λ _ e. e ≡ OutOfMemory };

    fn from(_: AllocError) -> Self {
        WordsFault::OutOfMemory
    }
}

/// The process's words, without the program's own name.
pub fn process_words<L: CommandLine>(line: &L, alloc: Global) -> Result<Vec<String>, WordsFault>
    ensures ok { IfOk result (λ words. AreGiven (L.known line.now) (map string_bytes words.items)) }
    ensures err { IfErr result (IsWordsFault (L.known line.now)) }
{
    let mut words = Vec::new(alloc);
    for number in 1..usize::MAX {
        match process_word(line, alloc, number) {
            Ok(Some(word)) => match words.push(word) {
                Ok(()) => {}
                Err(_) => return Err(WordsFault::OutOfMemory),
            },
            Ok(None) => return Ok(words),
            Err(fault) => return Err(fault),
        }
    }
    Err(WordsFault::OutOfMemory)
}

/// The process's word of this number, if there is one.
fn process_word<L: CommandLine>(
    line: &L,
    alloc: Global,
    number: usize,
) -> Result<Option<String>, WordsFault>
    ensures ok { IfOk result (λ word. IfSome (L.known line.now) (λ all. slice_get all number ≡ option_map string_bytes word)) }
    ensures err { IfErr result (λ fault. IfSome (L.known line.now) (λ all. IsWordFault all number fault)) }
{
    let mut bytes = Vec::new(alloc);
    let mut room = FIRST_ROOM;
    for _ in 0..usize::BITS {
        bytes.resize(room, 0u8)?;
        match line.word(number, bytes.as_mut_slice()) {
            Ok(count) => {
                bytes.truncate(count);
                return match text_of(bytes) {
                    Ok(text) => Ok(Some(text)),
                    Err(_) => Err(WordsFault::NotText),
                };
            }
            Err(FillError::NotPresent) => return Ok(None),
            Err(FillError::TooLong) => room = room.saturating_mul(2),
        }
    }
    Err(WordsFault::OutOfMemory)
}

/// The text that the bytes are, if they are one.
fn text_of(bytes: Vec<u8>) -> Result<String, WordsFault>
    ensures ok { IfOk result (λ text. string_bytes text ≡ bytes.items) }
    ensures err { IfErr result (λ fault. (fault ≡ NotText) × ¬ IsUtf8 bytes.items) }
{
    match String::from_utf8(bytes) {
        Ok(text) => Ok(text),
        Err(_) => Err(WordsFault::NotText),
    }
}
