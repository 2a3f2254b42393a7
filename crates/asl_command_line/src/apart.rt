//! Reads the last words of a long schedule apart from `clap`, to which each of its words costs more than a step.
ghost use Rattle.std.specs.Prelude.{◌≡◌, ⊤, true, map, string_bytes, IfOk, IfSome, MatchBool};
ghost use Rattle.asl_command_line.specs.Apart.{AreAdded, IsFront, IsPlain};
ghost use Rattle.asl_command_line.specs.Words.{AsksFor};

use crate::command::{Command, Invocation};
use crate::number_words::number;
use crate::reading::read_all;
use std::alloc::{AllocError, Global};

/// How few words are read whole.
const FEW: usize = 4;

/// What the words of a `step` ask for whose last words are all numbers. `clap` reads the front, which ends with the first two
/// of the last words that are no flags: after these two it takes each such word for one of the schedule. Where the front asks
/// for anything else, or a word is no number, None: then all words are for `clap` to judge.
///
/// # Errors
///
/// An allocation failed.
pub fn read_apart(alloc: Global, words: &[String]) -> Result<Option<Command>, AllocError>
    ensures { IfOk result (λ found. IfSome found (λ command. AsksFor (map string_bytes words.now) (Invocation.Alone command))) }
{
    let Some(count) = front_of(words) else {
        return Ok(None);
    };
    let (front, rest) = words.split_at(count);
    match read_all(alloc, front)? {
        Invocation::Alone(
            Command::Step {
                threads,
                mut schedule,
                record,
            },
        ) => {
            if add_numbers(&mut schedule, rest)? {
                Ok(Some(Command::Step {
                    threads,
                    schedule,
                    record,
                }))
            } else {
                Ok(None)
            }
        }
        _ => Ok(None),
    }
}

/// How many words `clap` is to read, where they are those of `step` and more than two words at their end are no flags.
fn front_of(words: &[String]) -> Option<usize>
    ensures { IfSome result (IsFront (map string_bytes words.now)) }
{
    if words.len() < FEW || words[0].as_str() != "step" {
        return None;
    }
    let mut from = words.len();
    while from > 1 && is_plain(words[from - 1].as_str()) {
        from -= 1;
    }
    if words.len() - from > 2 {
        Some(from + 2)
    } else {
        None
    }
}

/// Whether the word does not begin with a hyphen.
fn is_plain(word: &str) -> bool
    ensures { MatchBool result (IsPlain word.now) ⊤ }
{
    match word.as_bytes().first() {
        Some(first) => *first != b'-',
        None => true,
    }
}

/// Adds the numbers that these words are, and answers whether all are numbers.
fn add_numbers(numbers: &mut Vec<u32>, words: &[String]) -> Result<bool, AllocError>
    ensures { IfOk result (λ all. all ≡ true → AreAdded (map string_bytes words.now) numbers.old.items numbers.new.items) }
{
    for word in words {
        let Some(number) = number(word.as_str()) else {
            return Ok(false);
        };
        numbers.push(number)?;
    }
    Ok(true)
}
