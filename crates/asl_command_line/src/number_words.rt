//! Numbers as words.
ghost use Rattle.std.specs.Prelude.{ℕ, MatchOption, IfOk, IfErr};
ghost use Rattle.clap.specs.Walk.{texts};
ghost use Rattle.asl_command_line.specs.Number.{AreNumbers, IsNumber};
ghost use Rattle.asl_command_line.specs.Reading.{IsNamedNumber, IsNumbersFault};

use std::alloc::Global;

/// The number that the digits spell, if they are only digits, at least one, and the number is below 2^32.
pub fn number(word: &str) -> Option<u32>
    ensures { MatchOption result ((n : ℕ) → IsNumber word.now n → ⊥) (IsNumber word.now) }
{
    if word.starts_with('+') {
        return None;
    }
    word.parse::<u32>().ok()
}

/// Why an argument's words are no numbers.
pub enum NumbersFault<'a> {
    /// This one is none.
    NoNumber(&'a str),
    /// Memory ran out.
    OutOfMemory,
}

/// The numbers that are these words.
pub fn numbers<'a>(alloc: Global, words: &[&'a str]) -> Result<Vec<u32>, NumbersFault<'a>>
    ensures ok { IfOk result (λ numbers. AreNumbers (texts words.now) numbers.items) }
    ensures err { IfErr result (IsNumbersFault (texts words.now)) }
    ensures named { IfErr result (IsNamedNumber (texts words.now)) }
{
    let mut numbers = Vec::new(alloc);
    for word in words {
        let Some(number) = number(word) else {
            return Err(NumbersFault::NoNumber(word));
        };
        if numbers.push(number).is_err() {
            return Err(NumbersFault::OutOfMemory);
        }
    }
    Ok(numbers)
}
