//! The order of lines, judged without memory: whether a text spells an image, and else its first wrong line.

ghost use Rattle.std.specs.Prelude.{◌≡◌, MatchOption};
ghost use Rattle.asl_code.specs.declared.image.Image.{Image};
ghost use Rattle.asl_assembler.specs.Words.{lines_of};
ghost use Rattle.asl_assembler.specs.Text.{Spells, IsBadLine};
ghost use Rattle.asl_assembler.specs.Reading.{turn_opened, turn_after, turn_line, may_end};

use crate::line::{Line, meaning};
use crate::line_words::{next_word, split_line};

/// Which line comes next.
#[derive(Clone, Copy)]
pub(crate) enum Turn {
    /// `version`
    Version,
    /// `classes`
    Classes,
    /// `global` or `entry`
    Globals,
    /// `fn` or `list`
    Functions,
    /// An instruction, `fn` or `list`
    Body,
    /// A lock or `list`
    Locks,
}

/// A function or a list begins.
fn opened(line: &Line) -> Option<Turn>
    ensures { result ≡ turn_opened line.now }
{
    match line {
        Line::Function { .. } => Some(Turn::Body),
        Line::List => Some(Turn::Locks),
        _ => None,
    }
}

/// Which line comes after this one, if it may stand here.
#[tactic(auto, unfolding(crate::specs::Reading::turn_after))]
fn turn_after(turn: Turn, line: &Line) -> Option<Turn>
    ensures { result ≡ turn_after turn line.now }
{
    match turn {
        Turn::Version => match line {
            Line::Version(_) => Some(Turn::Classes),
            _ => None,
        },
        Turn::Classes => match line {
            Line::Classes(_) => Some(Turn::Globals),
            _ => None,
        },
        Turn::Globals => match line {
            Line::Global(_) => Some(Turn::Globals),
            Line::Entry(_) => Some(Turn::Functions),
            _ => None,
        },
        Turn::Functions => opened(line),
        Turn::Body => match line {
            Line::Instruction(_) => Some(Turn::Body),
            _ => opened(line),
        },
        Turn::Locks => match line {
            Line::Lock(_) | Line::List => Some(Turn::Locks),
            _ => None,
        },
    }
}

/// The same of a line of bytes. A blank one changes nothing.
#[tactic(auto, unfolding(crate::specs::Reading::turn_line))]
fn turn_after_bytes(turn: Turn, line: &[u8]) -> Option<Turn>
    ensures { result ≡ turn_line turn line.now }
{
    if next_word(line).is_none() {
        return Some(turn);
    }
    match meaning(line) {
        Some(line) => turn_after(turn, &line),
        None => None,
    }
}

/// Whether a text may end where this line would come next.
fn may_end(turn: Turn) -> bool
    ensures { result ≡ may_end turn }
{
    matches!(turn, Turn::Functions | Turn::Body | Turn::Locks)
}

/// The first wrong line of the text, or none where the text spells an image.
pub(crate) fn wrong_line(text: &[u8]) -> Option<usize>
    ensures { MatchOption result ((image : Image) × Spells text.now image) (λ number. IsBadLine (lines_of text.now) number) }
{
    let mut turn = Turn::Version;
    let mut number: usize = 0;
    let mut rest = text;
    while !rest.is_empty() {
        let (line, after) = split_line(rest);
        number += 1;
        rest = after;
        turn = match turn_after_bytes(turn, line) {
            Some(next) => next,
            None => return Some(number),
        };
    }
    if may_end(turn) {
        None
    } else {
        Some(number + 1)
    }
}
