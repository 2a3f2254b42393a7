//! The place of a fault of a text that is no program.
ghost use Rattle.std.specs.Prelude.{◌≡◌, true};
ghost use Rattle.asl_grammar.specs.Lex.{tokens_of};
ghost use Rattle.asl_syntax.specs.Fault.{IsFault};
ghost use Rattle.asl_diagnose_text.specs.SeenView.{is_twice, seen_nothing};
ghost use Rattle.asl_diagnose_text.specs.Unknown.{IsUnknownPlace};
ghost use Rattle.asl_diagnose_text.specs.SyntaxPlaces.{IsSyntaxPlace, IsMainPlace, HasFirstPlace};

use crate::declared::twice_places;
use crate::function_head::function_place;
use crate::unknown::unknown_place;
use asl_syntax::{Name, SyntaxFault};

/// The place of a fault, and of a second declaration the place of the first.
pub fn syntax_place(source: &[u8], fault: &SyntaxFault) -> (usize, Option<usize>)
    requires { IsFault source.now fault.now }
    ensures place { IsSyntaxPlace source.now fault.now result.1 result.0 }
    ensures first { HasFirstPlace fault.now result.1 }
{
    match fault {
        SyntaxFault::NotAscii(at)
        | SyntaxFault::Token(at)
        | SyntaxFault::Grammar(at)
        | SyntaxFault::Limit(at)
        | SyntaxFault::Arity(at) => (*at, None),
        SyntaxFault::Twice(name) => twice_place(source, name),
        SyntaxFault::Unknown(name) => (use_place(source, name), None),
        SyntaxFault::NoMain => (main_place(source), None),
        SyntaxFault::OutOfMemory => (source.len(), None),
    }
}

/// The place of the second declaration of a name, and that of the first.
fn twice_place(source: &[u8], name: &Name) -> (usize, Option<usize>)
    requires { is_twice name.now seen_nothing (tokens_of source.now) ≡ true }
    ensures { IsSyntaxPlace source.now (SyntaxFault.Twice name.now) result.1 result.0 }
{
    match twice_places(source, name.as_slice()) {
        Some((first, second)) => (second, Some(first)),
        None => unreachable!(),
    }
}

/// The place of the first use of a name that is nowhere declared.
fn use_place(source: &[u8], name: &Name) -> usize
    requires { IsFault source.now (SyntaxFault.Unknown name.now) }
    ensures { IsUnknownPlace source.now name.now result }
{
    match unknown_place(source, name.as_slice()) {
        Some(at) => at,
        None => unreachable!(),
    }
}

/// The name of the first function `main`, or the end of a text that has none.
fn main_place(source: &[u8]) -> usize
    ensures { IsMainPlace source.now result }
{
    match function_place(source, b"main") {
        Some(at) => at,
        None => source.len(),
    }
}
