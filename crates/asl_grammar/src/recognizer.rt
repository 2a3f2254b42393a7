//! Telling whether tokens are a program, and where they stop being the beginning of one.

ghost use Rattle.std.specs.Prelude.{◌≡◌, length, reverse, IfOk};
ghost use Rattle.std.specs.Option.{option_map};
ghost use Rattle.asl_grammar.specs.Lex.{tokens_of};
ghost use Rattle.asl_grammar.specs.Seen.{kinds_after, next_place};
ghost use Rattle.asl_grammar.specs.View.{token_of};
ghost use Rattle.asl_grammar.specs.ControlView.{act_of};
ghost use Rattle.asl_grammar.specs.SeenView.{kinds_in, place_in};
ghost use Rattle.asl_grammar.specs.Grammar.{Judges};

use crate::control::{Act, Control};
use crate::control_step::{fault_at_end, opening_kind, settled, step};
use crate::in_place::fault_in_place;
use crate::kinds::Kinds;
use crate::lexer::{Found, Tokens};
use crate::token::Token;
use std::alloc::{AllocError, Global};

/// Opens or closes a block.
fn nest(kinds: &mut Kinds, act: Act<'_>) -> Result<(), AllocError>
    ensures { IfOk result (λ _. reverse (kinds_in kinds.new) ≡ kinds_after (act_of act.entry) (reverse (kinds_in kinds.old))) }
{
    match act {
        Act::Begin(opening) => kinds.push(opening_kind(opening))?,
        Act::Close => kinds.pop(),
        _ => {}
    }
    Ok(())
}

/// The control after a token, or nothing where no program continues with it.
fn advance<'t>(
    control: Control<'t>,
    kinds: &mut Kinds,
    token: Token<'t>,
) -> Result<Option<Control<'t>>, AllocError>
    ensures { IfOk result (λ next. option_map (λ c. place_in c (kinds_in kinds.new)) next
        ≡ next_place (place_in control.entry (kinds_in kinds.old)) (token_of token.entry)) }
{
    match step(settled(control, token), kinds.innermost(), token) {
        None => Ok(None),
        Some(transition) => {
            nest(kinds, transition.act)?;
            Ok(Some(transition.control))
        }
    }
}

/// The same as `first_fault`, with the kinds of all open blocks in memory.
///
/// # Errors
///
/// An allocation failed: for each brace that is open after 64 others, the function's own among them, a byte is asked for.
fn fault_by_kinds(alloc: Global, text: &[u8]) -> Result<Option<usize>, AllocError>
    ensures { IfOk result (Judges (tokens_of text.now) (length text.now)) }
{
    let mut tokens = Tokens::new(text);
    let mut kinds = Kinds::new(alloc);
    let mut control = Control::ItemStart;
    'reading: while let Found::Token(spot) = tokens.next() {
        match advance(control, &mut kinds, spot.token)? {
            None => return Ok(Some(spot.at)),
            Some(next) => control = next,
        }
    }
    Ok(fault_at_end(control, text.len()))
}

/// The place of the first token with which no program continues, or the text's length where it stops too early; nothing
/// where the tokens are a program.
///
/// A text is read up to its first place where no token stands. Where memory for the kinds of its open blocks is refused, it is
/// judged without.
pub fn first_fault(alloc: Global, text: &[u8]) -> Option<usize>
    ensures { Judges (tokens_of text.now) (length text.now) result }
{
    match fault_by_kinds(alloc, text) {
        Ok(found) => found,
        Err(_) => fault_in_place(text),
    }
}
