//! Where a line does not end that the next one shows to be at its end.
ghost use Rattle.std.specs.Prelude.{◌≡◌, ◌↔◌, ℕ, IsTrue, MatchOption};
ghost use Rattle.std.specs.List.{Contains};
ghost use Rattle.asl_grammar.specs.declared.token.Mark.TheVariants.{Semicolon};
ghost use Rattle.asl_diagnose_text.specs.declared.kind.TokenKind.TheVariants.{Fixed};
ghost use Rattle.asl_diagnose.specs.RefusalText.{MissesEnd};

use crate::diagnosis::Diagnosis;
use asl_diagnose_text::{TokenKind, end_before, line};
use asl_grammar::token::Mark;

/// Whether a kind of token is `;`.
fn is_semicolon(kind: TokenKind) -> bool
    ensures { IsTrue result ↔ (kind ≡ Fixed Semicolon) }
{
    matches!(kind, TokenKind::Fixed(Mark::Semicolon))
}

/// Whether `;` is one of these kinds.
fn has_semicolon(kinds: &[TokenKind]) -> bool
    ensures { IsTrue result ↔ Contains kinds.now (Fixed Semicolon) }
{
    for kind in kinds {
        if is_semicolon(*kind) {
            return true;
        }
    }
    false
}

/// Where `;` is missing: behind the last token before the place, if `;` may stand there and the token of the place is on a later line.
pub fn missing_end(text: &[u8], told: &Diagnosis) -> Option<usize>
    ensures { MatchOption result ((end : ℕ) → ¬ MissesEnd text.now told.now end) (MissesEnd text.now told.now) }
{
    if !has_semicolon(told.expected.as_slice()) || told.at >= text.len() {
        return None;
    }
    let end = end_before(text, told.at);
    if line(text, end) < line(text, told.at) {
        Some(end)
    } else {
        None
    }
}
