//! Names that are spelled nearly alike.

ghost use Rattle.std.specs.Prelude.{◌≤◌, IfOk, IfSome};

use crate::declared::Declares;
use crate::name_role::{Before, Role};
use asl_grammar::lexer::{Found, Tokens};
use asl_grammar::token::{Mark, Token};
use std::alloc::{AllocError, Global};
use strsim::generic_levenshtein;

/// The most edits between near names: one, or of names of more than three bytes two.
fn most_edits(name: &[u8]) -> usize
    ensures { result ≤ 2 }
{
    if name.len() > 3 { 2 } else { 1 }
}

/// How many edits lead from one name to the other, if they are few.
fn few_edits(alloc: Global, name: &[u8], other: &[u8]) -> Result<Option<usize>, AllocError>
    ensures { IfOk result (λ o. IfSome o (λ edits. edits ≤ 2)) }
{
    let most = most_edits(name);
    if name.len().abs_diff(other.len()) > most {
        return Ok(None);
    }
    let edits = generic_levenshtein(alloc, name, other)?;
    Ok(if edits <= most && name.len() > 2 {
        Some(edits)
    } else {
        None
    })
}

/// The nearest of the names that were tried.
#[derive(Clone, Copy)]
pub struct Nearest<'t> {
    pub name: Option<&'t [u8]>,
    distance: usize,
}

impl<'t> Nearest<'t> {
    /// None was tried.
    pub fn new() -> Nearest<'t> {
        Nearest {
            name: None,
            distance: 6,
        }
    }

    /// Tries one more.
    pub fn try_name(
        &mut self,
        alloc: Global,
        name: &[u8],
        other: &'t [u8],
    ) -> Result<(), AllocError> {
        if let Some(edits) = few_edits(alloc, name, other)? {
            let distance = 2 * edits + name.len().abs_diff(other.len()).min(1);
            if distance < self.distance {
                self.distance = distance;
                self.name = Some(other);
            }
        }
        Ok(())
    }
}

/// Whether a name that does this may be what another one wanted to use.
fn declares_for(wanted: Role, role: Role) -> bool {
    match wanted {
        Role::GlobalUse => role == Role::Declares(Declares::Global),
        Role::Call => role == Role::Declares(Declares::Function),
        _ => role == Role::Declares(Declares::Parameter) || role == Role::Assigned,
    }
}

/// The name of the same name space that is the nearest to the one that is used at a place, of locals among those of its
/// function.
pub fn nearest_name<'t>(
    alloc: Global,
    text: &'t [u8],
    at: usize,
    name: &[u8],
    wanted: Role,
) -> Result<Option<&'t [u8]>, AllocError> {
    let mut found = Nearest::new();
    let mut tokens = Tokens::new(text);
    let mut before = Before::new();
    'reading: while let Found::Token(spot) = tokens.next() {
        match spot.token {
            Token::Fixed(Mark::Fn) if wanted == Role::Local => {
                if spot.at > at {
                    return Ok(found.name);
                }
                found = Nearest::new();
            }
            Token::Name(other) => {
                if declares_for(wanted, before.role(tokens)) {
                    found.try_name(alloc, name, other)?;
                }
            }
            _ => {}
        }
        before.pass(spot.token);
    }
    Ok(found.name)
}
