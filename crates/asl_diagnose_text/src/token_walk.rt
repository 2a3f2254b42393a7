//! Reading tokens one after the other, as far as they begin a program.

ghost use Rattle.std.specs.Prelude.{◌≡◌, true, false, is_some, None, Some, IfOk, reverse};
ghost use Rattle.asl_grammar.specs.Seen.{innermost, kinds_after, next_place, outer_kinds};
ghost use Rattle.asl_grammar.specs.View.{token_of};
ghost use Rattle.asl_grammar.specs.ControlView.{act_of};
ghost use Rattle.asl_grammar.specs.SeenView.{place_in};
ghost use Rattle.asl_diagnose_text.specs.WalkView.{walk_place, is_accepted};

use asl_grammar::control::{Act, Control, Kind, Opening};
use asl_grammar::control_step::{settled, step};
use asl_grammar::token::{Spot, Token};
use std::alloc::{AllocError, Global};

/// Where a reader of tokens is: what it has read of the present line, and which blocks are open, the innermost last.
#[derive(Drop)]
pub struct Walk<'t> {
    pub control: Control<'t>,
    pub kinds: Vec<Kind>,
}

/// A token, what had been read of its line before it, and what it completes.
#[derive(Clone, Copy)]
pub struct Step<'t> {
    pub spot: Spot<'t>,
    pub before: Control<'t>,
    pub act: Act<'t>,
}

impl<'t> Walk<'t> {
    ghost use Rattle.asl_grammar.specs.Automaton.{ItemStart};
    ghost use Rattle.std.specs.Prelude.{[]};

    /// Before a program.
    pub fn new(alloc: Global) -> Walk<'t>
        ensures { walk_place result ≡ record { control = ItemStart; kinds = [] } }
    {
        Walk {
            control: Control::ItemStart,
            kinds: Vec::new(alloc),
        }
    }

    /// The kind of the innermost block.
    pub fn innermost(&self) -> Kind
        ensures { result ≡ innermost (reverse self.now.kinds.items) }
    {
        last_kind(self.kinds.as_slice())
    }

    /// Whether a program continues with a token.
    pub fn accepts(&self, token: Token<'t>) -> bool
        ensures { result ≡ is_accepted (walk_place self.now) (token_of token.entry) }
    {
        step(settled(self.control, token), self.innermost(), token).is_some()
    }

    /// Goes past a token. Answers what was read before it and what it completes, or nothing where no program continues with it,
    /// and then stays.
    ///
    /// # Errors
    ///
    /// An allocation failed.
    pub fn take(&mut self, spot: Spot<'t>) -> Result<Option<Step<'t>>, AllocError>
        ensures stays { IfOk result (λ taken. is_some taken ≡ false → next_place (walk_place self.old) (token_of spot.entry.token) ≡ None) }
        ensures same { IfOk result (λ taken. is_some taken ≡ false → walk_place self.new ≡ walk_place self.old) }
        ensures goes { IfOk result (λ taken. is_some taken ≡ true → Some (walk_place self.new) ≡ next_place (walk_place self.old) (token_of spot.entry.token)) }
    {
        let before = settled(self.control, spot.token);
        match step(before, self.innermost(), spot.token) {
            None => Ok(None),
            Some(transition) => {
                nest(&mut self.kinds, transition.act)?;
                self.control = transition.control;
                Ok(Some(Step {
                    spot,
                    before,
                    act: transition.act,
                }))
            }
        }
    }
}

/// The last of some kinds; that of a body, where there is none.
fn last_kind(kinds: &[Kind]) -> Kind
    ensures { result ≡ innermost (reverse kinds.now) }
{
    match kinds.last() {
        Some(kind) => *kind,
        None => Kind::Body,
    }
}

/// Opens or closes a block.
fn nest(kinds: &mut Vec<Kind>, act: Act<'_>) -> Result<(), AllocError>
    ensures { IfOk result (λ _. reverse kinds.new.items ≡ kinds_after (act_of act.entry) (reverse kinds.old.items)) }
{
    match act {
        Act::Begin(Opening::OfIf(_)) => kinds.push(Kind::Then)?,
        Act::Begin(_) => kinds.push(Kind::Inner)?,
        Act::Close => close(kinds),
        _ => {}
    }
    Ok(())
}

/// Closes the innermost block, if there is one.
fn close(kinds: &mut Vec<Kind>)
    ensures { reverse kinds.new.items ≡ outer_kinds (reverse kinds.old.items) }
{
    let _ = kinds.pop();
}
