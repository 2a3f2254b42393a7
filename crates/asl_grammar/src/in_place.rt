//! Judging tokens without memory. The kinds of the innermost open blocks stand in a fixed place; once these blocks are closed,
//! the text is read again for the kinds of those around them.

ghost use Rattle.std.specs.Prelude.{◌≡◌, ◌+◌, ◌-◌, ◌<◌, ◌≤◌, ◌^◌, ℕ, List, [], ◌∷◌, Some, max, length};
ghost use Rattle.asl_grammar.specs.declared.control.Kind.{Kind};
ghost use Rattle.asl_grammar.specs.Lex.{tokens_of};
ghost use Rattle.asl_grammar.specs.Automaton.{step};
ghost use Rattle.asl_grammar.specs.Seen.{Place, innermost, settled, kinds_after};
ghost use Rattle.asl_grammar.specs.View.{token_of};
ghost use Rattle.asl_grammar.specs.ControlView.{control_of, act_of};
ghost use Rattle.asl_grammar.specs.Grammar.{Judges};
ghost use Rattle.asl_grammar.specs.Recent.{place_after, taken_kind, IsRecent, HasInnermost, IsAfter};

use crate::control::{Act, Control, Kind};
use crate::control_step::{fault_at_end, opening_kind, settled, step};
use crate::lexer::{Found, Tokens};
use crate::token::Token;

/// Of how many open blocks the kinds are kept.
const SPAN: usize = 1024;

/// How many blocks are open, and the kinds of the innermost ones: that of a block which stands in n others at n modulo the
/// span. Of the outer ones, as many as are lost, the kinds are not there.
#[derive(Drop)]
struct Recent {
    depth: usize,
    lost: usize,
    kinds: [Kind; SPAN],
}

/// The kind as which a block is taken, where so many are open, while a text is read again: any `else` may follow it.
#[inline(always)]
fn taken_kind(depth: usize) -> Kind
    ensures { result ≡ taken_kind depth }
{
    match depth {
        0 => Kind::Body,
        _ => Kind::Then,
    }
}

impl Recent {
    /// No block is open.
    fn new() -> Recent
        ensures recent { (to : ℕ) → IsRecent result [] to }
        ensures lost { result.lost ≡ 0 }
    {
        Recent {
            depth: 0,
            lost: 0,
            kinds: [Kind::Body; SPAN],
        }
    }

    /// The kind of the innermost open block.
    fn innermost(&self) -> Kind
        ensures { (ks : List Kind) (to : ℕ) → IsRecent self.now ks to → length ks ≤ to → HasInnermost self.now → result ≡ innermost ks }
    {
        if self.depth == 0 {
            Kind::Body
        } else {
            self.kinds[(self.depth - 1) % SPAN]
        }
    }

    /// Opens a block. Its kind is kept where fewer than `to` are open.
    fn push(&mut self, kind: Kind, to: usize)
        requires { self.old.depth + 1 < 2 ^ 64 }
        ensures recent { (ks : List Kind) → IsRecent self.old ks to → IsRecent self.new (kind ∷ ks) to }
        ensures depth { self.new.depth ≡ self.old.depth + 1 }
        ensures lost { self.new.lost ≤ max self.old.lost (to - 1024) }
    {
        if self.depth < to {
            self.kinds[self.depth % SPAN] = kind;
            self.lost = self.lost.max((self.depth + 1).saturating_sub(SPAN));
        }
        self.depth += 1;
    }

    /// Opens or closes a block. The kind of one that opens is kept where fewer than `to` are open.
    fn nest(&mut self, act: Act<'_>, to: usize)
        requires { self.old.depth + 1 < 2 ^ 64 }
        ensures recent { (ks : List Kind) → IsRecent self.old ks to → IsRecent self.new (kinds_after (act_of act.entry) ks) to }
        ensures depth { self.new.depth ≤ self.old.depth + 1 }
        ensures lost { self.new.lost ≤ max self.old.lost (to - 1024) }
    {
        match act {
            Act::Begin(opening) => self.push(opening_kind(opening), to),
            Act::Close => self.depth = self.depth.saturating_sub(1),
            _ => {}
        }
    }

    /// The control after a token in a block of a kind, or nothing where the token may not stand.
    fn advance<'t>(
        &mut self,
        control: Control<'t>,
        kind: Kind,
        token: Token<'t>,
        to: usize,
    ) -> Option<Control<'t>>
        requires { self.old.depth + 1 < 2 ^ 64 }
        ensures next { (ks : List Kind) → IsRecent self.old ks to
            → IsAfter (step (settled (control_of control.entry) (token_of token.entry)) kind (token_of token.entry)) ks to result self.new }
        ensures depth { self.new.depth ≤ self.old.depth + 1 }
        ensures lost { self.new.lost ≤ max self.old.lost (to - 1024) }
    {
        let transition = step(settled(control, token), kind, token)?;
        self.nest(transition.act, to);
        Some(transition.control)
    }

    /// What is kept after the first `count` tokens of `text`, where `depth` blocks are open then: they are read again.
    fn recall(text: &[u8], count: usize, depth: usize) -> Recent
        ensures { (p : Place) → place_after count (tokens_of text.now) ≡ Some p → depth ≡ length p.kinds → 0 < depth
            → IsRecent result p.kinds depth × HasInnermost result }
    {
        let mut tokens = Tokens::new(text);
        let mut recent = Recent::new();
        let mut control = Control::ItemStart;
        let mut left = count;
        'again: while left > 0 {
            let Found::Token(spot) = tokens.next() else {
                return recent;
            };
            let kind = taken_kind(recent.depth);
            let Some(next) = recent.advance(control, kind, spot.token, depth) else {
                return recent;
            };
            control = next;
            left -= 1;
        }
        recent
    }

    /// Sees to it that the kind of the innermost block is there, after the first `count` tokens of `text`.
    fn keep(&mut self, text: &[u8], count: usize)
        ensures { (p : Place) (to : ℕ) → place_after count (tokens_of text.now) ≡ Some p → IsRecent self.old p.kinds to
            → IsRecent self.new p.kinds to × HasInnermost self.new }
    {
        if self.depth > 0 && self.lost >= self.depth {
            *self = Recent::recall(text, count, self.depth);
        }
    }
}

/// The place of the first token with which no program continues, or the text's length where it stops too early; nothing
/// where the tokens are a program. It takes no memory, and the square of the time where blocks are deep.
pub fn fault_in_place(text: &[u8]) -> Option<usize>
    ensures { Judges (tokens_of text.now) (length text.now) result }
{
    let mut tokens = Tokens::new(text);
    let mut recent = Recent::new();
    let mut control = Control::ItemStart;
    let mut count = 0;
    'reading: while let Found::Token(spot) = tokens.next() {
        recent.keep(text, count);
        let kind = recent.innermost();
        match recent.advance(control, kind, spot.token, usize::MAX) {
            None => return Some(spot.at),
            Some(next) => control = next,
        }
        count += 1;
    }
    fault_at_end(control, text.len())
}
