//! Where names are declared, by the tokens of a text.
ghost use Rattle.std.specs.Prelude.{◌≡◌, false, IfSome, IfNone};
ghost use Rattle.asl_grammar.specs.Lex.{tokens_of};
ghost use Rattle.asl_grammar.specs.View.{token_of};
ghost use Rattle.asl_diagnose_text.specs.Places.{declares_after, AreFirstDeclaredAt};
ghost use Rattle.asl_diagnose_text.specs.SeenView.{is_twice, seen_nothing};

use crate::word_place::{Word, is_named, is_word};
use asl_grammar::lexer::{Found, Tokens};
use asl_grammar::token::{Mark, Spot, Token};

/// What the next name declares.
#[derive(Clone, Copy, PartialEq, Eq)]
pub enum Declares {
    Global,
    Function,
    Parameter,
    Nothing,
}

/// What the next name declares after a token.
pub fn declares_after(next: Declares, token: Token<'_>) -> Declares
    ensures { result ≡ declares_after next (token_of token.entry) }
{
    match token {
        Token::Fixed(Mark::Global) => Declares::Global,
        Token::Fixed(Mark::Fn) => Declares::Function,
        Token::Fixed(Mark::CloseParen) => Declares::Nothing,
        Token::Name(_) => match next {
            Declares::Function | Declares::Parameter => Declares::Parameter,
            Declares::Global | Declares::Nothing => Declares::Nothing,
        },
        _ => next,
    }
}

/// Where a name was declared so far, in each name space; of parameters in the present function.
#[derive(Clone, Copy)]
struct Seen {
    next: Declares,
    global: Option<usize>,
    function: Option<usize>,
    parameter: Option<usize>,
}

impl Seen {
    ghost use Rattle.asl_grammar.specs.View.{spot_of};
    ghost use Rattle.asl_diagnose_text.specs.SeenView.{seen_nothing, cell, again, noted, passed};

    /// Nowhere.
    fn new() -> Seen
        ensures { result ≡ seen_nothing }
    {
        Seen {
            next: Declares::Nothing,
            global: None,
            function: None,
            parameter: None,
        }
    }

    /// Where the name space of the next name has the name.
    fn earlier(&self) -> Option<usize>
        ensures { result ≡ cell self.now self.now.next }
    {
        match self.next {
            Declares::Global => self.global,
            Declares::Function => self.function,
            Declares::Parameter => self.parameter,
            Declares::Nothing => None,
        }
    }

    /// Where the name was declared before, if a token declares it again.
    fn again(&self, token: Token<'_>, name: &[u8]) -> Option<usize>
        ensures { result ≡ again name.now self.now (token_of token.entry) }
    {
        if is_named(token, name) {
            self.earlier()
        } else {
            None
        }
    }

    /// Notes the name at a place.
    fn note(&mut self, at: usize)
        ensures { self.new ≡ noted self.old at }
    {
        match self.next {
            Declares::Global => self.global = Some(at),
            Declares::Function => self.function = Some(at),
            Declares::Parameter => self.parameter = Some(at),
            Declares::Nothing => {}
        }
    }

    /// Goes past a token.
    fn pass(&mut self, spot: Spot<'_>, name: &[u8])
        ensures { self.new ≡ passed name.now self.old (spot_of spot.entry) }
    {
        if is_named(spot.token, name) {
            self.note(spot.at);
        }
        if is_word(Word::Fn, spot.token) {
            self.parameter = None;
        }
        self.next = declares_after(self.next, spot.token);
    }
}

/// The places of the first two declarations of a name in one name space.
pub fn twice_places(text: &[u8], name: &[u8]) -> Option<(usize, usize)>
    ensures some { IfSome result (λ places. AreFirstDeclaredAt (tokens_of text.now) name.now places.0 places.1) }
    ensures none { IfNone result (is_twice name.now seen_nothing (tokens_of text.now) ≡ false) }
{
    let mut tokens = Tokens::new(text);
    let mut seen = Seen::new();
    'reading: while let Found::Token(spot) = tokens.next() {
        match seen.again(spot.token, name) {
            Some(first) => return Some((first, spot.at)),
            None => seen.pass(spot, name),
        }
    }
    None
}

/// What the name at a place declares.
pub fn declares_at(text: &[u8], at: usize) -> Declares {
    let mut tokens = Tokens::new(text);
    let mut next = Declares::Nothing;
    'reading: while let Found::Token(spot) = tokens.next() {
        if spot.at >= at {
            return next;
        }
        next = declares_after(next, spot.token);
    }
    Declares::Nothing
}
