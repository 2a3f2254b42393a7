//! Reading bytes as tokens: the longest token first, blanks between.
ghost use Rattle.std.specs.Prelude.{◌≡◌, ◌+◌, ◌^◌, ◌<◌, ◌≤◌, length, drop};
ghost use Rattle.asl_grammar.specs.Lex.{tokens_of, bad_place, IsAtToken};

use crate::lexeme::{blanks_len, longest_token};
use crate::token::{Spot, Token};

/// What a reader of tokens finds next: a token, the end of the text, or a place where no token stands.
#[derive(Clone, Copy)]
pub enum Found<'t> {
    Token(Spot<'t>),
    End,
    Bad(usize),
}

/// The tokens of a text, one after the other.
#[derive(Clone, Copy)]
pub struct Tokens<'t> {
    rest: &'t [u8],
    at: usize,
    ghost fits: { at + length rest.now < 2 ^ 64 },
}

impl<'t> Tokens<'t> {
    ghost use Rattle.asl_grammar.specs.Reader.{spots_left, bad_left, IsFound, IsShorter, IsStill};

    /// The tokens of `text`.
    pub fn new(text: &'t [u8]) -> Tokens<'t>
        ensures tokens { spots_left result ≡ tokens_of text.now }
        ensures bad { bad_left result ≡ bad_place text.now }
    {
        Tokens { rest: text, at: 0 }
    }

    /// Passes the next `n` bytes.
    fn pass(&mut self, n: usize)
        requires { n ≤ length self.old.rest.now }
        ensures rest { self.new.rest.now ≡ drop n self.old.rest.now }
        ensures at { self.new.at ≡ self.old.at + n }
    {
        self.rest = &self.rest[n..];
        self.at += n;
    }

    /// Passes the blanks in front.
    fn skip_blanks(&mut self)
        ensures tokens { spots_left self.new ≡ spots_left self.old }
        ensures bad { bad_left self.new ≡ bad_left self.old }
        ensures shorter { length self.new.rest.now ≤ length self.old.rest.now }
        ensures at_token { IsAtToken self.new.rest.now }
    {
        let blanks = blanks_len(self.rest);
        self.pass(blanks);
    }

    /// The next token. After the last one, or at a place where none stands, it answers the same again and again.
    #[inline(always)]
    pub fn next(&mut self) -> Found<'t>
        ensures found { IsFound self.old result self.new }
        ensures still { IsStill result self.old self.new }
        ensures shorter { IsShorter result self.old self.new }
    {
        self.skip_blanks();
        if self.rest.is_empty() {
            return Found::End;
        }
        let at = self.at;
        match longest_token(self.rest) {
            None => Found::Bad(at),
            Some(lexeme) => {
                self.pass(lexeme.len);
                Found::Token(Spot {
                    token: lexeme.token,
                    at,
                })
            }
        }
    }
}

/// The first place of `text` where neither a blank nor a token stands.
pub fn first_bad(text: &[u8]) -> Option<usize>
    ensures { result ≡ bad_place text.now }
{
    let mut tokens = Tokens::new(text);
    'reading: loop {
        match tokens.next() {
            Found::Token(_) => {}
            Found::End => return None,
            Found::Bad(at) => return Some(at),
        }
    }
}
