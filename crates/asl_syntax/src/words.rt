//! The names of a text in order, each with what it does where it stands. They are read from its tokens, with no memory.

ghost use Rattle.std.specs.Prelude.{◌≡◌};
ghost use Rattle.asl_grammar.specs.Grammar.{bare};
ghost use Rattle.asl_grammar.specs.Lex.{tokens_of};
ghost use Rattle.asl_grammar.specs.Reader.{spots_left};
ghost use Rattle.asl_grammar.specs.View.{token_of};
ghost use Rattle.asl_syntax.specs.Heard.{told, in_head, after, names_to_close, address_mention, plain_mention, mention_at, heard};
ghost use Rattle.asl_syntax.specs.WordView.{word_of};
ghost use Rattle.asl_syntax.specs.declared.words.Before.TheVariants.{Plain};

use asl_grammar::lexer::{Found, Tokens};
use asl_grammar::token::{Mark, Token};

/// What stands before a token, as far as it tells what a name does there.
#[derive(Clone, Copy)]
pub enum Before {
    Plain,
    Global,
    Fn,
    /// The head of a function, after its name.
    Head,
    Star,
    Ampersand,
}

/// A name of a text, and what it does where it stands.
#[derive(Clone, Copy)]
pub enum Word<'t> {
    Global(&'t [u8]),
    Function(&'t [u8]),
    Parameter(&'t [u8]),
    Assigned(&'t [u8]),
    Local(&'t [u8]),
    GlobalUse(&'t [u8]),
    /// A call, with how many arguments.
    Call(&'t [u8], usize),
}

/// What a token outside of heads tells of the next.
fn told(token: Token<'_>) -> Before
    ensures { result ≡ told (token_of token.entry) }
{
    match token {
        Token::Fixed(Mark::Global) => Before::Global,
        Token::Fixed(Mark::Fn) => Before::Fn,
        Token::Fixed(Mark::Star) => Before::Star,
        Token::Fixed(Mark::Ampersand) => Before::Ampersand,
        _ => Before::Plain,
    }
}

/// What a token in a function's head tells of the next.
fn in_head(token: Token<'_>) -> Before
    ensures { result ≡ in_head (token_of token.entry) }
{
    match token {
        Token::Fixed(Mark::OpenBrace) => Before::Plain,
        _ => Before::Head,
    }
}

/// What stands before the next token, after one more.
fn after(before: Before, token: Token<'_>) -> Before
    ensures { result ≡ after before (token_of token.entry) }
{
    match before {
        Before::Head => in_head(token),
        Before::Fn => Before::Head,
        _ => told(token),
    }
}

/// How many names stand before the next closing parenthesis.
fn names_to_close(mut tokens: Tokens<'_>) -> usize
    ensures { result ≡ names_to_close (bare (spots_left tokens.entry)) }
{
    let mut count = 0usize;
    'reading: while let Found::Token(spot) = tokens.next() {
        match spot.token {
            Token::Fixed(Mark::CloseParen) => return count,
            Token::Name(_) => count += 1,
            _ => {}
        }
    }
    count
}

/// What a name after `&` does: its address is taken, or, before a bracket, the address in it is moved.
fn address_word<'t>(name: &'t [u8], mut rest: Tokens<'t>) -> Word<'t>
    ensures { word_of result ≡ address_mention name.now (bare (spots_left rest.entry)) }
{
    match rest.next() {
        Found::Token(spot) => match spot.token {
            Token::Fixed(Mark::OpenBracket) => Word::Local(name),
            _ => Word::GlobalUse(name),
        },
        _ => Word::GlobalUse(name),
    }
}

/// What a name does that the token after it tells.
fn plain_word<'t>(name: &'t [u8], mut rest: Tokens<'t>) -> Word<'t>
    ensures { word_of result ≡ plain_mention name.now (bare (spots_left rest.entry)) }
{
    match rest.next() {
        Found::Token(spot) => match spot.token {
            Token::Fixed(Mark::Becomes) => Word::Assigned(name),
            Token::Fixed(Mark::OpenParen) => Word::Call(name, names_to_close(rest)),
            _ => Word::Local(name),
        },
        _ => Word::Local(name),
    }
}

/// What a name does.
fn word_at<'t>(before: Before, name: &'t [u8], rest: Tokens<'t>) -> Word<'t>
    ensures { word_of result ≡ mention_at before name.now (bare (spots_left rest.entry)) }
{
    match before {
        Before::Global => Word::Global(name),
        Before::Fn => Word::Function(name),
        Before::Head => Word::Parameter(name),
        Before::Star => Word::Local(name),
        Before::Ampersand => address_word(name, rest),
        Before::Plain => plain_word(name, rest),
    }
}

/// The names of a text, one after the other.
#[derive(Clone, Copy)]
pub struct Words<'t> {
    tokens: Tokens<'t>,
    before: Before,
}

impl<'t> Words<'t> {
    ghost use Rattle.asl_syntax.specs.WordView.{words_left, IsHeard};

    /// The names of `text`.
    pub fn new(text: &'t [u8]) -> Words<'t>
        ensures { words_left result ≡ heard Plain (bare (tokens_of text.now)) }
    {
        Words {
            tokens: Tokens::new(text),
            before: Before::Plain,
        }
    }

    /// The next name.
    pub fn next(&mut self) -> Option<Word<'t>>
        ensures { IsHeard self.old result self.new }
    {
        'reading: while let Found::Token(spot) = self.tokens.next() {
            let before = self.before;
            self.before = after(before, spot.token);
            if let Token::Name(name) = spot.token {
                return Some(word_at(before, name, self.tokens));
            }
        }
        None
    }
}
