//! The limits of a source text.

ghost use Rattle.std.specs.Prelude.{◌≡◌, ◌≤◌, min, false, []};
ghost use Rattle.std.specs.Option.{option_map, ForSome};
ghost use Rattle.asl_grammar.specs.Lex.{number_value, tokens_of};
ghost use Rattle.asl_grammar.specs.View.{token_of};
ghost use Rattle.asl_syntax.specs.Limit.{number_over, limit_from, byte_over, first_place, first_limit};
ghost use Rattle.asl_syntax.specs.Parsed.{first_wide};
ghost use Rattle.asl_syntax.specs.Reached.{IsReach};

use asl_grammar::lexer::{Found, Tokens};
use asl_grammar::token::{Mark, Token};

/// The most bytes that a text has.
pub const MAX_BYTES: usize = 1_048_576;

/// The place of the first byte that is not ASCII.
pub fn first_wide(text: &[u8]) -> Option<usize>
    ensures { result ≡ first_wide text.now }
{
    text.iter().position(|b| *b >= 128)
}

/// The value of decimal digits, or the greatest number where that is greater.
pub fn capped_value(digits: &[u8]) -> u32
    ensures { result ≡ min (number_value digits.now) 4294967295 }
{
    let mut value = 0u32;
    for d in digits {
        value = value
            .saturating_mul(10)
            .saturating_add(u32::from(d.saturating_sub(b'0')));
    }
    value
}

/// Whether a number is out of the range that the token before it asks for.
fn number_over(last: Option<Token<'_>>, digits: &[u8]) -> bool
    ensures { result ≡ number_over (option_map token_of last.entry) (number_value digits.now) }
{
    let value = capped_value(digits);
    match last {
        Some(Token::Fixed(Mark::OpenBracket)) => value > 255,
        Some(Token::Fixed(Mark::New)) => value == 0 || value > 255,
        Some(Token::Fixed(Mark::Minus)) => value > 2_147_483_648,
        _ => value > 2_147_483_647,
    }
}

/// What limits count, of the tokens so far.
#[derive(Clone, Copy)]
pub struct Counts<'t> {
    last: Option<Token<'t>>,
    functions: u32,
    globals: u32,
    atomics: u32,
    braces: u32,
    head: Option<u32>,
    ghost few_functions: { functions ≤ 256 },
    ghost few_globals: { globals ≤ 1024 },
    ghost few_atomics: { atomics ≤ 1024 },
    ghost few_braces: { braces ≤ 64 },
    ghost few_names: { ForSome head (λ n. n ≤ 5) },
}

impl<'t> Counts<'t> {
    ghost use Rattle.asl_syntax.specs.Limit.{is_over, is_fifth, tally_of};
    ghost use Rattle.asl_syntax.specs.Tallied.{noted, head_after};
    ghost use Rattle.asl_syntax.specs.TallyView.{tally_in};

    /// No token so far.
    pub fn new() -> Counts<'t>
        ensures { tally_in result ≡ tally_of [] }
    {
        Counts {
            last: None,
            functions: 0,
            globals: 0,
            atomics: 0,
            braces: 0,
            head: None,
        }
    }

    /// Whether a name here would be a function's fifth parameter.
    #[inline(always)]
    fn is_fifth(&self) -> bool
        ensures { result ≡ is_fifth self.now.head }
    {
        match self.head {
            None => false,
            Some(n) => n >= 5,
        }
    }

    /// Whether the token goes past a limit. Of 64 braces that may be open one is the body of the function.
    #[inline(always)]
    pub fn is_over(&self, token: Token<'_>) -> bool
        ensures { result ≡ is_over (tally_in self.now) (token_of token.entry) }
    {
        match token {
            Token::Fixed(Mark::Fn) => self.functions >= 256,
            Token::Fixed(Mark::Global) => self.globals >= 1024,
            Token::Fixed(Mark::Atomic) => self.atomics >= 1024,
            Token::Fixed(Mark::OpenBrace) => self.braces >= 64,
            Token::Fixed(_) => false,
            Token::Name(name) => name.len() > 64 || self.is_fifth(),
            Token::Number(digits) => number_over(self.last, digits),
        }
    }

    /// Counts a token that goes past no limit.
    #[inline(always)]
    pub fn note(&mut self, token: Token<'t>)
        requires { is_over (tally_in self.old) (token_of token) ≡ false }
        ensures { tally_in self.new ≡ noted (tally_in self.old) (token_of token.entry) }
    {
        self.head = self.head_after(token);
        match token {
            Token::Fixed(Mark::Fn) => self.functions += 1,
            Token::Fixed(Mark::Global) => self.globals += 1,
            Token::Fixed(Mark::Atomic) => self.atomics += 1,
            Token::Fixed(Mark::OpenBrace) => self.braces += 1,
            Token::Fixed(Mark::CloseBrace) => self.braces = self.braces.saturating_sub(1),
            _ => {}
        }
        self.last = Some(token);
    }

    /// How many names stand in the head of a function after one more token, or nothing where that belongs to no head.
    #[inline(always)]
    fn head_after(&self, token: Token<'_>) -> Option<u32>
        ensures told { result ≡ head_after self.now.head (token_of token.entry) }
        ensures few { is_over (tally_in self.now) (token_of token.entry) ≡ false → ForSome result (λ n. n ≤ 5) }
    {
        match token {
            Token::Fixed(Mark::Fn) => Some(0),
            Token::Fixed(Mark::OpenParen | Mark::Comma) => self.head,
            Token::Name(_) => match self.head {
                None => None,
                Some(names) => Some(names + 1),
            },
            _ => None,
        }
    }
}

/// How far a text is tokens within the limits.
#[derive(Clone, Copy)]
pub enum Extent {
    /// To its end.
    End,
    /// To a place where neither a blank nor a token stands.
    Bad(usize),
    /// To a token that goes past a limit.
    Over(usize),
}

/// Reads a text up to its end, a place where no token stands, or the first token that goes past a limit.
pub fn reach(text: &[u8]) -> Extent
    ensures { IsReach text.now result }
{
    let mut tokens = Tokens::new(text);
    let mut counts = Counts::new();
    'reading: loop {
        match tokens.next() {
            Found::Token(spot) => {
                if counts.is_over(spot.token) {
                    return Extent::Over(spot.at);
                }
                counts.note(spot.token);
            }
            Found::End => return Extent::End,
            Found::Bad(at) => return Extent::Bad(at),
        }
    }
}

/// The first byte of a text of `len` bytes that is too many.
fn byte_over(len: usize) -> Option<usize>
    ensures { result ≡ byte_over len }
{
    if len > MAX_BYTES {
        Some(MAX_BYTES)
    } else {
        None
    }
}

/// The first of two places.
fn first_place(one: Option<usize>, other: Option<usize>) -> Option<usize>
    ensures { result ≡ first_place one other }
{
    match (one, other) {
        (None, _) => other,
        (_, None) => one,
        (Some(a), Some(b)) => Some(a.min(b)),
    }
}

/// The first place of `text` where a limit is passed, where `over` is that of a token.
pub fn first_limit(text: &[u8], over: Option<usize>) -> Option<usize>
    requires { over ≡ limit_from [] (tokens_of text.now) }
    ensures { result ≡ first_limit text.now }
{
    first_place(over, byte_over(text.len()))
}
