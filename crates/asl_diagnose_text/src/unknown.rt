//! Where a name is first used that is nowhere declared, by the tokens of a program.
ghost use Rattle.std.specs.Prelude.{◌≡◌, true, false, IfSome};
ghost use Rattle.asl_grammar.specs.Grammar.{bare};
ghost use Rattle.asl_grammar.specs.Lex.{tokens_of};
ghost use Rattle.asl_grammar.specs.Reader.{spots_left};
ghost use Rattle.asl_grammar.specs.View.{token_of};
ghost use Rattle.asl_diagnose_text.specs.Places.{is_named, IsNameAt};
ghost use Rattle.asl_diagnose_text.specs.UsesView.{declares_as, first_use, has_declared, has_local, is_function_name, lacks, local_after, passes, sets_local};

use crate::declared::Declares;
use crate::name_role::{Before, Role, Sign, declares_as, sets_local};
use crate::word_place::is_named;
use asl_grammar::lexer::{Found, Tokens};
use asl_grammar::token::Token;

/// Whether a token is the name, and is declared so, with these tokens after it.
fn is_declared(
    what: Declares,
    name: &[u8],
    before: Before,
    token: Token<'_>,
    rest: Tokens<'_>,
) -> bool
    ensures { result ≡ passes (declares_as what) name.now before.next before.sign (token_of token.entry) (bare (spots_left rest.entry)) }
{
    is_named(token, name) && declares_as(what, before.role(rest))
}

/// Whether a token is the name, and is a local.
fn is_set(name: &[u8], before: Before, token: Token<'_>, rest: Tokens<'_>) -> bool
    ensures { result ≡ passes sets_local name.now before.next before.sign (token_of token.entry) (bare (spots_left rest.entry)) }
{
    is_named(token, name) && sets_local(before.role(rest))
}

/// Which name spaces have the name.
#[derive(Clone, Copy)]
struct Known {
    globals: bool,
    functions: bool,
    locals: bool,
}

/// Whether a name that does this is used where its name space has it not.
fn lacks(known: Known, role: Role) -> bool
    ensures { result ≡ lacks known.globals known.functions known.locals role }
{
    match role {
        Role::Local => !known.locals,
        Role::GlobalUse => !known.globals,
        Role::Call => !known.functions,
        Role::Declares(_) => false,
        Role::Assigned => false,
    }
}

/// Whether a token is the name, and is used where its name space has it not.
fn is_use(name: &[u8], before: Before, token: Token<'_>, rest: Tokens<'_>, known: Known) -> bool
    ensures value { result ≡ passes (lacks known.globals known.functions known.locals) name.now before.next before.sign (token_of token.entry) (bare (spots_left rest.entry)) }
    ensures named { result ≡ true → is_named name.now (token_of token.entry) ≡ true }
{
    is_named(token, name) && lacks(known, before.role(rest))
}

/// Whether the name of a function stands there.
fn is_function_name(token: Token<'_>, next: Declares) -> bool
    ensures { result ≡ is_function_name (token_of token.entry) next }
{
    match token {
        Token::Name(_) => matches!(next, Declares::Function),
        Token::Fixed(_) => false,
        Token::Number(_) => false,
    }
}

/// Whether a text declares the name as a global, a function or a parameter.
pub fn has_declared(text: &[u8], name: &[u8], what: Declares) -> bool
    ensures { result ≡ has_declared what name.now Declares.Nothing Sign.Other (bare (tokens_of text.now)) }
{
    let mut tokens = Tokens::new(text);
    let mut before = Before::new();
    'reading: while let Found::Token(spot) = tokens.next() {
        if is_declared(what, name, before, spot.token, tokens) {
            return true;
        }
        before.pass(spot.token);
    }
    false
}

/// Whether the name is a local of the function in whose tokens these stand.
fn has_local(name: &[u8], start: Before, from: Tokens<'_>) -> bool
    ensures { result ≡ has_local name.now start.next start.sign (bare (spots_left from.entry)) }
{
    let mut tokens = from;
    let mut before = start;
    'reading: while let Found::Token(spot) = tokens.next() {
        if is_function_name(spot.token, before.next) {
            return false;
        }
        if is_set(name, before, spot.token, tokens) {
            return true;
        }
        before.pass(spot.token);
    }
    false
}

/// The same after a token: anew after the name of a function.
fn local_after(
    name: &[u8],
    before: Before,
    locals: bool,
    token: Token<'_>,
    rest: Tokens<'_>,
) -> bool
    ensures { result ≡ local_after name.now before.next before.sign locals (token_of token.entry) (bare (spots_left rest.entry)) }
{
    if !is_function_name(token, before.next) {
        return locals;
    }
    let mut here = before;
    here.pass(token);
    has_local(name, here, rest)
}

/// The place of the first use of a name that its name space does not have.
pub fn unknown_place(text: &[u8], name: &[u8]) -> Option<usize>
    ensures place { result ≡ first_use name.now
        (has_declared Declares.Global name.now Declares.Nothing Sign.Other (bare (tokens_of text.now)))
        (has_declared Declares.Function name.now Declares.Nothing Sign.Other (bare (tokens_of text.now)))
        false Declares.Nothing Sign.Other (tokens_of text.now) }
    ensures name { IfSome result (IsNameAt (tokens_of text.now) name.now) }
{
    let globals = has_declared(text, name, Declares::Global);
    let functions = has_declared(text, name, Declares::Function);
    let mut tokens = Tokens::new(text);
    let mut before = Before::new();
    let mut locals = false;
    'reading: while let Found::Token(spot) = tokens.next() {
        locals = local_after(name, before, locals, spot.token, tokens);
        let known = Known {
            globals,
            functions,
            locals,
        };
        if is_use(name, before, spot.token, tokens, known) {
            return Some(spot.at);
        }
        before.pass(spot.token);
    }
    None
}
