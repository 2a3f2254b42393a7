//! The rules of names.
ghost use Rattle.std.specs.Prelude.{◌≡◌, map, if◌then◌else◌, Some, None, IfOk};
ghost use Rattle.std.specs.Option.{option_copied};
ghost use Rattle.asl_syntax.specs.MentionView.{mention_of, mentions_of};
ghost use Rattle.asl_syntax.specs.Rules.{no_name, first_twice, declared_in, names_in, unknown_use, unknown_in_function, first_unknown, name_places, places_with, is_main, has_main};
ghost use Rattle.asl_grammar.specs.Reader.{spots_left};
ghost use Rattle.asl_syntax.specs.Mentions.{function_mentions};
ghost use Rattle.asl_syntax.specs.View.{function_of, item_of};
ghost use Rattle.asl_syntax.specs.declared.names.Space.TheVariants.{Globals, Functions};
ghost use Rattle.asl_syntax.specs.NumberedNamesView.{names_known};

use crate::ident::Ident;
use crate::mentions::{Mention, push_function};
use crate::name::Name;
use crate::numbered_names::NumberedNames;
use crate::tree::{Function, Item};
use asl_grammar::lexer::{Found, Tokens};
use asl_grammar::token::Token;
use std::alloc::{AllocError, Global};

/// A name space.
#[derive(Clone, Copy)]
pub enum Space {
    Globals,
    Functions,
    Locals,
    /// The parameters of one function, without its other locals.
    Parameters,
}

/// The first name that is declared a second time: of globals, of functions, or of the parameters of one function.
pub fn first_twice(alloc: Global, mentions: &[Mention<'_, '_>]) -> Result<Option<Name>, AllocError>
    ensures { IfOk result (λ o. o ≡ first_twice no_name no_name no_name (mentions_of mentions.now)) }
{
    let mut globals = NumberedNames::new(alloc);
    let mut functions = NumberedNames::new(alloc);
    let mut parameters = NumberedNames::new(alloc);
    for mention in mentions {
        match mention {
            Mention::Global(x) => {
                if globals.has(x) {
                    return Ok(Some(x.to_name()));
                }
                globals.add(x, 0)?;
            }
            Mention::Function(x) => {
                if functions.has(x) {
                    return Ok(Some(x.to_name()));
                }
                functions.add(x, 0)?;
                parameters = NumberedNames::new(alloc);
            }
            Mention::Parameter(x) => {
                if parameters.has(x) {
                    return Ok(Some(x.to_name()));
                }
                parameters.add(x, 0)?;
            }
            _ => {}
        }
    }
    Ok(None)
}

/// The name that a mention declares in a name space.
fn declared_in<'a, 't>(space: Space, mention: Mention<'a, 't>) -> Option<&'a Ident<'t>>
    ensures { option_copied result ≡ declared_in space (mention_of mention.entry) }
{
    match (space, mention) {
        (Space::Globals, Mention::Global(x)) => Some(x),
        (Space::Functions, Mention::Function(x)) => Some(x),
        (Space::Locals, Mention::Parameter(x)) => Some(x),
        (Space::Locals, Mention::Assigned(x)) => Some(x),
        (Space::Parameters, Mention::Parameter(x)) => Some(x),
        _ => None,
    }
}

/// The names that are declared in a name space.
fn names_in<'t>(
    alloc: Global,
    space: Space,
    mentions: &[Mention<'_, 't>],
) -> Result<NumberedNames<'t>, AllocError>
    ensures { IfOk result (λ known. names_known known ≡ names_in space (mentions_of mentions.now)) }
{
    let mut known = NumberedNames::new(alloc);
    let mut i = mentions.len();
    while i > 0 {
        i -= 1;
        if let Some(name) = declared_in(space, mentions[i]) {
            known.add(name, 0)?;
        }
    }
    Ok(known)
}

/// The name, if it is not known.
fn missing<'a, 't>(known: &NumberedNames<'_>, name: &'a Ident<'t>) -> Option<&'a Ident<'t>>
    ensures { option_copied result ≡ (if names_known known.now name.now then None else Some name.now) }
{
    if known.has(name) { None } else { Some(name) }
}

/// A used name that its name space does not have.
fn unknown_use<'a, 't>(
    globals: &NumberedNames<'_>,
    functions: &NumberedNames<'_>,
    locals: &NumberedNames<'_>,
    mention: Mention<'a, 't>,
) -> Option<&'a Ident<'t>>
    ensures { option_copied result ≡ unknown_use (names_known globals.now) (names_known functions.now) (names_known locals.now) (mention_of mention.entry) }
{
    match mention {
        Mention::Local(x) => missing(locals, x),
        Mention::GlobalUse(x) => missing(globals, x),
        Mention::Call(x, _) => missing(functions, x),
        _ => None,
    }
}

/// The first name of a function that is used and not known. `own` is a place for its mentions, whatever is there.
fn unknown_in_function<'a, 't>(
    alloc: Global,
    globals: &NumberedNames<'_>,
    functions: &NumberedNames<'_>,
    function: &'a Function<'t>,
    own: &mut Vec<Mention<'a, 't>>,
) -> Result<Option<Name>, AllocError>
    ensures { IfOk result (λ o. o ≡ unknown_in_function (names_known globals.now) (names_known functions.now) (function_mentions (function_of function.now))) }
{
    own.clear();
    push_function(own, function)?;
    let locals = names_in(alloc, Space::Locals, own.as_slice())?;
    for mention in own.as_slice() {
        if let Some(name) = unknown_use(globals, functions, &locals, *mention) {
            return Ok(Some(name.to_name()));
        }
    }
    Ok(None)
}

/// The first name of a program that is used and nowhere declared.
pub fn unknown(
    alloc: Global,
    items: &[Item<'_>],
    mentions: &[Mention<'_, '_>],
) -> Result<Option<Name>, AllocError>
    ensures { IfOk result (λ o. o ≡ first_unknown (names_in Globals (mentions_of mentions.now)) (names_in Functions (mentions_of mentions.now)) (map item_of items.now)) }
{
    let globals = names_in(alloc, Space::Globals, mentions)?;
    let functions = names_in(alloc, Space::Functions, mentions)?;
    let mut own = Vec::new(alloc);
    for item in items {
        if let Item::Function(function) = item {
            if let Some(name) = unknown_in_function(
                alloc, &globals, &functions, function, &mut own,
            )? {
                return Ok(Some(name));
            }
        }
    }
    Ok(None)
}

/// The place of the next name token.
pub fn next_name(tokens: &mut Tokens<'_>) -> Option<usize>
    ensures { name_places (spots_left tokens.old) ≡ places_with result (name_places (spots_left tokens.new)) }
{
    'reading: while let Found::Token(spot) = tokens.next() {
        if let Token::Name(_) = spot.token {
            return Some(spot.at);
        }
    }
    None
}

/// Whether an item is a function `main` of one parameter.
fn is_main(item: &Item<'_>) -> bool
    ensures { result ≡ is_main (item_of item.now) }
{
    match item {
        Item::Global(_) => false,
        Item::Function(function) => function.name.as_slice() == b"main".as_slice()
            && function.parameters.len() == 1,
    }
}

/// Whether there is a function `main` of one parameter.
pub fn has_main(items: &[Item<'_>]) -> bool
    ensures { result ≡ has_main (map item_of items.now) }
{
    for item in items {
        if is_main(item) {
            return true;
        }
    }
    false
}
