//! Calls of a function with another number of arguments than it has parameters.
ghost use Rattle.std.specs.Prelude.{◌≡◌, map, IfOk};
ghost use Rattle.std.specs.List.{list_any};
ghost use Rattle.asl_syntax.specs.Mentions.{value_mentions, statement_mentions, block_mentions, item_mentions, mentions};
ghost use Rattle.asl_syntax.specs.MentionView.{mention_of, mentions_of};
ghost use Rattle.asl_syntax.specs.Rules.{parameter_counts, differs, is_wrong_call, wrong_call, wrong_call_from, name_places};
ghost use Rattle.asl_grammar.specs.Lex.{tokens_of};
ghost use Rattle.asl_syntax.specs.View.{value_of, statement_of, block_of, item_of};
ghost use Rattle.asl_syntax.specs.NumberedNamesView.{counts_in};

use crate::ident::Ident;
use crate::mentions::{Mention, mentions};
use crate::names::next_name;
use crate::numbered_names::NumberedNames;
use crate::tree::{Item, Statement, Value};
use asl_grammar::lexer::Tokens;
use std::alloc::{AllocError, Global};

/// How many parameters each function has.
fn parameter_counts<'t>(alloc: Global, items: &[Item<'t>]) -> Result<NumberedNames<'t>, AllocError>
    ensures { IfOk result (λ known. counts_in known ≡ parameter_counts (map item_of items.now)) }
{
    let mut known = NumberedNames::new(alloc);
    let mut i = items.len();
    while i > 0 {
        i -= 1;
        if let Item::Function(function) = &items[i] {
            known.add(&function.name, function.parameters.len())?;
        }
    }
    Ok(known)
}

/// Whether the call of a function with so many arguments is wrong.
fn is_wrong(counts: &NumberedNames<'_>, function: &Ident<'_>, arguments: usize) -> bool
    ensures { result ≡ differs (counts_in counts.now function.now) arguments }
{
    match counts.find(function) {
        None => false,
        Some(parameters) => parameters != arguments,
    }
}

/// Whether a mention is a call with too many or too few arguments.
fn is_wrong_call(counts: &NumberedNames<'_>, mention: Mention<'_, '_>) -> bool
    ensures { result ≡ is_wrong_call (counts_in counts.now) (mention_of mention.entry) }
{
    match mention {
        Mention::Call(function, arguments) => is_wrong(counts, function, arguments),
        _ => false,
    }
}

/// Whether a value is a wrong call.
#[tactic(auto, using(crate::proofs::Bodies::one_of_call))]
fn value_is_wrong(counts: &NumberedNames<'_>, value: &Value<'_>) -> bool
    ensures { result ≡ list_any (is_wrong_call (counts_in counts.now)) (value_mentions (value_of value.now)) }
{
    match value {
        Value::Call(function, arguments) => is_wrong(counts, function, arguments.len()),
        Value::Number(_) => false,
        Value::Null => false,
        Value::Local(_) => false,
        Value::Binary(_, _, _) => false,
        Value::Global(_) => false,
        Value::Field(_, _) => false,
        Value::Load(_) => false,
        Value::New(_) => false,
    }
}

/// Whether statements have a wrong call.
#[cycle(calls)]
#[tactic(auto, using(crate::proofs::Bodies::one_of_both))]
fn block_has_wrong_call(counts: &NumberedNames<'_>, block: &[Statement<'_>]) -> bool
    ensures { result ≡ list_any (is_wrong_call (counts_in counts.now)) (block_mentions (block_of block.now)) }
{
    for statement in block {
        if statement_has_wrong_call(counts, statement) {
            return true;
        }
    }
    false
}

/// Whether a statement has a wrong call.
#[cycle(calls)]
#[tactic(auto, using(crate::proofs::Bodies::one_of_both))]
fn statement_has_wrong_call(counts: &NumberedNames<'_>, statement: &Statement<'_>) -> bool
    ensures { result ≡ list_any (is_wrong_call (counts_in counts.now)) (statement_mentions (statement_of statement.now)) }
{
    match statement {
        Statement::Assign(_, value) => value_is_wrong(counts, value),
        Statement::Store(_, _) => false,
        Statement::Out(_) => false,
        Statement::If(_, first, second) => block_has_wrong_call(counts, first)
            || block_has_wrong_call(counts, second),
        Statement::While(_, body) => block_has_wrong_call(counts, body),
        Statement::Atomic(body) => block_has_wrong_call(counts, body),
    }
}

/// Whether an item has a wrong call.
#[tactic(auto, using(crate::proofs::Bodies::one_of_body))]
fn item_has_wrong_call(counts: &NumberedNames<'_>, item: &Item<'_>) -> bool
    ensures { result ≡ list_any (is_wrong_call (counts_in counts.now)) (item_mentions (item_of item.now)) }
{
    match item {
        Item::Global(_) => false,
        Item::Function(function) => block_has_wrong_call(counts, &function.body),
    }
}

/// Whether a program has a wrong call.
#[tactic(auto, using(crate::proofs::Bodies::one_of_both))]
fn has_wrong_call(counts: &NumberedNames<'_>, items: &[Item<'_>]) -> bool
    ensures { result ≡ list_any (is_wrong_call (counts_in counts.now)) (mentions (map item_of items.now)) }
{
    for item in items {
        if item_has_wrong_call(counts, item) {
            return true;
        }
    }
    false
}

/// The place of the first wrong call, where the mentions are those of the name tokens of `text` one by one.
fn first_place(
    counts: &NumberedNames<'_>,
    mentions: &[Mention<'_, '_>],
    text: &[u8],
) -> Option<usize>
    ensures { result ≡ wrong_call_from (counts_in counts.now) (mentions_of mentions.now) (name_places (tokens_of text.now)) }
{
    let mut tokens = Tokens::new(text);
    for mention in mentions {
        let at = next_name(&mut tokens)?;
        if is_wrong_call(counts, *mention) {
            return Some(at);
        }
    }
    None
}

/// The place of the first wrong call of a program that `text` spells. The program's names are listed only where there is one.
#[tactic(auto, using(crate::proofs::Bodies::none_wrong))]
pub fn wrong_call(
    alloc: Global,
    items: &[Item<'_>],
    text: &[u8],
) -> Result<Option<usize>, AllocError>
    ensures { IfOk result (λ o. o ≡ wrong_call (map item_of items.now) (tokens_of text.now)) }
{
    let counts = parameter_counts(alloc, items)?;
    if !has_wrong_call(&counts, items) {
        return Ok(None);
    }
    let mentions = mentions(alloc, items)?;
    Ok(first_place(&counts, &mentions, text))
}
