//! From a text to its tree, or to its first fault.

ghost use Rattle.std.specs.Prelude.{◌≡◌, [], IfOk, IfErr, OnOk, MatchOption, map};
ghost use Rattle.asl_grammar.specs.Lex.{tokens_of};
ghost use Rattle.asl_syntax.specs.View.{items_of, item_of};
ghost use Rattle.asl_syntax.specs.AstView.{tree_of};
ghost use Rattle.asl_syntax.specs.Limit.{limit_from};
ghost use Rattle.asl_syntax.specs.Parsed.{IsLexed, IsSpelled, Parses, HasTree};
ghost use Rattle.asl_syntax.specs.Fault.{IsFault};
ghost use Rattle.asl_syntax.specs.Checked.{IsWritten};

use crate::ast::Ast;
use crate::build::build;
use crate::call_arity::wrong_call;
use crate::fault::SyntaxFault;
use crate::mentions::declarations;
use crate::name::Name;
use crate::names::{first_twice, has_main, unknown};
use crate::scan;
use crate::source_limits::{Extent, first_limit, first_wide, reach};
use crate::tree::Item;
use asl_grammar::lexer::first_bad;
use asl_grammar::recognizer::first_fault;
use std::alloc::{AllocError, Global};

/// Whether the text is blanks and tokens throughout; if so, the place of the first token that goes past a limit.
fn check_tokens(text: &[u8]) -> Result<Option<usize>, SyntaxFault>
    ensures ok { OnOk result (IsLexed text.now) }
    ensures over { IfOk result (λ over. over ≡ limit_from [] (tokens_of text.now)) }
    ensures err { IfErr result (IsFault text.now) }
{
    if let Some(at) = first_wide(text) {
        return Err(SyntaxFault::NotAscii(at));
    }
    match reach(text) {
        Extent::End => Ok(None),
        Extent::Bad(at) => Err(SyntaxFault::Token(at)),
        Extent::Over(over) => match first_bad(text) {
            Some(at) => Err(SyntaxFault::Token(at)),
            None => Ok(Some(over)),
        },
    }
}

/// Whether the tokens of a text are a program within the limits.
fn check_text(alloc: Global, text: &[u8]) -> Result<(), SyntaxFault>
    ensures ok { OnOk result (IsWritten text.now) }
    ensures err { IfErr result (IsFault text.now) }
{
    let over = check_tokens(text)?;
    if let Some(at) = first_fault(alloc, text) {
        return Err(SyntaxFault::Grammar(at));
    }
    if let Some(at) = first_limit(text, over) {
        return Err(SyntaxFault::Limit(at));
    }
    Ok(())
}

/// The first fault of a program's names, judged by maps.
#[tactic(auto, using(crate::proofs::Bodies::declared_twice, crate::proofs::Bodies::declared_globals, crate::proofs::Bodies::declared_functions))]
fn find_by_maps(
    alloc: Global,
    items: &[Item<'_>],
    text: &[u8],
) -> Result<Option<SyntaxFault>, AllocError>
    requires { IsSpelled text.now (map item_of items.now) }
    ensures { IfOk result (λ found. MatchOption found (Parses text.now (map item_of items.now)) (IsFault text.now)) }
{
    let declared = declarations(alloc, items)?;
    if let Some(name) = first_twice(alloc, &declared)? {
        return Ok(Some(SyntaxFault::Twice(name)));
    }
    if let Some(name) = unknown(alloc, items, &declared)? {
        return Ok(Some(SyntaxFault::Unknown(name)));
    }
    if let Some(at) = wrong_call(alloc, items, text)? {
        return Ok(Some(SyntaxFault::Arity(at)));
    }
    if !has_main(items) {
        return Ok(Some(SyntaxFault::NoMain));
    }
    Ok(None)
}

/// The same of a text, judged over its tokens with no memory: in the square of the time.
#[tactic(auto, using(crate::proofs::Placed::twice_short, crate::proofs::Placed::twice_fault, crate::proofs::Placed::unknown_short, crate::proofs::Placed::unknown_fault, crate::proofs::Placed::arity_fault, crate::proofs::Placed::main_fault, crate::proofs::Placed::no_fault_found))]
fn find_in_place(text: &[u8]) -> Option<SyntaxFault>
    requires { IsWritten text.now }
    ensures { MatchOption result (HasTree text.now) (IsFault text.now) }
{
    if let Some(name) = scan::first_twice(text) {
        return Some(SyntaxFault::Twice(Name::from_slice(name)));
    }
    if let Some(name) = scan::unknown(text) {
        return Some(SyntaxFault::Unknown(Name::from_slice(name)));
    }
    if let Some(at) = scan::wrong_call(text) {
        return Some(SyntaxFault::Arity(at));
    }
    if !scan::has_main(text) {
        return Some(SyntaxFault::NoMain);
    }
    None
}

/// The items of a program within the limits, which is read once. Any other text, and one for which memory ran out, is judged
/// fault by fault; if there is no fault, memory was all that was wanting.
fn make_items(alloc: Global, text: &[u8]) -> Result<Vec<Item<'_>>, SyntaxFault>
    ensures ok { IfOk result (λ v. IsSpelled text.now (items_of v)) }
    ensures err { IfErr result (IsFault text.now) }
{
    if let Ok(Some(items)) = build(alloc, text) {
        return Ok(items);
    }
    check_text(alloc, text)?;
    match find_in_place(text) {
        Some(fault) => Err(fault),
        None => Err(SyntaxFault::OutOfMemory),
    }
}

/// The first fault of a program's names. Where memory for maps is refused, they are judged without.
#[tactic(auto, using(crate::proofs::Placed::written_by, crate::proofs::Placed::of_tree))]
fn find_fault(alloc: Global, items: &[Item<'_>], text: &[u8]) -> Option<SyntaxFault>
    requires { IsSpelled text.now (map item_of items.now) }
    ensures { MatchOption result (Parses text.now (map item_of items.now)) (IsFault text.now) }
{
    match find_by_maps(alloc, items, text) {
        Ok(found) => found,
        Err(_) => find_in_place(text),
    }
}

/// The tree that a text spells, or the first fault of the text. Each kind of fault is judged over the whole text before
/// the next kind.
///
/// # Errors
///
/// The first fault; `OutOfMemory` where an allocation failed that the tree needs, and then only for a text that has no fault.
pub fn parse(alloc: Global, text: &[u8]) -> Result<Ast<'_>, SyntaxFault>
    ensures ok { IfOk result (λ a. Parses text.now (tree_of a)) }
    ensures err { IfErr result (IsFault text.now) }
{
    let items = make_items(alloc, text)?;
    match find_fault(alloc, &items, text) {
        Some(fault) => Err(fault),
        None => Ok(Ast::new(items)),
    }
}
