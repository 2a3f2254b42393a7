//! From a tree to a text of it.
ghost use Rattle.asl_grammar.specs.declared.token.Mark.TheVariants as mark;
ghost use Rattle.std.specs.Prelude.{◌≡◌, ◌++◌, ◌+◌, [], map, IfOk};
ghost use Rattle.asl_syntax.specs.View.{function_of, item_of};
ghost use Rattle.asl_syntax.specs.AstView.{tree_of};
ghost use Rattle.asl_syntax.specs.Printed.{spaced, printed};
ghost use Rattle.asl_syntax.specs.Writing.{writing};
ghost use Rattle.asl_syntax.specs.Pieces.{head_bytes, last_line_bytes, item_bytes, items_bytes};
ghost use Rattle.asl_grammar.specs.Spelling.{program_on};

use crate::ast::Ast;
use crate::ident::Ident;
use crate::printed_statements::push_block;
use crate::printed_words::{push_mark, push_name, push_names};
use crate::tree::{Function, Item};
use asl_grammar::token::Mark;
use std::alloc::{AllocError, Global};

/// Writes the head of a function.
fn push_head(out: &mut Vec<u8>, function: &Function<'_>) -> Result<(), AllocError>
    ensures { IfOk result (λ _. out.new.items ≡ out.old.items ++ head_bytes (function_of function.now)) }
{
    push_mark(out, Mark::Fn)?;
    push_name(out, &function.name)?;
    push_mark(out, Mark::OpenParen)?;
    push_names(out, &function.parameters)?;
    push_mark(out, Mark::CloseParen)?;
    push_mark(out, Mark::OpenBrace)
}

/// Writes the last line of a function.
fn push_last_line(out: &mut Vec<u8>, returned: &Ident<'_>) -> Result<(), AllocError>
    ensures { IfOk result (λ _. out.new.items ≡ out.old.items ++ last_line_bytes returned.now) }
{
    push_mark(out, Mark::Return)?;
    push_name(out, returned)?;
    push_mark(out, Mark::Semicolon)?;
    push_mark(out, Mark::CloseBrace)
}

/// Writes a global or a function.
fn push_item(out: &mut Vec<u8>, item: &Item<'_>) -> Result<(), AllocError>
    ensures { IfOk result (λ _. out.new.items ≡ out.old.items ++ item_bytes (item_of item.now)) }
{
    match item {
        Item::Global(name) => {
            push_mark(out, Mark::Global)?;
            push_name(out, name)?;
            push_mark(out, Mark::Semicolon)
        }
        Item::Function(function) => {
            push_head(out, function)?;
            push_block(out, &function.body)?;
            push_last_line(out, &function.returned)
        }
    }
}

/// Writes all items.
fn push_items(out: &mut Vec<u8>, items: &[Item<'_>]) -> Result<(), AllocError>
    ensures { IfOk result (λ _. out.new.items ≡ out.old.items ++ items_bytes (map item_of items.now)) }
{
    for item in items {
        push_item(out, item)?;
    }
    Ok(())
}

/// The tokens of a program, each after a space.
fn print_items(alloc: Global, items: &[Item<'_>]) -> Result<Vec<u8>, AllocError>
    ensures { IfOk result (λ v. v.items ≡ spaced (program_on (writing (map item_of items.now)) [])) }
{
    let mut out = Vec::new(alloc);
    push_items(&mut out, items)?;
    Ok(out)
}

/// The text of a tree: its tokens, numbers without needless zeros, with one space between and a newline at the end.
///
/// # Errors
///
/// An allocation failed.
pub fn print(alloc: Global, ast: &Ast<'_>) -> Result<Vec<u8>, AllocError>
    ensures { IfOk result (λ v. v.items ≡ printed (tree_of ast.now)) }
{
    let spaced = print_items(alloc, ast.items())?;
    let mut text = Vec::new(alloc);
    if !spaced.is_empty() {
        text.extend_from_slice(&spaced[1..])?;
    }
    text.push(b'\n')?;
    Ok(text)
}
