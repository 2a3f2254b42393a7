//! Walking the tokens of a text along its tree.
ghost use Rattle.std.specs.Prelude.{◌≡◌, [], ◌∷◌, drop, replicate, map, IfOk};
ghost use Rattle.asl_grammar.specs.Reader.{spots_left};
ghost use Rattle.asl_syntax.specs.View.{value_of, statement_of, block_of, function_of, item_of};
ghost use Rattle.asl_map.specs.Taken.{past_end, piece_of, brace_of};
ghost use Rattle.asl_lower.specs.Size.{value_size};
ghost use Rattle.asl_map.specs.Walked.{past_no_else, stmt_rest, block_rest, else_rest, stmt_pieces, block_pieces, else_pieces, function_rest, function_pieces, named_of, items_rest, items_pieces, items_named, Walks};

use crate::text_piece::{Kind, Named};
use crate::walker::{Walker, is_at_else, next_place, pass, pass_brace, pass_end, pass_piece};
use asl_grammar::lexer::Tokens;
use asl_syntax::tree::{Function, Item, Statement, Value};
use std::alloc::{AllocError, Global};

/// How many instructions the code of a value has.
fn value_size(value: &Value<'_>) -> usize
    ensures { result ≡ value_size (value_of value.now) }
{
    match value {
        Value::Call(_, arguments) => arguments.len() + 1,
        Value::Number(_) => 1,
        Value::Null => 1,
        Value::Local(_) => 1,
        Value::Binary(_, _, _) => 1,
        Value::Global(_) => 1,
        Value::Field(_, _) => 1,
        Value::Load(_) => 1,
        Value::New(_) => 1,
    }
}

/// Walks a line whose code has so many instructions.
fn walk_line(walker: &mut Walker<'_>, size: usize) -> Result<(), AllocError>
    ensures { IfOk result (λ _. Walks (replicate size (piece_of Kind.Line (spots_left walker.old.tokens))) (past_end (spots_left walker.old.tokens)) walker.old walker.new) }
{
    let piece = pass_piece(&mut walker.tokens, Kind::Line);
    for _ in 0..size {
        walker.pieces.push(piece)?;
    }
    Ok(())
}

/// Walks what stands before a block.
fn walk_head(walker: &mut Walker<'_>, kind: Kind) -> Result<(), AllocError>
    ensures { IfOk result (λ _. Walks (piece_of kind (spots_left walker.old.tokens) ∷ []) (past_end (spots_left walker.old.tokens)) walker.old walker.new) }
{
    let piece = pass_piece(&mut walker.tokens, kind);
    walker.pieces.push(piece)?;
    Ok(())
}

/// Walks the brace after a block, which has an instruction.
fn walk_brace(walker: &mut Walker<'_>, kind: Kind) -> Result<(), AllocError>
    ensures { IfOk result (λ _. Walks (brace_of kind (spots_left walker.old.tokens) ∷ []) (drop 1 (spots_left walker.old.tokens)) walker.old walker.new) }
{
    let piece = pass_brace(&mut walker.tokens, kind);
    walker.pieces.push(piece)?;
    Ok(())
}

/// Passes the brace after the block of an `if` that has no other, and an empty `else`.
fn pass_no_else(tokens: &mut Tokens<'_>)
    ensures { spots_left tokens.new ≡ past_no_else (drop 1 (spots_left tokens.old)) }
{
    let _ = pass(tokens);
    if is_at_else(tokens) {
        let _ = pass_end(tokens);
        let _ = pass(tokens);
    }
}

/// Walks statements, one after the other.
#[cycle(walk)]
fn walk_block(walker: &mut Walker<'_>, block: &[Statement<'_>]) -> Result<(), AllocError>
    ensures { IfOk result (λ _. Walks (block_pieces (block_of block.now) (spots_left walker.old.tokens)) (block_rest (block_of block.now) (spots_left walker.old.tokens)) walker.old walker.new) }
{
    for statement in block {
        walk_statement(walker, statement)?;
    }
    Ok(())
}

/// Walks a statement.
#[cycle(walk)]
fn walk_statement(walker: &mut Walker<'_>, statement: &Statement<'_>) -> Result<(), AllocError>
    ensures { IfOk result (λ _. Walks (stmt_pieces (statement_of statement.now) (spots_left walker.old.tokens)) (stmt_rest (statement_of statement.now) (spots_left walker.old.tokens)) walker.old walker.new) }
{
    match statement {
        Statement::Assign(_, value) => walk_line(walker, value_size(value)),
        Statement::Store(_, _) => walk_line(walker, 1),
        Statement::Out(_) => walk_line(walker, 1),
        Statement::If(_, first, second) => {
            walk_head(walker, Kind::If)?;
            walk_block(walker, first)?;
            walk_second(walker, second)
        }
        Statement::While(_, body) => {
            walk_head(walker, Kind::While)?;
            walk_block(walker, body)?;
            walk_brace(walker, Kind::While)
        }
        Statement::Atomic(body) => {
            walk_head(walker, Kind::Atomic)?;
            walk_block(walker, body)?;
            walk_brace(walker, Kind::Atomic)
        }
    }
}

/// Walks what follows the first block of an `if`, its brace first.
#[cycle(walk)]
fn walk_second(walker: &mut Walker<'_>, second: &[Statement<'_>]) -> Result<(), AllocError>
    ensures { IfOk result (λ _. Walks (else_pieces (block_of second.now) (spots_left walker.old.tokens)) (else_rest (block_of second.now) (spots_left walker.old.tokens)) walker.old walker.new) }
{
    if second.is_empty() {
        pass_no_else(&mut walker.tokens);
        return Ok(());
    }
    walk_brace(walker, Kind::If)?;
    let _ = pass_end(&mut walker.tokens);
    walk_block(walker, second)?;
    let _ = pass(&mut walker.tokens);
    Ok(())
}

/// Walks a function, and tells where it stands.
fn walk_function(walker: &mut Walker<'_>, function: &Function<'_>) -> Result<Named, AllocError>
    ensures walks { IfOk result (λ _. Walks (function_pieces (function_of function.now) (spots_left walker.old.tokens)) (function_rest (function_of function.now) (spots_left walker.old.tokens)) walker.old walker.new) }
    ensures named { IfOk result (λ named. named ≡ named_of (function_of function.now) (spots_left walker.old.tokens)) }
{
    let from = next_place(&walker.tokens);
    let _ = pass_end(&mut walker.tokens);
    walk_block(walker, &function.body)?;
    walk_head(walker, Kind::Return)?;
    let last = pass(&mut walker.tokens);
    Ok(Named {
        name: function.name.to_name(),
        from,
        to: last + 1,
    })
}

/// Walks the globals and functions of a program, and tells where the functions stand.
pub fn walk_items(
    alloc: Global,
    walker: &mut Walker<'_>,
    items: &[Item<'_>],
) -> Result<Vec<Named>, AllocError>
    ensures walks { IfOk result (λ _. Walks (items_pieces (map item_of items.now) (spots_left walker.old.tokens)) (items_rest (map item_of items.now) (spots_left walker.old.tokens)) walker.old walker.new) }
    ensures named { IfOk result (λ named. named.items ≡ items_named (map item_of items.now) (spots_left walker.old.tokens)) }
{
    let mut functions = Vec::new(alloc);
    for item in items {
        match item {
            Item::Global(_) => {
                let _ = pass_end(&mut walker.tokens);
            }
            Item::Function(function) => functions.push(walk_function(walker, function)?)?,
        }
    }
    Ok(functions)
}
