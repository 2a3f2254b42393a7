//! Open blocks of a text, with the statements before them.
ghost use Rattle.std.specs.Prelude.{◌≡◌, [], ◌∷◌, ◌++◌, map, IfOk};
ghost use Rattle.asl_grammar.specs.ControlView.{opening_of};
ghost use Rattle.asl_syntax.specs.View.{statement_of, block_of};
ghost use Rattle.asl_syntax.specs.Fits.{OpeningFits};
ghost use Rattle.asl_syntax.specs.Built.{no_part, settle_part, header_of, closed};
ghost use Rattle.asl_syntax.specs.BuildView.{part_of, pending_of, header_in};

use crate::ident::Ident;
use crate::tree::Statement;
use asl_grammar::control::Opening;
use std::alloc::{AllocError, Global};

/// The statements of a block so far, and an `if` whose `else` may still follow.
#[derive(Drop)]
pub(crate) struct Part<'t> {
    pub(crate) done: Vec<Statement<'t>>,
    pub(crate) pending: Option<(Ident<'t>, Vec<Statement<'t>>)>,
}

/// Whose block an open block is.
#[derive(Drop)]
pub(crate) enum Header<'t> {
    Then(Ident<'t>),
    Else(Ident<'t>, Vec<Statement<'t>>),
    While(Ident<'t>),
    Atomic,
}

/// An open block, with the statements before it in the block around it.
#[derive(Drop)]
pub(crate) struct Frame<'t> {
    pub(crate) header: Header<'t>,
    pub(crate) outer: Vec<Statement<'t>>,
}

/// No statement, and no `if` waits.
pub(crate) fn no_part<'t>(alloc: Global) -> Part<'t>
    ensures { part_of result ≡ no_part }
{
    Part {
        done: Vec::new(alloc),
        pending: None,
    }
}

/// Adds a statement.
pub(crate) fn push<'t>(
    block: &mut Vec<Statement<'t>>,
    statement: Statement<'t>,
) -> Result<(), AllocError>
    ensures { IfOk result (λ _. map statement_of block.new.items ≡ map statement_of block.old.items ++ statement_of statement.entry ∷ []) }
{
    block.push(statement)?;
    Ok(())
}

/// Takes the `if` that waits as a statement without `else`.
pub(crate) fn settle(alloc: Global, part: &mut Part<'_>) -> Result<(), AllocError>
    ensures { IfOk result (λ _. part_of part.new ≡ settle_part (part_of part.old)) }
{
    match part.pending.take() {
        None => Ok(()),
        Some((name, body)) => push(&mut part.done, Statement::If(name, body, Vec::new(alloc))),
    }
}

/// The header of a block that opens where perhaps an `if` waits.
pub(crate) fn make_header<'t>(
    alloc: Global,
    opening: Opening<'t>,
    pending: Option<(Ident<'t>, Vec<Statement<'t>>)>,
) -> Header<'t>
    requires { OpeningFits (opening_of opening) }
    ensures { header_in result ≡ header_of (opening_of opening.entry) (pending_of pending.entry) }
{
    match opening {
        Opening::OfIf(x) => Header::Then(Ident::new(x)),
        Opening::OfElse => match pending {
            Some((name, body)) => Header::Else(name, body),
            None => Header::Else(Ident::new(&[]), Vec::new(alloc)),
        },
        Opening::OfWhile(x) => Header::While(Ident::new(x)),
        Opening::OfAtomic => Header::Atomic,
    }
}

/// The statements around a block that ends, with the block.
pub(crate) fn shut<'t>(frame: Frame<'t>, body: Vec<Statement<'t>>) -> Result<Part<'t>, AllocError>
    ensures { IfOk result (λ p. part_of p ≡ closed (header_in frame.entry.header) (block_of body.entry.items) (map statement_of frame.entry.outer.items)) }
{
    let Frame { header, mut outer } = frame;
    match header {
        Header::Then(name) => {
            return Ok(Part {
                done: outer,
                pending: Some((name, body)),
            });
        }
        Header::Else(name, first) => push(&mut outer, Statement::If(name, first, body))?,
        Header::While(name) => push(&mut outer, Statement::While(name, body))?,
        Header::Atomic => push(&mut outer, Statement::Atomic(body))?,
    }
    Ok(Part {
        done: outer,
        pending: None,
    })
}
