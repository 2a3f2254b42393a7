//! Emitting the code of statements, each by its template.

ghost use Rattle.std.specs.Prelude.{◌+◌, ◌<◌, ◌≤◌, length, IfOk};
ghost use Rattle.asl_syntax.specs.Tree.{NoMore, IfStatement, WhileStatement};
ghost use Rattle.asl_syntax.specs.View.{statement_of, block_of};
ghost use Rattle.asl_lower.specs.Names.{stmt_arguments, block_arguments};
ghost use Rattle.asl_lower.specs.Place.{past_stmt, past_block};
ghost use Rattle.asl_lower.specs.Layout.{block_code, block_sections};
ghost use Rattle.asl_lower.specs.OutputView.{Adds, AddsStatement, place_of};
ghost use Rattle.asl_lower.specs.ScopeView.{scope_view};

use crate::emit::emit_value;
use crate::output::Output;
use crate::scope::Scope;
use asl_code::Instr;
use asl_syntax::Ident;
use asl_syntax::tree::Statement;
use std::alloc::AllocError;

/// Emits the code of statements, one after the other.
#[cycle(emit)]
pub fn emit_block(
    out: &mut Output,
    scope: &Scope<'_, '_>,
    block: &[Statement<'_>],
) -> Result<(), AllocError>
    requires few { length scope.now.locals.now + block_arguments (block_of block.now) ≤ 64 }
    requires room { (past_block (block_of block.now) (place_of out.old)).pc ≤ 65535 }
    ensures { IfOk result (λ _. Adds out.old out.new (block_code (scope_view scope.now) (block_of block.now) (place_of out.old)) (block_sections (scope_view scope.now) (block_of block.now) (place_of out.old)) (past_block (block_of block.now) (place_of out.old))) }
{
    for statement in block {
        emit_statement(out, scope, statement)?;
    }
    Ok(())
}

/// Emits the code of a statement; a jump forward is patched once its target is known.
#[cycle(emit)]
fn emit_statement(
    out: &mut Output,
    scope: &Scope<'_, '_>,
    statement: &Statement<'_>,
) -> Result<(), AllocError>
    requires few { length scope.now.locals.now + stmt_arguments (statement_of statement.now) ≤ 64 }
    requires room { (past_stmt (statement_of statement.now) (place_of out.old)).pc ≤ 65535 }
    ensures { IfOk result (λ _. AddsStatement (scope_view scope.now) (statement_of statement.now) out.old out.new) }
{
    match statement {
        Statement::Assign(x, value) => {
            let to = scope.register(x);
            emit_value(out, scope, to, value)
        }
        Statement::Store(x, y) => {
            let address = scope.register(x);
            let from = scope.register(y);
            out.push(Instr::Store { address, from })
        }
        Statement::Out(x) => {
            let from = scope.register(x);
            out.push(Instr::Output { from })
        }
        Statement::If(x, first, second) => {
            if second.is_empty() {
                return emit_if(out, scope, x, first);
            }
            let test = scope.register(x);
            let branch = out.code.len();
            out.push(Instr::JumpIfZero { test, target: 0 })?;
            emit_block(out, scope, first)?;
            let leap = out.code.len();
            out.push(Instr::Jump { target: 0 })?;
            let target = out.here();
            out.patch(branch, Instr::JumpIfZero { test, target });
            emit_block(out, scope, second)?;
            let target = out.here();
            out.patch(leap, Instr::Jump { target });
            Ok(())
        }
        Statement::While(x, body) => emit_while(out, scope, x, body),
        Statement::Atomic(body) => {
            let number = out.sections.len();
            let acquire = out.here();
            out.enter(scope.function)?;
            emit_block(out, scope, body)?;
            out.leave(number, scope.function, acquire)
        }
    }
}

/// Emits the code of an `if` without `else`.
#[cycle(emit)]
fn emit_if(
    out: &mut Output,
    scope: &Scope<'_, '_>,
    x: &Ident<'_>,
    body: &[Statement<'_>],
) -> Result<(), AllocError>
    requires few { length scope.now.locals.now + stmt_arguments (IfStatement x.now (block_of body.now) NoMore) ≤ 64 }
    requires room { (past_stmt (IfStatement x.now (block_of body.now) NoMore) (place_of out.old)).pc ≤ 65535 }
    ensures { IfOk result (λ _. AddsStatement (scope_view scope.now) (IfStatement x.now (block_of body.now) NoMore) out.old out.new) }
{
    let test = scope.register(x);
    let branch = out.code.len();
    out.push(Instr::JumpIfZero { test, target: 0 })?;
    emit_block(out, scope, body)?;
    let target = out.here();
    out.patch(branch, Instr::JumpIfZero { test, target });
    Ok(())
}

/// Emits the code of a `while`.
#[cycle(emit)]
fn emit_while(
    out: &mut Output,
    scope: &Scope<'_, '_>,
    x: &Ident<'_>,
    body: &[Statement<'_>],
) -> Result<(), AllocError>
    requires few { length scope.now.locals.now + stmt_arguments (WhileStatement x.now (block_of body.now)) ≤ 64 }
    requires room { (past_stmt (WhileStatement x.now (block_of body.now)) (place_of out.old)).pc ≤ 65535 }
    ensures { IfOk result (λ _. AddsStatement (scope_view scope.now) (WhileStatement x.now (block_of body.now)) out.old out.new) }
{
    let test = scope.register(x);
    let from = out.here();
    out.push(Instr::JumpIfZero { test, target: 0 })?;
    emit_block(out, scope, body)?;
    out.push(Instr::Jump { target: from })?;
    let target = out.here();
    out.patch(usize::from(from), Instr::JumpIfZero { test, target });
    Ok(())
}
