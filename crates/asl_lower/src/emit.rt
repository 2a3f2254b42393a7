//! Emitting the code of values.

ghost use Rattle.std.specs.Prelude.{◌≡◌, ◌+◌, ◌<◌, ◌≤◌, [], length, IfOk};
ghost use Rattle.asl_syntax.specs.View.{value_of};
ghost use Rattle.asl_syntax.specs.Tree.{CallValue};
ghost use Rattle.asl_lower.specs.Names.{value_arguments};
ghost use Rattle.asl_lower.specs.Place.{past_moves, past_value};
ghost use Rattle.asl_lower.specs.Lowered.{operator_instr, first_argument};
ghost use Rattle.asl_lower.specs.Layout.{moves, value_code};
ghost use Rattle.asl_lower.specs.OutputView.{Adds, place_of};
ghost use Rattle.asl_lower.specs.ScopeView.{scope_view};

use crate::output::Output;
use crate::scope::Scope;
use asl_code::Instr;
use asl_syntax::Ident;
use asl_syntax::tree::{Operator, Value};
use std::alloc::AllocError;

/// The instruction of an operator.
fn operator_instr(operator: Operator, to: u8, left: u8, right: u8) -> Instr
    ensures { result ≡ operator_instr operator to left right }
{
    match operator {
        Operator::Add => Instr::Add { to, left, right },
        Operator::Subtract => Instr::Subtract { to, left, right },
        Operator::IsLess => Instr::LessThan { to, left, right },
        Operator::IsEqual => Instr::Equals { to, left, right },
    }
}

/// The first argument register of a call, 0 where there are no arguments.
fn first_argument(scope: &Scope<'_, '_>, arguments: &[Ident<'_>]) -> u8
    ensures { result ≡ first_argument (scope_view scope.now) arguments.now }
{
    if arguments.is_empty() {
        0
    } else {
        scope.locals.len() as u8
    }
}

/// Emits a `mov` of each argument to the registers from `first` on.
fn emit_moves(
    out: &mut Output,
    scope: &Scope<'_, '_>,
    arguments: &[Ident<'_>],
    first: u8,
) -> Result<(), AllocError>
    requires few { first + length arguments.now ≤ 64 }
    requires room { (past_moves arguments.now (place_of out.old)).pc ≤ 65535 }
    ensures { IfOk result (λ _. Adds out.old out.new (moves (scope_view scope.now) arguments.now first) [] (past_moves arguments.now (place_of out.old))) }
{
    let mut to = first;
    for argument in arguments {
        let from = scope.register(argument);
        out.push(Instr::Move { to, from })?;
        to += 1;
    }
    Ok(())
}

/// Emits a call.
fn emit_call(
    out: &mut Output,
    scope: &Scope<'_, '_>,
    to: u8,
    name: &Ident<'_>,
    arguments: &[Ident<'_>],
) -> Result<(), AllocError>
    requires few { length scope.now.locals.now + length arguments.now ≤ 64 }
    requires room { (past_value (CallValue name.now arguments.now) (place_of out.old)).pc ≤ 65535 }
    ensures { IfOk result (λ _. Adds out.old out.new (value_code (scope_view scope.now) to out.old.sites (CallValue name.now arguments.now)) [] (past_value (CallValue name.now arguments.now) (place_of out.old))) }
{
    let first = scope.locals.len() as u8;
    emit_moves(out, scope, arguments, first)?;
    let first = first_argument(scope, arguments);
    let function = scope.callee(name);
    out.push(Instr::Call {
        to,
        first,
        function,
    })
}

/// Emits the code that puts a value into a register.
pub fn emit_value(
    out: &mut Output,
    scope: &Scope<'_, '_>,
    to: u8,
    value: &Value<'_>,
) -> Result<(), AllocError>
    requires few { length scope.now.locals.now + value_arguments (value_of value.now) ≤ 64 }
    requires room { (past_value (value_of value.now) (place_of out.old)).pc ≤ 65535 }
    ensures { IfOk result (λ _. Adds out.old out.new (value_code (scope_view scope.now) to out.old.sites (value_of value.now)) [] (past_value (value_of value.now) (place_of out.old))) }
{
    match value {
        Value::Number(number) => out.push(Instr::SetInt { to, value: *number }),
        Value::Null => out.push(Instr::SetNull { to }),
        Value::Local(y) => {
            let from = scope.register(y);
            out.push(Instr::Move { to, from })
        }
        Value::Binary(y, operator, z) => {
            let left = scope.register(y);
            let right = scope.register(z);
            out.push(operator_instr(*operator, to, left, right))
        }
        Value::Global(g) => {
            let global = scope.global(g);
            out.push(Instr::GlobalAddress { to, global })
        }
        Value::Field(y, offset) => {
            let from = scope.register(y);
            out.push(Instr::FieldAddress {
                to,
                from,
                offset: *offset,
            })
        }
        Value::Load(y) => {
            let address = scope.register(y);
            out.push(Instr::Load { to, address })
        }
        Value::New(cells) => out.create(to, *cells),
        Value::Call(f, arguments) => emit_call(out, scope, to, f, arguments),
    }
}
