//! Lowering functions, one after the other.

ghost use Rattle.std.specs.Prelude.{◌≡◌, ◌<◌, ◌≤◌, nat_lt, length, map, IfOk, OnOk, OnErr};
ghost use Rattle.asl_syntax.specs.View.{item_of, function_of};
ghost use Rattle.asl_syntax.specs.Tree.{globals_of, functions_of};
ghost use Rattle.asl_lower.specs.Names.{locals_of, registers_of, scope_of};
ghost use Rattle.asl_lower.specs.NamesView.{names_of};
ghost use Rattle.asl_lower.specs.Numbered.{AreNumbered};
ghost use Rattle.asl_lower.specs.Place.{past_function, past_functions};
ghost use Rattle.asl_lower.specs.Lowered.{entry_of};
ghost use Rattle.asl_lower.specs.Layout.{block_sections, function_code, functions_code, functions_sections, functions_table};
ghost use Rattle.asl_lower.specs.OutputView.{Adds, place_of};
ghost use Rattle.asl_lower.specs.Refused.{first_crowded};

use crate::item_numbers::ItemNumbers;
use crate::locals::{Locals, MAX_REGISTERS, TooMany, add_block, block_arguments};
use crate::output::Output;
use crate::scope::Scope;
use crate::statements::emit_block;
use arrayvec::ArrayVec;
use asl_code::{Function as Entry, Instr};
use asl_syntax::tree::{Function, Item};
use std::alloc::{AllocError, Global};

/// The locals of a function in the order of their registers, where it has at most 64 registers.
fn locals_of<'t>(function: &Function<'t>) -> Result<Locals<'t>, TooMany>
    ensures locals { IfOk result (λ v. names_of v.items ≡ locals_of (function_of function.now)) }
    ensures few { OnOk result (registers_of (function_of function.now) ≤ 64) }
    ensures many { OnErr result (64 < registers_of (function_of function.now)) }
{
    let mut locals = ArrayVec::new();
    for parameter in &function.parameters {
        if locals.is_full() {
            return Err(TooMany);
        }
        locals.push(parameter.as_slice());
    }
    add_block(&mut locals, &function.body)?;
    if block_arguments(&function.body) > MAX_REGISTERS - locals.len() {
        return Err(TooMany);
    }
    Ok(locals)
}

/// Whether a function has more than 64 registers.
fn is_crowded(function: &Function<'_>) -> bool
    ensures { result ≡ nat_lt 64 (registers_of (function_of function.now)) }
{
    locals_of(function).is_err()
}

/// The number of the first function with more than 64 registers.
pub fn first_crowded(items: &[Item<'_>]) -> Option<u16>
    requires { length (functions_of (map item_of items.now)) ≤ 256 }
    ensures { result ≡ first_crowded 0 (functions_of (map item_of items.now)) }
{
    let mut number = 0;
    for item in items {
        if let Item::Function(function) = item {
            if is_crowded(function) {
                return Some(number);
            }
            number += 1;
        }
    }
    None
}

/// Emits a function, and tells its entry of the table.
fn emit_function<'t>(
    out: &mut Output,
    items: &[Item<'t>],
    numbers: &ItemNumbers<'t>,
    number: u16,
    function: &Function<'t>,
) -> Result<Entry, AllocError>
    requires numbered { AreNumbered numbers.now (map item_of items.now) }
    requires few_globals { length (globals_of (map item_of items.now)) ≤ 1024 }
    requires few_functions { length (functions_of (map item_of items.now)) ≤ 256 }
    requires few_registers { registers_of (function_of function.now) ≤ 64 }
    requires room { (past_function (function_of function.now) (place_of out.old)).pc ≤ 65535 }
    ensures adds { IfOk result (λ _. Adds out.old out.new (function_code (map item_of items.now) number (function_of function.now) (place_of out.old)) (block_sections (scope_of (map item_of items.now) number (function_of function.now)) (function_of function.now).body (place_of out.old)) (past_function (function_of function.now) (place_of out.old))) }
    ensures entry { IfOk result (λ entry. entry ≡ entry_of (function_of function.now) (place_of out.old)) }
{
    let Ok(locals) = locals_of(function) else {
        unreachable!()
    };
    let start = out.code.len();
    let scope = Scope {
        function: number,
        locals: locals.as_slice(),
        items,
        numbers,
    };
    emit_block(out, &scope, &function.body)?;
    let from = scope.register(&function.returned);
    out.push(Instr::Return { from })?;
    let params = function.parameters.len() as u8;
    let regs = (locals.len() + block_arguments(&function.body)) as u8;
    let len = (out.code.len() - start) as u32;
    Ok(Entry { params, regs, len })
}

/// Emits the functions of a program one after the other, and tells their table.
pub fn emit_functions<'t>(
    alloc: Global,
    out: &mut Output,
    items: &[Item<'t>],
    numbers: &ItemNumbers<'t>,
) -> Result<Vec<Entry>, AllocError>
    requires numbered { AreNumbered numbers.now (map item_of items.now) }
    requires few_globals { length (globals_of (map item_of items.now)) ≤ 1024 }
    requires few_functions { length (functions_of (map item_of items.now)) ≤ 256 }
    requires few_registers { first_crowded 0 (functions_of (map item_of items.now)) ≡ None }
    requires room { (past_functions (functions_of (map item_of items.now)) (place_of out.old)).pc ≤ 65535 }
    ensures adds { IfOk result (λ _. Adds out.old out.new (functions_code (map item_of items.now) 0 (functions_of (map item_of items.now)) (place_of out.old)) (functions_sections (map item_of items.now) 0 (functions_of (map item_of items.now)) (place_of out.old)) (past_functions (functions_of (map item_of items.now)) (place_of out.old))) }
    ensures table { IfOk result (λ table. table.items ≡ functions_table (functions_of (map item_of items.now)) (place_of out.old)) }
{
    let mut table = Vec::new(alloc);
    let mut number = 0;
    for item in items {
        if let Item::Function(function) = item {
            let entry = emit_function(out, items, numbers, number, function)?;
            table.push(entry)?;
            number += 1;
        }
    }
    Ok(table)
}
