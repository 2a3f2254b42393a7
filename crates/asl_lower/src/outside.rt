//! Accesses and calls outside sections, judged in the tree before any code is made.

ghost use Rattle.std.specs.Prelude.{◌≡◌, ℕ, ◌+◌, ◌≤◌, ◌↔◌, [], ◌∷◌, Some, None, length, map, slice_get, IfOk, OnOk, IfErr, MatchOption};
ghost use Rattle.asl_syntax.specs.View.{item_of, value_of, statement_of, block_of, function_of};
ghost use Rattle.asl_syntax.specs.Tree.{functions_of};
ghost use Rattle.asl_lower.specs.Names.{function_names, number_of};
ghost use Rattle.asl_lower.specs.OpenSections.{IsBare, IsBareAccess, IsFirstBareAccess};
ghost use Rattle.asl_lower.specs.Facts.{HasLayout};
ghost use Rattle.asl_lower.specs.Layout.{lowering_of};
ghost use Rattle.asl_lower.specs.Size.{value_size, stmt_size, block_size, else_size};
ghost use Rattle.asl_lower.specs.Numbered.{AreNumbered};
ghost use Rattle.asl_lower.specs.Reach.{Outside, IsMarked, KeepsMarks, AreFollowed, Reached};
ghost use Rattle.asl_lower.specs.Outside.{value_access, stmt_access, block_access, else_access, stmt_callees, block_callees, MarksThese};

use crate::code_draft::main_number;
use crate::code_size::{block_size, value_size};
use crate::item_numbers::ItemNumbers;
use crate::section_reach::{MAX_FUNCTIONS, Marks, next_function};
use asl_syntax::Ident;
use asl_syntax::tree::{Function, Item, Statement, Value};

/// Marks a function that is called.
fn mark_callee(items: &[Item<'_>], numbers: &ItemNumbers<'_>, marks: &mut Marks, name: &Ident<'_>)
    requires { AreNumbered numbers.now (map item_of items.now) }
    ensures { MarksThese (number_of (function_names (functions_of (map item_of items.now))) name.now ∷ []) marks.old marks.new }
{
    let callee = numbers.function(items, name);
    if callee < MAX_FUNCTIONS {
        marks[callee] = true;
    }
}

/// Marks the functions that statements call outside sections.
#[cycle(callees)]
fn mark_block(
    items: &[Item<'_>],
    numbers: &ItemNumbers<'_>,
    marks: &mut Marks,
    block: &[Statement<'_>],
)
    requires { AreNumbered numbers.now (map item_of items.now) }
    ensures { MarksThese (block_callees (function_names (functions_of (map item_of items.now))) (block_of block.now)) marks.old marks.new }
{
    for statement in block {
        mark_statement(items, numbers, marks, statement);
    }
}

/// Marks the functions that a statement calls outside sections.
#[cycle(callees)]
fn mark_statement(
    items: &[Item<'_>],
    numbers: &ItemNumbers<'_>,
    marks: &mut Marks,
    statement: &Statement<'_>,
)
    requires { AreNumbered numbers.now (map item_of items.now) }
    ensures { MarksThese (stmt_callees (function_names (functions_of (map item_of items.now))) (statement_of statement.now)) marks.old marks.new }
{
    match statement {
        Statement::Assign(_, Value::Call(name, _)) => mark_callee(items, numbers, marks, name),
        Statement::If(_, first, second) => {
            mark_block(items, numbers, marks, first);
            mark_block(items, numbers, marks, second);
        }
        Statement::While(_, body) => mark_block(items, numbers, marks, body),
        Statement::Assign(_, _) => {}
        Statement::Store(_, _) => {}
        Statement::Out(_) => {}
        Statement::Atomic(_) => {}
    }
}

/// The function of a number.
fn function_at<'a, 't>(items: &'a [Item<'t>], number: usize) -> Option<&'a Function<'t>>
    ensures { MatchOption result
        (length (functions_of (map item_of items.now)) ≤ number)
        (λ f. slice_get (functions_of (map item_of items.now)) number ≡ Some (function_of f.now)) }
{
    let mut left = number;
    for item in items {
        if let Item::Function(function) = item {
            if left == 0 {
                return Some(function);
            }
            left -= 1;
        }
    }
    None
}

/// How many functions a program has.
fn count_functions(items: &[Item<'_>]) -> usize
    ensures { result ≡ length (functions_of (map item_of items.now)) }
{
    let mut count = 0;
    for item in items {
        if let Item::Function(_) = item {
            count += 1;
        }
    }
    count
}

/// Marks all that calls outside sections lead to from the functions with a mark.
fn follow_calls(items: &[Item<'_>], numbers: &ItemNumbers<'_>, marks: &mut Marks)
    requires numbered { AreNumbered numbers.now (map item_of items.now) }
    requires layout { HasLayout (lowering_of (map item_of items.now)) }
    ensures kept { KeepsMarks marks.old marks.new }
    ensures followed { AreFollowed (lowering_of (map item_of items.now)) Outside marks.new }
    ensures only { (function : ℕ) → IsMarked marks.new function → Reached (lowering_of (map item_of items.now)) Outside marks.old function }
{
    let count = count_functions(items);
    let mut followed = [false; MAX_FUNCTIONS];
    while let Some(number) = next_function(count, marks, &followed) {
        followed[number] = true;
        if let Some(function) = function_at(items, number) {
            mark_block(items, numbers, marks, &function.body);
        }
    }
}

/// Which functions are bare.
fn bare_functions(items: &[Item<'_>], numbers: &ItemNumbers<'_>) -> Marks
    requires numbered { AreNumbered numbers.now (map item_of items.now) }
    requires layout { HasLayout (lowering_of (map item_of items.now)) }
    ensures { (function : ℕ) → IsMarked result function ↔ IsBare (lowering_of (map item_of items.now)) function }
{
    let mut marks = [false; MAX_FUNCTIONS];
    marks[main_number(items)] = true;
    follow_calls(items, numbers, &mut marks);
    marks
}

/// An access outside all sections.
#[derive(Clone, Copy)]
struct Access {
    pc: u16,
}

/// The pc after statements that begin at a pc, or the first access outside sections in them.
#[cycle(access)]
fn pass_block(pc: usize, block: &[Statement<'_>]) -> Result<usize, Access>
    requires { pc + block_size (block_of block.now) ≤ 65535 }
    ensures past { IfOk result (λ past. past ≡ pc + block_size (block_of block.now)) }
    ensures none { OnOk result (block_access (block_of block.now) pc ≡ None) }
    ensures found { IfErr result (λ access. block_access (block_of block.now) pc ≡ Some access.pc) }
{
    let mut pc = pc;
    for statement in block {
        pc = pass_statement(pc, statement)?;
    }
    Ok(pc)
}

/// The pc after a statement that begins at a pc, or the first access outside sections in it.
#[cycle(access)]
fn pass_statement(pc: usize, statement: &Statement<'_>) -> Result<usize, Access>
    requires { pc + stmt_size (statement_of statement.now) ≤ 65535 }
    ensures past { IfOk result (λ past. past ≡ pc + stmt_size (statement_of statement.now)) }
    ensures none { OnOk result (stmt_access (statement_of statement.now) pc ≡ None) }
    ensures found { IfErr result (λ access. stmt_access (statement_of statement.now) pc ≡ Some access.pc) }
{
    match statement {
        Statement::Assign(_, value) => pass_value(pc, value),
        Statement::Store(_, _) => Err(Access { pc: pc as u16 }),
        Statement::Out(_) => Ok(pc + 1),
        Statement::If(_, first, second) => {
            let after = pass_block(pc + 1, first)?;
            pass_block(after + jumps_over(second), second)
        }
        Statement::While(_, body) => {
            let after = pass_block(pc + 1, body)?;
            Ok(after + 1)
        }
        Statement::Atomic(body) => Ok(pc + block_size(body) + 2),
    }
}

/// How many jumps stand in front of the second block of an `if`: one, where the block is not empty.
fn jumps_over(second: &[Statement<'_>]) -> usize
    ensures size { result + block_size (block_of second.now) ≡ else_size (block_of second.now) }
    ensures access { (pc : ℕ) → else_access (block_of second.now) pc ≡ block_access (block_of second.now) (pc + result) }
{
    if second.is_empty() { 0 } else { 1 }
}

/// The pc after the code of a value that begins at a pc, or its access.
fn pass_value(pc: usize, value: &Value<'_>) -> Result<usize, Access>
    requires { pc + value_size (value_of value.now) ≤ 65535 }
    ensures past { IfOk result (λ past. past ≡ pc + value_size (value_of value.now)) }
    ensures none { OnOk result (value_access (value_of value.now) pc ≡ None) }
    ensures found { IfErr result (λ access. value_access (value_of value.now) pc ≡ Some access.pc) }
{
    match value {
        Value::Load(_) => Err(Access { pc: pc as u16 }),
        Value::Call(_, _) => Ok(pc + value_size(value)),
        Value::Number(_) => Ok(pc + 1),
        Value::Null => Ok(pc + 1),
        Value::Local(_) => Ok(pc + 1),
        Value::Binary(_, _, _) => Ok(pc + 1),
        Value::Global(_) => Ok(pc + 1),
        Value::Field(_, _) => Ok(pc + 1),
        Value::New(_) => Ok(pc + 1),
    }
}

/// The lowest access of a bare function outside its sections, as the function and the pc.
pub fn first_bare_access(items: &[Item<'_>], numbers: &ItemNumbers<'_>) -> Option<(u16, u16)>
    requires numbered { AreNumbered numbers.now (map item_of items.now) }
    requires layout { HasLayout (lowering_of (map item_of items.now)) }
    requires few { length (lowering_of (map item_of items.now)).code ≤ 65535 }
    ensures { MatchOption result
        ((function pc : ℕ) → ¬ IsBareAccess (lowering_of (map item_of items.now)) function pc)
        (λ at. IsFirstBareAccess (lowering_of (map item_of items.now)) at.0 at.1) }
{
    let bare = bare_functions(items, numbers);
    let mut number = 0;
    let mut start = 0;
    for item in items {
        if let Item::Function(function) = item {
            if bare[number] {
                if let Err(access) = pass_block(start, &function.body) {
                    return Some((number as u16, access.pc));
                }
            }
            number += 1;
            start += block_size(&function.body) + 1;
        }
    }
    None
}
