//! Lowering a program.

ghost use Rattle.std.specs.Prelude.{◌≤◌, ℕ, length, map, IfOk, IfErr};
ghost use Rattle.asl_syntax.specs.View.{item_of};
ghost use Rattle.asl_syntax.specs.AstView.{tree_of};
ghost use Rattle.asl_syntax.specs.Parsed.{IsParsed};
ghost use Rattle.asl_syntax.specs.Tree.{globals_of, functions_of};
ghost use Rattle.asl_lower.specs.Lowered.{IsLowering};
ghost use Rattle.asl_lower.specs.OpenSections.{IsBareAccess};
ghost use Rattle.asl_lower.specs.Refused.{HasRoom, IsRefusedLowering};

use crate::code_draft::make_draft;
use crate::code_size::has_few_instructions;
use crate::fault::LowerFault;
use crate::functions::first_crowded;
use crate::item_numbers::ItemNumbers;
use crate::lowering::Lowering;
use crate::outside::first_bare_access;
use asl_syntax::Ast;
use asl_syntax::tree::Item;
use std::alloc::Global;

/// The lowering of the items of a program, or its first fault.
fn lower_items(alloc: Global, items: &[Item<'_>]) -> Result<Lowering, LowerFault>
    requires parsed { ∥ IsParsed (map item_of items.now) ∥₁ }
    requires few_globals { length (globals_of (map item_of items.now)) ≤ 1024 }
    requires few_functions { length (functions_of (map item_of items.now)) ≤ 256 }
    ensures lowering { IfOk result (λ l. IsLowering (map item_of items.now) l) }
    ensures room { IfOk result (λ _. HasRoom (map item_of items.now)) }
    ensures inside { IfOk result (λ l. (function pc : ℕ) → ¬ IsBareAccess l function pc) }
    ensures refused { IfErr result (IsRefusedLowering (map item_of items.now)) }
{
    if let Some(number) = first_crowded(items) {
        return Err(LowerFault::Registers(number));
    }
    if !has_few_instructions(items) {
        return Err(LowerFault::CodeSize);
    }
    let numbers = ItemNumbers::of(alloc, items);
    if let Some((function, pc)) = first_bare_access(items, &numbers) {
        return Err(LowerFault::AccessOutsideSection(function, pc));
    }
    let draft = make_draft(alloc, items, &numbers)?;
    Ok(Lowering::new(draft))
}

/// The code of a program by its templates, or the first fault of the program. Each kind of fault is judged over the whole
/// program before the next kind.
///
/// # Errors
///
/// The first fault of the program; `OutOfMemory` where an allocation failed.
pub fn lower(alloc: Global, ast: &Ast<'_>) -> Result<Lowering, LowerFault>
    ensures lowering { IfOk result (λ l. IsLowering (tree_of ast.now) l) }
    ensures room { IfOk result (λ _. HasRoom (tree_of ast.now)) }
    ensures inside { IfOk result (λ l. (function pc : ℕ) → ¬ IsBareAccess l function pc) }
    ensures refused { IfErr result (IsRefusedLowering (tree_of ast.now)) }
{
    lower_items(alloc, ast.items())
}
