//! The locks before an instruction that a lock after it becomes.
ghost use Rattle.std.specs.Prelude.{◌≡◌, ◌<◌, ◌≤◌, ◌⊎◌, ◌↔◌, ℕ, OnOk, IfOk, Some, length, slice_get};
ghost use Rattle.std.specs.List.{flat_map};
ghost use Rattle.asl_code.specs.declared.instr.Instr.{Instr as AnyInstr};
ghost use Rattle.asl_lower.specs.OpenSections.{InBody};
ghost use Rattle.asl_lock_expr.specs.Links.{view, IsOne, IsLinked, dereferenced};
ghost use Rattle.asl_lock_expr.specs.Order.{AreInOrder};
ghost use Rattle.asl_lock_expr.specs.Stores.{stores};

use crate::accesses::add_dereferenced;
use crate::link::add_links;
use crate::link_context::LinkContext;
use crate::lock_order::add_in_order;
use crate::written::Writes;
use asl_code::Lock;
use asl_lower::Lowering;
use asl_points_to::Classes;
use std::alloc::{AllocError, Global};

/// The locks before the instruction at `pc` that the lock after it becomes, where paths have at most `k` operations, with
/// their dereferenced prefixes: each once, in order (`docs/ANALYSIS.md`, "Links").
///
/// # Errors
///
/// An allocation failed.
pub fn links(
    alloc: Global,
    lowering: &Lowering,
    classes: &Classes,
    writes: &Writes,
    k: u32,
    pc: u32,
    lock: &Lock,
) -> Result<Vec<Lock>, AllocError>
    requires short { k ≤ 8 }
    requires there { pc < length lowering.now.code }
    ensures order { IfOk result (λ v. AreInOrder v.items) }
    ensures locks { (function : ℕ) (i : AnyInstr) → InBody lowering.now function pc → slice_get lowering.now.code pc ≡ Some i
        → IfOk result (λ v. (n : _) → IsOne v.items n ↔ IsLinked (view classes.now (stores writes.now) k function) i lock.now n) }
{
    let code = lowering.code();
    let view = LinkContext {
        classes,
        writes,
        k_limit: k as usize,
        function: lowering.owner(pc as u16),
    };
    let mut linked = Vec::new(alloc);
    add_links(&view, &code[pc as usize], lock, &mut linked)?;
    with_prefixes(alloc, linked)
}

/// The locks and their dereferenced prefixes, each once, in order.
fn with_prefixes(alloc: Global, locks: Vec<Lock>) -> Result<Vec<Lock>, AllocError>
    ensures order { IfOk result (λ v. AreInOrder v.items) }
    ensures locks { IfOk result (λ v. (n : _) → IsOne v.items n ↔ (IsOne locks.items n ⊎ IsOne (flat_map dereferenced locks.items) n)) }
{
    let prefixes = prefixes(alloc, &locks)?;
    let mut list = Vec::new(alloc);
    add_all(&mut list, locks)?;
    add_all(&mut list, prefixes)?;
    Ok(list)
}

/// The dereferenced prefixes of all locks.
///
/// # Errors
///
/// An allocation failed.
pub fn prefixes(alloc: Global, locks: &[Lock]) -> Result<Vec<Lock>, AllocError>
    ensures { IfOk result (λ v. v.items ≡ flat_map dereferenced locks.now) }
{
    let mut prefixes = Vec::new(alloc);
    for lock in locks {
        add_dereferenced(lock, &mut prefixes)?;
    }
    Ok(prefixes)
}

/// Puts each of the locks at its place.
fn add_all(list: &mut Vec<Lock>, locks: Vec<Lock>) -> Result<(), AllocError>
    requires { AreInOrder list.old.items }
    ensures order { OnOk result (AreInOrder list.new.items) }
    ensures locks { OnOk result ((n : _) → IsOne list.new.items n ↔ (IsOne list.old.items n ⊎ IsOne locks.items n)) }
{
    for lock in locks {
        add_in_order(list, lock)?;
    }
    Ok(())
}
