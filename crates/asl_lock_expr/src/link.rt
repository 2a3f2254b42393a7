//! What a lock that is needed after an instruction becomes before it.
ghost use Rattle.std.specs.Prelude.{◌≡◌, ◌≤◌, ◌+◌, ◌++◌, ◌∷◌, [], length, OnOk, OnErr};
ghost use Rattle.std.specs.List.{flat_map};
ghost use Rattle.asl_points_to.specs.Classes.{to};
ghost use Rattle.asl_lock_expr.specs.ClassOf.{base_class};
ghost use Rattle.asl_lock_expr.specs.Links.{HasGrown, on, settle, hits, replaced, before, link};
ghost use Rattle.asl_lock_expr.specs.LinksView.{seen};

use crate::call_links::add_called;
use crate::class::{base_class, next_class};
use crate::link_context::LinkContext;
use crate::path_tests::{begins_with_star, is_hit, is_register};
use crate::settled::{add, add_on};
use asl_code::{Base, Effect, Expr, Instr, Lock, Op};
use std::alloc::AllocError;

/// Adds the locks before the instruction that the lock after it becomes (`docs/ANALYSIS.md`, "Links"). After a refusal
/// `into` has what it had, perhaps with more after it.
///
/// # Errors
///
/// An allocation failed.
pub fn add_links(
    view: &LinkContext,
    instr: &Instr,
    lock: &Lock,
    into: &mut Vec<Lock>,
) -> Result<(), AllocError>
    requires { view.now.k_limit ≤ 8 }
    ensures ok { OnOk result (into.new.items ≡ into.old.items ++ link (seen view.now) instr.now lock.now) }
    ensures err { OnErr result (HasGrown into.old.items into.new.items) }
{
    match lock {
        Lock::Root(effect) => add(into, Lock::Root(*effect)),
        Lock::Class(class, effect) => add(into, Lock::Class(*class, *effect)),
        Lock::Expr(expr, effect) => add_before(view, instr, expr, *effect, into),
    }
}

/// Adds what an expression after the instruction becomes before it.
fn add_before(
    view: &LinkContext,
    instr: &Instr,
    expr: &Expr,
    effect: Effect,
    into: &mut Vec<Lock>,
) -> Result<(), AllocError>
    requires { view.now.k_limit ≤ 8 }
    ensures ok { OnOk result (into.new.items
        ≡ into.old.items ++ flat_map (settle (seen view.now)) (before (seen view.now) instr.now expr.now effect)) }
    ensures err { OnErr result (HasGrown into.old.items into.new.items) }
{
    let ops = expr.path.as_slice();
    match *instr {
        Instr::Move { to, from } => {
            add_replaced(view, to, Base::Reg(from), &[], expr, effect, into)
        }
        Instr::GlobalAddress { to, global } => {
            add_replaced(view, to, Base::Global(global), &[], expr, effect, into)
        }
        Instr::FieldAddress { to, from, offset } => {
            add_gone_on(view, to, from, Op::Off(offset), expr, effect, into)
        }
        Instr::Load { to, address } => {
            add_gone_on(view, to, address, Op::Deref, expr, effect, into)
        }
        Instr::SetInt { to, .. }
        | Instr::SetNull { to }
        | Instr::Add { to, .. }
        | Instr::Subtract { to, .. }
        | Instr::LessThan { to, .. }
        | Instr::Equals { to, .. }
        | Instr::New { to, .. } => add_other(view, to, expr, effect, into),
        Instr::Store { address, from } => add_stored(view, address, from, expr, effect, into),
        Instr::Call { to, function, .. } => add_called(view, to, function, expr, effect, into),
        Instr::Jump { .. }
        | Instr::JumpIfZero { .. }
        | Instr::Return { .. }
        | Instr::Output { .. }
        | Instr::Acquire { .. }
        | Instr::Release => add_on(view, expr.base, &[], ops, effect, into),
    }
}

/// An expression on register `to` becomes one on register `from`, with the operation before its path; every other stays.
fn add_gone_on(
    view: &LinkContext,
    to: u8,
    from: u8,
    op: Op,
    expr: &Expr,
    effect: Effect,
    into: &mut Vec<Lock>,
) -> Result<(), AllocError>
    requires { view.now.k_limit ≤ 8 }
    ensures ok { OnOk result (into.new.items
        ≡ into.old.items ++ flat_map (settle (seen view.now)) (replaced to expr.now effect (on (Base.Reg from) (op ∷ expr.now.path) effect ∷ []))) }
    ensures err { OnErr result (HasGrown into.old.items into.new.items) }
{
    add_replaced(view, to, Base::Reg(from), &[op], expr, effect, into)
}

/// An expression on register `to` becomes one on `base`, with `front` before its path; every other stays.
fn add_replaced(
    view: &LinkContext,
    to: u8,
    base: Base,
    front: &[Op],
    expr: &Expr,
    effect: Effect,
    into: &mut Vec<Lock>,
) -> Result<(), AllocError>
    requires short { view.now.k_limit ≤ 8 }
    requires front { length front.now ≤ 1 }
    ensures ok { OnOk result (into.new.items
        ≡ into.old.items ++ flat_map (settle (seen view.now)) (replaced to expr.now effect (on base (front.now ++ expr.now.path) effect ∷ []))) }
    ensures err { OnErr result (HasGrown into.old.items into.new.items) }
{
    let ops = expr.path.as_slice();
    if is_register(to, expr.base) {
        add_on(view, base, front, ops, effect, into)
    } else {
        add_on(view, expr.base, &[], ops, effect, into)
    }
}

/// An expression on register `to` is dropped; every other stays.
fn add_other(
    view: &LinkContext,
    to: u8,
    expr: &Expr,
    effect: Effect,
    into: &mut Vec<Lock>,
) -> Result<(), AllocError>
    requires { view.now.k_limit ≤ 8 }
    ensures ok { OnOk result (into.new.items
        ≡ into.old.items ++ flat_map (settle (seen view.now)) (replaced to expr.now effect [])) }
    ensures err { OnErr result (HasGrown into.old.items into.new.items) }
{
    if is_register(to, expr.base) {
        Ok(())
    } else {
        add_on(view, expr.base, &[], expr.path.as_slice(), effect, into)
    }
}

/// The expression stays, except where its path begins with `*` on the register of the address; and for each `*` whose
/// address has the class that is stored to, it may continue from the stored value.
fn add_stored(
    view: &LinkContext,
    address: u8,
    from: u8,
    expr: &Expr,
    effect: Effect,
    into: &mut Vec<Lock>,
) -> Result<(), AllocError>
    requires { view.now.k_limit ≤ 8 }
    ensures ok { OnOk result (into.new.items
        ≡ into.old.items ++ flat_map (settle (seen view.now)) (before (seen view.now) (Instr.Store address from) expr.now effect)) }
    ensures err { OnErr result (HasGrown into.old.items into.new.items) }
{
    let ops = expr.path.as_slice();
    if !(is_register(address, expr.base) && begins_with_star(ops)) {
        add_on(view, expr.base, &[], ops, effect, into)?;
    }
    add_hits(view, address, from, expr, effect, into)
}

/// Adds what the lock may be before a store through `address`, for each place of its path where the stored cell may be read.
fn add_hits(
    view: &LinkContext,
    address: u8,
    from: u8,
    expr: &Expr,
    effect: Effect,
    into: &mut Vec<Lock>,
) -> Result<(), AllocError>
    requires { view.now.k_limit ≤ 8 }
    ensures ok { OnOk result (into.new.items
        ≡ into.old.items ++ flat_map (settle (seen view.now))
        (hits view.now.classes.now (to view.now.classes.now view.now.function address) from effect
        (base_class view.now.classes.now view.now.function expr.now.base) expr.now.path)) }
    ensures err { OnErr result (HasGrown into.old.items into.new.items) }
{
    let hit = view.classes.to(view.function, address);
    let ops = expr.path.as_slice();
    let mut class = base_class(view.classes, view.function, expr.base);
    for (i, op) in ops.iter().enumerate() {
        if is_hit(*op, class, hit) {
            add_on(view, Base::Reg(from), &[], &ops[i + 1..], effect, into)?;
        }
        class = next_class(view.classes, *op, class);
    }
    Ok(())
}
