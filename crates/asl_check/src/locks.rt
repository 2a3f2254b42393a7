//! Locks made and compared without memory.
ghost use Rattle.std.specs.Prelude.{◌≡◌, ◌≤◌, ◌↔◌, IsTrue, length};
ghost use Rattle.std.specs.declared.cmp.Ordering.TheVariants.{Less};
ghost use Rattle.asl_code.specs.declared.value.Effect.TheVariants.{Read};
ghost use Rattle.asl_lock_expr.specs.Links.{on};
ghost use Rattle.asl_lock_expr.specs.Order.{lock_cmp};
ghost use Rattle.asl_emitter.specs.Lists.{Absorbs};

use asl_code::{Base, Effect, Expr, Lock, Op, Path};
use asl_emitter::suffices_for;
use asl_points_to::Classes;
use std::cmp::Ordering;

/// The path of these operations.
fn path_of(ops: &[Op]) -> Path
    requires { length ops.now ≤ 8 }
    ensures { result ≡ ops.now }
{
    let mut path = Path::new();
    for op in ops {
        path.push(*op);
    }
    path
}

/// The lock that is asked for where the cell at the end of this path is read.
pub fn read_on(base: Base, ops: &[Op]) -> Lock
    requires { length ops.now ≤ 8 }
    ensures { result ≡ on base ops.now Read }
{
    let path = path_of(ops);
    Lock::Expr(Expr { base, path }, Effect::Read)
}

/// The same lock.
pub fn copied(lock: &Lock) -> Lock
    ensures { result ≡ lock.now }
{
    match lock {
        Lock::Root(effect) => Lock::Root(*effect),
        Lock::Class(class, effect) => Lock::Class(*class, *effect),
        Lock::Expr(expr, effect) => {
            let path = path_of(expr.path.as_slice());
            Lock::Expr(
                Expr {
                    base: expr.base,
                    path,
                },
                *effect,
            )
        }
    }
}

/// Whether both are the same lock.
pub fn are_same(lock: &Lock, other: &Lock) -> bool
    ensures { IsTrue result ↔ (lock.now ≡ other.now) }
{
    lock == other
}

/// Whether the first lock absorbs the second in a function.
pub fn absorbs(classes: &Classes, function: u16, lock: &Lock, other: &Lock) -> bool
    ensures { IsTrue result ↔ Absorbs classes.now function lock.now other.now }
{
    if are_same(lock, other) {
        return false;
    }
    suffices_for(classes, function, lock, other)
}

/// Which lock comes first.
#[tactic(auto, using(asl_lock_expr::proofs::Derived::derived_is))]
fn compare(a: &Lock, b: &Lock) -> Ordering
    ensures { result ≡ lock_cmp a.now b.now }
{
    a.cmp(b)
}

/// Whether the first lock comes before the second.
pub fn is_before(lock: &Lock, other: &Lock) -> bool
    ensures { IsTrue result ↔ (lock_cmp lock.now other.now ≡ Less) }
{
    match compare(lock, other) {
        Ordering::Less => true,
        _ => false,
    }
}
