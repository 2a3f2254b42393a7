//! The locks and lists at the front of the bytes of an image.
ghost use Rattle.std.specs.Prelude.{◌≤◌, Bool, ◌&&◌, List, [], ◌∷◌, ◌++◌};
ghost use Rattle.asl_code.specs.declared.lock.Lock.{Lock};
ghost use Rattle.asl_loader.specs.Faults.{is_short, are_short};
ghost use Rattle.asl_loader.specs.SharedFields.{Gives};
ghost use Rattle.asl_loader.specs.ImageFields.{Holds, IsHeld, op_at, items_at, counted_at, path_at, expr_at, lock_of, lock_at, list_at};

use crate::fault::{Lost, Stop};
use crate::shared_fields::{below_at, byte_at, effect_at, two_at};
use asl_code::{Base, Effect, Expr, Items, Lock, NEWEST_LIMITS, Op, Path, image_limits};
use std::alloc::Global;

/// The operation at the front of the bytes, and the bytes behind it.
#[tactic(auto, unfolding(crate::specs::ImageFields::op_at))]
fn op_at(bytes: &[u8]) -> Result<(Op, &[u8]), Stop>
    ensures { Gives (λ x. (x.0, x.1.now)) result (op_at bytes.now) }
{
    let (kind, rest) = below_at(2, bytes)?;
    if kind == 0 {
        return Ok((Op::Deref, rest));
    }
    let (offset, rest) = byte_at(rest)?;
    Ok((Op::Off(offset), rest))
}

/// The path of so many operations, and the bytes behind it.
fn ops_of(count: u8, bytes: &[u8]) -> Result<(Path, &[u8]), Stop>
    requires { count ≤ 8 }
    ensures { Gives (λ x. (x.0, x.1.now)) result (items_at op_at count bytes.now) }
{
    let mut path = Path::new();
    let mut rest = bytes;
    for _ in 0..count {
        let (op, after) = op_at(rest)?;
        path.push(op);
        rest = after;
    }
    Ok((path, rest))
}

#[tactic(auto, unfolding(crate::specs::ImageFields::path_at))]
fn path_at(bytes: &[u8]) -> Result<(Path, &[u8]), Stop>
    ensures { Gives (λ x. (x.0, x.1.now)) result (path_at bytes.now) }
{
    let (count, rest) = below_at(9, bytes)?;
    ops_of(count, rest)
}

#[tactic(auto, unfolding(crate::specs::ImageFields::expr_at))]
fn expr_at(base: Base, effect: Effect, bytes: &[u8]) -> Result<(Lock, &[u8]), Stop>
    ensures { Gives (λ x. (x.0, x.1.now)) result (expr_at base effect bytes.now) }
{
    let (path, rest) = path_at(bytes)?;
    Ok((Lock::Expr(Expr { base, path }, effect), rest))
}

/// The rest of a lock, after its kind and its effect.
#[tactic(auto, unfolding(crate::specs::ImageFields::lock_of))]
fn lock_of(kind: u8, effect: Effect, bytes: &[u8]) -> Result<(Lock, &[u8]), Stop>
    ensures { Gives (λ x. (x.0, x.1.now)) result (lock_of kind effect bytes.now) }
{
    match kind {
        0 => Ok((Lock::Root(effect), bytes)),
        1 => {
            let (class, rest) = two_at(bytes)?;
            Ok((Lock::Class(class, effect), rest))
        }
        2 => {
            let (register, rest) = byte_at(bytes)?;
            expr_at(Base::Reg(register), effect, rest)
        }
        _ => {
            let (global, rest) = two_at(bytes)?;
            expr_at(Base::Global(global), effect, rest)
        }
    }
}

#[tactic(auto, unfolding(crate::specs::ImageFields::lock_at))]
fn lock_at(bytes: &[u8]) -> Result<(Lock, &[u8]), Stop>
    ensures { Gives (λ x. (x.0, x.1.now)) result (lock_at bytes.now) }
{
    let (kind, rest) = below_at(4, bytes)?;
    let (effect, rest) = effect_at(rest)?;
    lock_of(kind, effect, rest)
}

/// The items with one more, as long as they are kept and there is memory for all.
fn with_more<T: Drop>(kept: Result<Items<T>, Lost>, item: T) -> Result<Items<T>, Lost>
    ensures { (short : Bool) (front : List T) → IsHeld short kept front → IsHeld short result (front ++ item ∷ []) }
{
    match kept {
        Ok(mut items) => match items.push(item) {
            Ok(()) => Ok(items),
            Err(_refused) => Err(Lost::Memory),
        },
        Err(lost) => Err(lost),
    }
}

/// Nothing is kept where the locks are more than a program of any version has in a list.
fn locks_of(
    alloc: Global,
    count: u16,
    bytes: &[u8],
) -> Result<(Result<Items<Lock>, Lost>, &[u8]), Stop>
    ensures { Holds is_short (λ x. x.0) (λ x. x.1.now) result (items_at lock_at count bytes.now) }
{
    let mut locks = if usize::from(count) > NEWEST_LIMITS.locks {
        Err(Lost::Long)
    } else {
        Ok(Items::new(alloc))
    };
    let mut rest = bytes;
    for _ in 0..count {
        let (lock, after) = lock_at(rest)?;
        locks = with_more(locks, lock);
        rest = after;
    }
    Ok((locks, rest))
}

/// The list at the front of the bytes, of as many locks as its first two bytes say, and the bytes behind it.
#[tactic(auto, unfolding(crate::specs::ImageFields::list_at, crate::specs::ImageFields::counted_at))]
fn list_at(alloc: Global, bytes: &[u8]) -> Result<(Result<Items<Lock>, Lost>, &[u8]), Stop>
    ensures { Holds is_short (λ x. x.0) (λ x. x.1.now) result (list_at bytes.now) }
{
    let (count, rest) = two_at(bytes)?;
    locks_of(alloc, count, rest)
}

/// The lists with one more, as long as all are kept and there is memory for them.
fn with_list(
    kept: Result<Items<Items<Lock>>, Lost>,
    list: Result<Items<Lock>, Lost>,
) -> Result<Items<Items<Lock>>, Lost>
    ensures { (short one : Bool) (front : List (List Lock)) (whole : List Lock) → IsHeld short kept front → IsHeld one list whole
        → IsHeld (short && one) result (front ++ whole ∷ []) }
{
    match (kept, list) {
        (Ok(lists), Ok(list)) => with_more(Ok(lists), list),
        (Err(Lost::Long), _) | (_, Err(Lost::Long)) => Err(Lost::Long),
        _ => Err(Lost::Memory),
    }
}

/// Nothing is kept where the lists are more than a program has, or one of them is too long.
pub(crate) fn lists_of(
    alloc: Global,
    count: u16,
    bytes: &[u8],
) -> Result<(Result<Items<Items<Lock>>, Lost>, &[u8]), Stop>
    ensures { Holds are_short (λ x. x.0) (λ x. x.1.now) result (items_at list_at count bytes.now) }
{
    let mut lists = if usize::from(count) > image_limits::LISTS {
        Err(Lost::Long)
    } else {
        Ok(Items::new(alloc))
    };
    let mut rest = bytes;
    for _ in 0..count {
        let (list, after) = list_at(alloc, rest)?;
        lists = with_list(lists, list);
        rest = after;
    }
    Ok((lists, rest))
}
