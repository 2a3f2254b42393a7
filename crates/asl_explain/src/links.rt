//! Which lock after an instruction may become a given one before it. Each answers `true` only where that is so; one `false` too many loses a
//! chain, which `tests/explained` finds.
ghost use Rattle.std.specs.Prelude.{◌≡◌, ◌≤◌, ◌+◌, IfOk, IsTrue};
ghost use Rattle.std.specs.List.{flat_map};
ghost use Rattle.asl_lock_expr.specs.Links.{IsOne, accesses, link, settle, renamed, dereferenced};
ghost use Rattle.asl_lock_expr.specs.LinksView.{seen};

use asl_code::{Base, Effect, Expr, Instr, Lock, Op, Path};
use asl_lock_expr::{LinkContext, add_accesses, add_dereferenced, add_entered, add_links, stays};
use std::alloc::{AllocError, Global};

/// The lock on a base with an operation in front of the rest of a path, as far as a path has room for it.
pub fn lock_on(base: Base, front: Option<Op>, rest: &[Op], effect: Effect) -> Lock {
    let mut path = Path::new();
    if let Some(op) = front {
        path.push(op);
    }
    for op in rest {
        if path.len() < Path::MAX_LEN {
            path.push(*op);
        }
    }
    Lock::Expr(Expr { base, path }, effect)
}

/// The lock for reading on the expression of the first operations of a path.
pub fn front_of(expr: &Expr, len: usize) -> Lock {
    let ops = expr.path.as_slice();
    lock_on(expr.base, None, &ops[..len.min(ops.len())], Effect::Read)
}

/// Whether the lock is one of these.
pub fn is_among(locks: &[Lock], lock: &Lock) -> bool
    ensures { IsTrue result → IsOne locks.now lock.now }
{
    for other in locks {
        if are_same(other, lock) {
            return true;
        }
    }
    false
}

/// Whether both are the same lock.
pub fn are_same(lock: &Lock, other: &Lock) -> bool
    ensures { IsTrue result → lock.now ≡ other.now }
{
    lock == other
}

/// The same lock.
pub fn copied(lock: &Lock) -> Result<Lock, AllocError>
    ensures { IfOk result (λ copy. copy ≡ lock.now) }
{
    lock.clone()
}

/// Whether the lock is one that the instruction needs itself.
pub fn is_accessed(
    alloc: Global,
    view: &LinkContext,
    instr: &Instr,
    lock: &Lock,
) -> Result<bool, AllocError>
    requires { view.now.k_limit ≤ 8 }
    ensures { IfOk result (λ b. IsTrue b → IsOne (accesses (seen view.now) instr.now) lock.now) }
{
    let mut locks = Vec::new(alloc);
    add_accesses(view, instr, &mut locks)?;
    Ok(is_among(&locks, lock))
}

/// Whether the first lock, after the instruction, becomes the second before it.
pub fn is_link(
    alloc: Global,
    view: &LinkContext,
    instr: &Instr,
    after: &Lock,
    before: &Lock,
) -> Result<bool, AllocError>
    requires { view.now.k_limit ≤ 8 }
    ensures { IfOk result (λ b. IsTrue b → IsOne (link (seen view.now) instr.now after.now) before.now) }
{
    let mut locks = Vec::new(alloc);
    add_links(view, instr, after, &mut locks)?;
    Ok(is_among(&locks, before))
}

/// Whether the first lock, at the entry of a callee with so many parameters, becomes the second at its call, whose arguments are in
/// the registers from `first` on.
pub fn is_entered(
    alloc: Global,
    view: &LinkContext,
    first: u8,
    params: u8,
    entered: &Lock,
    called: &Lock,
) -> Result<bool, AllocError>
    requires { view.now.k_limit ≤ 8 }
    ensures { IfOk result (λ b. IsTrue b → IsOne (flat_map (settle (seen view.now)) (renamed first params entered.now)) called.now) }
{
    if u16::from(first) + u16::from(params) > 256 {
        return Ok(false);
    }
    let mut locks = Vec::new(alloc);
    add_entered(view, first, params, entered, &mut locks)?;
    Ok(is_among(&locks, called))
}

/// Whether evaluating the first lock reads the cell of the second.
pub fn is_dereferenced(alloc: Global, lock: &Lock, front: &Lock) -> Result<bool, AllocError>
    ensures { IfOk result (λ b. IsTrue b → IsOne (dereferenced lock.now) front.now) }
{
    let mut locks = Vec::new(alloc);
    add_dereferenced(lock, &mut locks)?;
    Ok(is_among(&locks, front))
}

/// Whether the lock stays over the instruction, perhaps besides others that it becomes.
pub fn is_kept(
    alloc: Global,
    view: &LinkContext,
    instr: &Instr,
    lock: &Lock,
) -> Result<bool, AllocError>
    requires { view.now.k_limit ≤ 8 }
    ensures { IfOk result (λ b. IsTrue b → IsOne (link (seen view.now) instr.now lock.now) lock.now) }
{
    if stays(view, instr, lock) {
        return Ok(true);
    }
    is_link(alloc, view, instr, lock, lock)
}

/// The lock after an instruction, other than this one, that becomes this one before it because its base changes.
pub fn based_back(instr: &Instr, lock: &Lock) -> Option<Lock> {
    let Lock::Expr(expr, effect) = lock else {
        return None;
    };
    let ops = expr.path.as_slice();
    match (*instr, expr.base) {
        (Instr::Move { to, from }, Base::Reg(register)) if from == register => {
            Some(lock_on(Base::Reg(to), None, ops, *effect))
        }
        (Instr::GlobalAddress { to, global }, Base::Global(own)) if global == own => {
            Some(lock_on(Base::Reg(to), None, ops, *effect))
        }
        (Instr::FieldAddress { to, from, offset }, Base::Reg(register)) if from == register => {
            without_front(to, Op::Off(offset), ops, *effect)
        }
        (Instr::Load { to, address }, Base::Reg(register)) if address == register => {
            without_front(to, Op::Deref, ops, *effect)
        }
        _ => None,
    }
}

/// The lock on a register with the path without its first operation, if that is the one that is named.
fn without_front(register: u8, front: Op, ops: &[Op], effect: Effect) -> Option<Lock> {
    let (first, rest) = ops.split_first()?;
    if *first == front {
        Some(lock_on(Base::Reg(register), None, rest, effect))
    } else {
        None
    }
}

/// The lock at the entry of a callee that becomes this one at its call, whose arguments are in the registers from `first` on.
pub fn entered_back(first: u8, params: u8, lock: &Lock) -> Result<Option<Lock>, AllocError> {
    if let Lock::Expr(expr, effect) = lock {
        if let Base::Reg(register) = expr.base {
            if register < first || register - first >= params {
                return Ok(None);
            }
            let ops = expr.path.as_slice();
            let base = Base::Reg(register - first);
            return Ok(Some(lock_on(base, None, ops, *effect)));
        }
    }
    Ok(Some(lock.clone()?))
}
