//! What an instruction may change of what a lock reads.
ghost use Rattle.std.specs.Prelude.{◌≡◌, ◌&&◌, ◌||◌, IsTrue};
ghost use Rattle.asl_points_to.specs.Classes.{to};
ghost use Rattle.asl_lock_expr.specs.ClassOf.{base_class};
ghost use Rattle.asl_lock_expr.specs.LinksView.{seen};
ghost use Rattle.asl_lock_expr.specs.Touches.{IsClear, set_by, stored_by, is_concerned};

use crate::link_context::LinkContext;
use crate::path_tests::{goes_through, is_register};
use crate::stay::{is_settled, is_stored_over};
use asl_code::{Expr, Instr, Lock};

/// What an instruction may change: instructions that touch the same leave the same locks as they are.
#[derive(Clone, Copy)]
pub enum Touch {
    /// Nothing.
    Nothing,
    /// A register, which is set.
    Register(u8),
    /// A cell whose address is in this register.
    Store(u8),
    /// The cells that a function may store to.
    Call(u16),
}

impl Touch {
    /// Whether both are the same.
    pub fn is(self, other: Touch) -> bool
        ensures { IsTrue result → self ≡ other }
    {
        match (self, other) {
            (Touch::Nothing, Touch::Nothing) => true,
            (Touch::Register(register), Touch::Register(same)) => register == same,
            (Touch::Store(register), Touch::Store(same)) => register == same,
            (Touch::Call(function), Touch::Call(same)) => function == same,
            _ => false,
        }
    }
}

/// The register that the instruction sets, if it sets one.
pub fn set_by(instr: Instr) -> Touch
    ensures { result ≡ set_by instr }
{
    match instr {
        Instr::Move { to, .. }
        | Instr::GlobalAddress { to, .. }
        | Instr::FieldAddress { to, .. }
        | Instr::Load { to, .. }
        | Instr::SetInt { to, .. }
        | Instr::SetNull { to }
        | Instr::Add { to, .. }
        | Instr::Subtract { to, .. }
        | Instr::LessThan { to, .. }
        | Instr::Equals { to, .. }
        | Instr::New { to, .. }
        | Instr::Call { to, .. } => Touch::Register(to),
        Instr::Store { .. }
        | Instr::Jump { .. }
        | Instr::JumpIfZero { .. }
        | Instr::Return { .. }
        | Instr::Output { .. }
        | Instr::Acquire { .. }
        | Instr::Release => Touch::Nothing,
    }
}

/// What the instruction stores to, itself or by a call.
pub fn stored_by(instr: Instr) -> Touch
    ensures { result ≡ stored_by instr }
{
    match instr {
        Instr::Store { address, .. } => Touch::Store(address),
        Instr::Call { function, .. } => Touch::Call(function),
        _ => Touch::Nothing,
    }
}

/// Whether what is touched does not concern the lock: a lock on the root or a class, and an expression that has a class and no
/// path that is too long, none of whose parts is touched. An instruction neither of whose two touches concerns a lock leaves
/// it, and its dereferenced prefixes, as they are.
pub fn is_clear(view: &LinkContext, touch: Touch, lock: &Lock) -> bool
    ensures { IsTrue result → IsClear (seen view.now) touch lock.now }
{
    match lock {
        Lock::Root(_) | Lock::Class(_, _) => true,
        Lock::Expr(expr, _) => !is_concerned(view, touch, expr) && is_settled(view, expr),
    }
}

/// Whether a part of the expression is touched.
fn is_concerned(view: &LinkContext, touch: Touch, expr: &Expr) -> bool
    ensures { result ≡ is_concerned (seen view.now) touch expr.now }
{
    match touch {
        Touch::Nothing => false,
        Touch::Register(register) => is_register(register, expr.base),
        Touch::Store(address) => is_stored_over(view, address, expr),
        Touch::Call(function) => goes_through(view, function, expr),
    }
}
