//! The class of a lock expression.
ghost use Rattle.std.specs.Prelude.{◌≡◌, option_and_then};
ghost use Rattle.asl_lock_expr.specs.ClassOf.{class_of, base_class, path_class, step_class};

use asl_code::{Base, Expr, Op};
use asl_points_to::Classes;

/// The class of an expression of a function, if it has one (`docs/ANALYSIS.md`, "Classes of expressions").
pub fn class_of(classes: &Classes, function: u16, expr: &Expr) -> Option<u16>
    ensures { result ≡ class_of classes.now function expr.now }
{
    path_class(
        classes,
        base_class(classes, function, expr.base),
        expr.path.as_slice(),
    )
}

/// The class at a base.
pub fn base_class(classes: &Classes, function: u16, base: Base) -> Option<u16>
    ensures { result ≡ base_class classes.now function base }
{
    match base {
        Base::Reg(register) => classes.to(function, register),
        Base::Global(global) => classes.globals().get(usize::from(global)).copied(),
    }
}

/// The class after the operations, from a class on.
pub fn path_class(classes: &Classes, start: Option<u16>, ops: &[Op]) -> Option<u16>
    ensures { result ≡ path_class classes.now ops.now start }
{
    let mut class = start;
    for op in ops {
        class = next_class(classes, *op, class);
    }
    class
}

/// The class after one operation.
pub fn next_class(classes: &Classes, op: Op, class: Option<u16>) -> Option<u16>
    ensures { result ≡ option_and_then (step_class classes.now op) class }
{
    match op {
        Op::Deref => classes.inside(class?),
        Op::Off(_) => class,
    }
}
