//! The lines of locks in an assembly text.
ghost use Rattle.asl_code.specs.declared.lock.Lock.TheVariants as lock;
ghost use Rattle.asl_assembler.specs.declared.line.Line.TheVariants as line;
ghost use Rattle.std.specs.Prelude.{◌≡◌, ◌≤◌, ◌++◌, length, OnOk, codes};
ghost use Rattle.asl_code.specs.declared.lock.Base.{Base};
ghost use Rattle.asl_code.specs.declared.path.Op.{Op};
ghost use Rattle.asl_assembler.specs.Text.{effect_token};
ghost use Rattle.asl_assembler.specs.Canonical.{word_of, line_text};
ghost use Rattle.asl_assembler.specs.Writing.{Writes, WritesEach, WritesLine, FitsBaseWord, base_text, FitsOpWord, op_text};

use crate::line_piece::Piece;
use asl_code::{Base, Effect, Expr, Lock, Op};
use std::alloc::AllocError;

/// The word of an effect.
fn effect_name(effect: Effect) -> &'static [u8]
    ensures word { result.now ≡ word_of (effect_token effect) }
    ensures short { length result.now ≤ 5 }
{
    match effect {
        Effect::Read => b"read",
        Effect::Write => b"write",
    }
}

/// The word where an expression begins.
fn base_word(base: Base) -> Piece
    ensures written { result ≡ base_text base }
    ensures fits { FitsBaseWord base }
{
    let mut word = Piece::new();
    match base {
        Base::Reg(register) => word.register(register),
        Base::Global(global) => word.global(global),
    }
    word
}

/// An operation of a path, after a space.
fn op_word(op: Op) -> Piece
    ensures written { result ≡ op_text op }
    ensures fits { FitsOpWord op }
{
    let mut word = Piece::new();
    match op {
        Op::Deref => word.word(b" *"),
        Op::Off(offset) => {
            word.number(u32::from(offset));
            word.word(b" .");
        }
    }
    word
}

/// The word of the register or the global from which an expression goes.
fn put_base(text: &mut Vec<u8>, base: Base) -> Result<(), AllocError>
    ensures { OnOk result (Writes Base FitsBaseWord base_text text.old.items text.new.items base) }
{
    let word = base_word(base);
    word.add_to(text)
}

/// The word of one operation of a path.
fn put_op(text: &mut Vec<u8>, op: Op) -> Result<(), AllocError>
    ensures { OnOk result (Writes Op FitsOpWord op_text text.old.items text.new.items op) }
{
    let word = op_word(op);
    word.add_to(text)
}

/// The words of a path, from its base on.
fn put_ops(text: &mut Vec<u8>, ops: &[Op]) -> Result<(), AllocError>
    ensures { OnOk result (WritesEach Op FitsOpWord op_text text.old.items text.new.items ops.now) }
{
    for op in ops {
        put_op(text, *op)?;
    }
    Ok(())
}

/// The end of a line that names an effect.
fn effect_end(effect: Effect) -> Piece
    ensures written { result ≡ codes " " ++ (word_of (effect_token effect) ++ codes "\n") }
    ensures short { length result ≤ 7 }
{
    let mut line = Piece::new();
    line.byte(b'\n');
    line.word(effect_name(effect));
    line.byte(b' ');
    line
}

/// The line of a lock on the cell that an expression names.
fn put_expr(text: &mut Vec<u8>, expr: &Expr, effect: Effect) -> Result<(), AllocError>
    ensures { OnOk result (WritesLine text.old.items text.new.items (line.Lock (lock.Expr expr.now effect))) }
{
    text.extend_from_slice(b"expr ")?;
    put_base(text, expr.base)?;
    put_ops(text, expr.path.as_slice())?;
    let line = effect_end(effect);
    line.add_to(text)
}

/// The line of the root.
fn root_line(effect: Effect) -> Piece
    ensures { result ≡ line_text (line.Lock (lock.Root effect)) }
{
    let mut line = effect_end(effect);
    line.word(b"root");
    line
}

/// The line of a class.
fn class_line(class: u16, effect: Effect) -> Piece
    ensures { result ≡ line_text (line.Lock (lock.Class class effect)) }
{
    let mut line = effect_end(effect);
    line.number(u32::from(class));
    line.word(b"class ");
    line
}

/// The line of a lock on the root.
fn put_root(text: &mut Vec<u8>, effect: Effect) -> Result<(), AllocError>
    ensures { OnOk result (WritesLine text.old.items text.new.items (line.Lock (lock.Root effect))) }
{
    let line = root_line(effect);
    line.add_to(text)
}

/// The line of a lock on a class.
fn put_class(text: &mut Vec<u8>, class: u16, effect: Effect) -> Result<(), AllocError>
    ensures { OnOk result (WritesLine text.old.items text.new.items (line.Lock (lock.Class class effect))) }
{
    let line = class_line(class, effect);
    line.add_to(text)
}

/// Adds the line of a lock.
pub(crate) fn put_lock(text: &mut Vec<u8>, lock: &Lock) -> Result<(), AllocError>
    ensures { OnOk result (WritesLine text.old.items text.new.items (line.Lock lock.now)) }
{
    match lock {
        Lock::Root(effect) => put_root(text, *effect),
        Lock::Class(class, effect) => put_class(text, *class, *effect),
        Lock::Expr(expr, effect) => put_expr(text, expr, *effect),
    }
}
