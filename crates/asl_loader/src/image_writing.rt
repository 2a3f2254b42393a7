//! Writing a program as bytes, field by field.

ghost use Rattle.std.specs.Prelude.{◌≡◌, ◌<◌, ◌^◌, ℕ, List, [], length, IfOk, OnOk};
ghost use Rattle.std.specs.List.{AllByRecursion};
ghost use Rattle.asl_code.specs.declared.image.Function.{Function};
ghost use Rattle.asl_code.specs.declared.instr.Instr.{Instr};
ghost use Rattle.asl_code.specs.declared.lock.Lock.{Lock};
ghost use Rattle.asl_code.specs.declared.path.Op.{Op};
ghost use Rattle.asl_code.specs.Spelling.{IsInstr};
ghost use Rattle.asl_loader.specs.Bytes.{counted, class_fields, function_fields, instr_fields};
ghost use Rattle.asl_loader.specs.Bytes.{op_fields, path_fields, lock_fields, list_fields};
ghost use Rattle.asl_loader.specs.Bytes.{IsFunction, IsOp, IsPath, IsLock, IsList, AreItems, SpellsImage};
ghost use Rattle.asl_loader.specs.SharedFields.{Writes};
ghost use Rattle.asl_loader.specs.Writing.{WritesEach, HasFields};

use crate::shared_fields::{put_byte, put_effect, put_two};
use asl_code::{Base, Function, Image, Instr, Items, Lock, Op, Path, Program, put_instr};
use std::alloc::{AllocError, Global};

/// The bytes of the program.
///
/// # Errors
///
/// An allocation failed.
pub fn store(alloc: Global, program: &Program) -> Result<Vec<u8>, AllocError>
    ensures { IfOk result (λ bytes. SpellsImage program.now bytes.items) }
{
    let mut out = Vec::new(alloc);
    put_image(&mut out, program.image())?;
    Ok(out)
}

/// All fields of an image, in the order of the format.
fn put_image(out: &mut Vec<u8>, image: &Image) -> Result<(), AllocError>
    requires empty { out.old.items ≡ [] }
    requires has { HasFields image.now }
    ensures { OnOk result (SpellsImage image.now out.new.items) }
{
    out.extend_from_slice(b"ASLM")?;
    put_two(out, image.version as u16)?;
    put_two(out, image.classes as u16)?;
    put_globals(out, image.globals.as_slice())?;
    put_functions(out, image.functions.as_slice())?;
    put_two(out, image.start)?;
    put_code(out, image.code.as_slice())?;
    put_lists(out, image.lists.as_slice())
}

/// How many globals there are, then the class of each.
fn put_globals(out: &mut Vec<u8>, globals: &[u16]) -> Result<(), AllocError>
    requires { length globals.now < 2 ^ 16 }
    ensures { OnOk result (Writes (List ℕ) (AreItems ℕ (λ class. class < 2 ^ 16)) (counted class_fields)
        out.old.items out.new.items globals.now) }
{
    put_two(out, globals.len() as u16)?;
    put_classes(out, globals)
}

/// The classes, two bytes each.
fn put_classes(out: &mut Vec<u8>, classes: &[u16]) -> Result<(), AllocError>
    ensures { OnOk result (WritesEach ℕ (λ class. class < 2 ^ 16) class_fields out.old.items out.new.items classes.now) }
{
    for class in classes {
        put_two(out, *class)?;
    }
    Ok(())
}

/// How many parameters, registers and instructions a function has.
fn put_function(out: &mut Vec<u8>, function: &Function) -> Result<(), AllocError>
    requires { function.now.len < 2 ^ 16 }
    ensures { OnOk result (Writes Function IsFunction function_fields out.old.items out.new.items function.now) }
{
    put_byte(out, function.params)?;
    put_byte(out, function.regs)?;
    put_two(out, function.len as u16)
}

/// How many functions there are, then each.
fn put_functions(out: &mut Vec<u8>, functions: &[Function]) -> Result<(), AllocError>
    requires count { length functions.now < 2 ^ 16 }
    requires each { AllByRecursion (λ f. f.len < 2 ^ 16) functions.now }
    ensures { OnOk result (Writes (List Function) (AreItems Function IsFunction) (counted function_fields)
        out.old.items out.new.items functions.now) }
{
    put_two(out, functions.len() as u16)?;
    put_each_function(out, functions)
}

/// The functions, four bytes each.
fn put_each_function(out: &mut Vec<u8>, functions: &[Function]) -> Result<(), AllocError>
    requires { AllByRecursion (λ f. f.len < 2 ^ 16) functions.now }
    ensures { OnOk result (WritesEach Function IsFunction function_fields out.old.items out.new.items functions.now) }
{
    for function in functions {
        put_function(out, function)?;
    }
    Ok(())
}

/// How many instructions there are, then each.
fn put_code(out: &mut Vec<u8>, code: &[Instr]) -> Result<(), AllocError>
    requires { length code.now < 2 ^ 16 }
    ensures { OnOk result (Writes (List Instr) (AreItems Instr IsInstr) (counted instr_fields)
        out.old.items out.new.items code.now) }
{
    put_two(out, code.len() as u16)?;
    put_instrs(out, code)
}

/// The instructions, eight bytes each.
fn put_instrs(out: &mut Vec<u8>, code: &[Instr]) -> Result<(), AllocError>
    ensures { OnOk result (WritesEach Instr IsInstr instr_fields out.old.items out.new.items code.now) }
{
    for instr in code {
        put_one_instr(out, instr)?;
    }
    Ok(())
}

/// The eight bytes of an instruction.
fn put_one_instr(out: &mut Vec<u8>, instr: &Instr) -> Result<(), AllocError>
    ensures { OnOk result (Writes Instr IsInstr instr_fields out.old.items out.new.items instr.now) }
{
    out.extend_from_slice(&put_instr(instr))
}

/// How many lists there are, then each.
fn put_lists(out: &mut Vec<u8>, lists: &[Items<Lock>]) -> Result<(), AllocError>
    requires count { length lists.now < 2 ^ 16 }
    requires each { AllByRecursion (λ locks. length locks < 2 ^ 16) lists.now }
    ensures { OnOk result (Writes (List (List Lock)) (AreItems (List Lock) IsList) (counted list_fields)
        out.old.items out.new.items lists.now) }
{
    put_two(out, lists.len() as u16)?;
    put_each_list(out, lists)
}

/// The lists, one after the other.
fn put_each_list(out: &mut Vec<u8>, lists: &[Items<Lock>]) -> Result<(), AllocError>
    requires { AllByRecursion (λ locks. length locks < 2 ^ 16) lists.now }
    ensures { OnOk result (WritesEach (List Lock) IsList list_fields out.old.items out.new.items lists.now) }
{
    for list in lists {
        put_list(out, list.as_slice())?;
    }
    Ok(())
}

/// How many locks a list has, then each.
fn put_list(out: &mut Vec<u8>, locks: &[Lock]) -> Result<(), AllocError>
    requires { length locks.now < 2 ^ 16 }
    ensures { OnOk result (Writes (List Lock) IsList list_fields out.old.items out.new.items locks.now) }
{
    put_two(out, locks.len() as u16)?;
    put_locks(out, locks)
}

/// The locks, one after the other.
fn put_locks(out: &mut Vec<u8>, locks: &[Lock]) -> Result<(), AllocError>
    ensures { OnOk result (WritesEach Lock IsLock lock_fields out.old.items out.new.items locks.now) }
{
    for lock in locks {
        put_lock(out, lock)?;
    }
    Ok(())
}

/// The byte of the kind of lock, its effect, and what it is on.
fn put_lock(out: &mut Vec<u8>, lock: &Lock) -> Result<(), AllocError>
    ensures { OnOk result (Writes Lock IsLock lock_fields out.old.items out.new.items lock.now) }
{
    match lock {
        Lock::Root(effect) => {
            put_byte(out, 0)?;
            put_effect(out, *effect)
        }
        Lock::Class(class, effect) => {
            put_byte(out, 1)?;
            put_effect(out, *effect)?;
            put_two(out, *class)
        }
        Lock::Expr(expr, effect) => match expr.base {
            Base::Reg(register) => {
                put_byte(out, 2)?;
                put_effect(out, *effect)?;
                put_byte(out, register)?;
                put_path(out, &expr.path)
            }
            Base::Global(global) => {
                put_byte(out, 3)?;
                put_effect(out, *effect)?;
                put_two(out, global)?;
                put_path(out, &expr.path)
            }
        },
    }
}

/// How many operations a path has, then each.
fn put_path(out: &mut Vec<u8>, path: &Path) -> Result<(), AllocError>
    ensures { OnOk result (Writes (List Op) IsPath path_fields out.old.items out.new.items path.now) }
{
    put_byte(out, path.len() as u8)?;
    put_ops(out, path.as_slice())
}

/// The operations, one after the other.
fn put_ops(out: &mut Vec<u8>, ops: &[Op]) -> Result<(), AllocError>
    ensures { OnOk result (WritesEach Op IsOp op_fields out.old.items out.new.items ops.now) }
{
    for op in ops {
        put_op(out, *op)?;
    }
    Ok(())
}

/// The byte of the operation, then the offset where it has one.
fn put_op(out: &mut Vec<u8>, op: Op) -> Result<(), AllocError>
    ensures { OnOk result (Writes Op IsOp op_fields out.old.items out.new.items op) }
{
    match op {
        Op::Deref => put_byte(out, 0),
        Op::Off(offset) => {
            put_byte(out, 1)?;
            put_byte(out, offset)
        }
    }
}
