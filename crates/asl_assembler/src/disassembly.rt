//! From a program to its canonical text, part by part.

ghost use Rattle.std.specs.Prelude.{◌≡◌, ◌<◌, ◌^◌, ℕ, List, [], ◌∷◌, ◌++◌, IfOk, OnOk, codes};
ghost use Rattle.std.specs.Fmt.{decimal};
ghost use Rattle.asl_code.specs.declared.image.Image.{Image};
ghost use Rattle.asl_code.specs.declared.instr.Instr.{Instr};
ghost use Rattle.asl_code.specs.declared.lock.Lock.{Lock};
ghost use Rattle.asl_code.specs.Versions.{IsVersion};
ghost use Rattle.asl_assembler.specs.declared.line.Line.{Line};
ghost use Rattle.asl_assembler.specs.declared.line.Line.TheVariants as line;
ghost use Rattle.asl_assembler.specs.Text.{Body, Spells};
ghost use Rattle.asl_assembler.specs.Canonical.{bodies, canonical_text, line_text, FitsLine, FitsText};
ghost use Rattle.asl_assembler.specs.Writing.{Writes, WritesEach, WritesLine, FitsGlobalLine, global_text, FitsInstrLine, instr_text};
ghost use Rattle.asl_assembler.specs.Writing.{FitsLockLine, lock_text, FitsBodyLines, body_text, FitsListLines, list_text};

use crate::instr_lines::put_instr;
use crate::line_piece::Piece;
use crate::lock_lines::put_lock;
use crate::print::short_line;
use asl_code::{Function, Image, Instr, Items, Lock, Program};
use std::alloc::{AllocError, Global};

/// Bytes of text that are asked for at first for each instruction: lines are seldom longer.
const LINE_ROOM: usize = 16;

/// The canonical text of the program (`docs/FORMATS.md`).
///
/// # Errors
///
/// Nothing is refused, unless memory runs out.
pub fn disassemble(alloc: Global, program: &Program) -> Result<Vec<u8>, AllocError>
    ensures canonical { IfOk result (λ text. text.items ≡ canonical_text program.now) }
    ensures spelled { IfOk result (λ text. Spells text.items program.now) }
{
    let room = program.code().len().saturating_mul(LINE_ROOM);
    let mut text = Vec::with_capacity(alloc, room)?;
    put_image(&mut text, program.image())?;
    Ok(text)
}

/// The lines of all parts, in the order in which a text has them.
fn put_image(text: &mut Vec<u8>, image: &Image) -> Result<(), AllocError>
    requires version { IsVersion image.now.version }
    requires classes { image.now.classes < 2 ^ 16 }
    ensures { OnOk result (Writes Image FitsText canonical_text text.old.items text.new.items image.now) }
{
    put_head(text, image.version, image.classes)?;
    put_globals(text, image.globals.as_slice())?;
    put_entry(text, image.start)?;
    put_functions(text, image.functions.as_slice(), image.code.as_slice())?;
    put_lists(text, image.lists.as_slice())
}

/// The lines of the version, and of how many classes there are.
fn head_lines(version: u32, classes: u32) -> Piece
    ensures { result ≡ codes "version " ++ (decimal version ++ (codes "\nclasses " ++ (decimal classes ++ codes "\n"))) }
{
    let mut lines = Piece::new();
    lines.byte(b'\n');
    lines.number(classes);
    lines.word(b"\nclasses ");
    lines.number(version);
    lines.word(b"version ");
    lines
}

/// The version, and how many classes there are.
fn put_head(text: &mut Vec<u8>, version: u32, classes: u32) -> Result<(), AllocError>
    requires version { IsVersion version }
    requires classes { classes < 2 ^ 16 }
    ensures { OnOk result (WritesEach Line FitsLine line_text text.old.items text.new.items
        (line.Version version ∷ line.Classes classes ∷ [])) }
{
    let lines = head_lines(version, classes);
    lines.add_to(text)
}

/// The line of a global, with its class.
fn put_global(text: &mut Vec<u8>, class: u16) -> Result<(), AllocError>
    ensures { OnOk result (Writes ℕ FitsGlobalLine global_text text.old.items text.new.items class) }
{
    let mut line = Piece::new();
    short_line(&mut line, b"global", class);
    line.add_to(text)
}

/// A line a global, in the order of their numbers.
fn put_globals(text: &mut Vec<u8>, classes: &[u16]) -> Result<(), AllocError>
    ensures { OnOk result (WritesEach ℕ FitsGlobalLine global_text text.old.items text.new.items classes.now) }
{
    for class in classes {
        put_global(text, *class)?;
    }
    Ok(())
}

/// The line that says with which function a thread begins.
fn put_entry(text: &mut Vec<u8>, function: u16) -> Result<(), AllocError>
    ensures { OnOk result (WritesLine text.old.items text.new.items (line.Entry function)) }
{
    let mut line = Piece::new();
    short_line(&mut line, b"entry", function);
    line.add_to(text)
}

/// The functions, each with its body: the bodies lie one after the other in the code.
fn put_functions(
    text: &mut Vec<u8>,
    functions: &[Function],
    code: &[Instr],
) -> Result<(), AllocError>
    ensures { OnOk result (WritesEach Body FitsBodyLines body_text text.old.items text.new.items
        (bodies functions.now code.now)) }
{
    let mut rest = code;
    for function in functions {
        let len = (function.len as usize).min(rest.len());
        let (body, after) = rest.split_at(len);
        put_function(text, function, body)?;
        rest = after;
    }
    Ok(())
}

/// The line of a function, then its body.
fn put_function(text: &mut Vec<u8>, function: &Function, code: &[Instr]) -> Result<(), AllocError>
    ensures { OnOk result (Writes Body FitsBodyLines body_text text.old.items text.new.items
        (record { params = function.now.params; regs = function.now.regs; code = code.now })) }
{
    put_signature(text, function.params, function.regs)?;
    put_code(text, code)
}

/// The line of a function's registers.
fn signature_line(params: u8, regs: u8) -> Piece
    ensures { result ≡ line_text (line.Function params regs) }
{
    let mut line = Piece::new();
    line.byte(b'\n');
    line.number(u32::from(regs));
    line.byte(b' ');
    line.number(u32::from(params));
    line.word(b"fn ");
    line
}

/// The line that begins a function: how many parameters and registers it has.
fn put_signature(text: &mut Vec<u8>, params: u8, regs: u8) -> Result<(), AllocError>
    ensures { OnOk result (WritesLine text.old.items text.new.items (line.Function params regs)) }
{
    let line = signature_line(params, regs);
    line.add_to(text)
}

/// A line an instruction.
fn put_code(text: &mut Vec<u8>, code: &[Instr]) -> Result<(), AllocError>
    ensures { OnOk result (WritesEach Instr FitsInstrLine instr_text text.old.items text.new.items code.now) }
{
    for instr in code {
        put_instr(text, instr)?;
    }
    Ok(())
}

/// The lists, in the order of their numbers.
fn put_lists(text: &mut Vec<u8>, lists: &[Items<Lock>]) -> Result<(), AllocError>
    ensures { OnOk result (WritesEach (List Lock) FitsListLines list_text text.old.items text.new.items lists.now) }
{
    for list in lists {
        put_list(text, list.as_slice())?;
    }
    Ok(())
}

/// The line that begins a list, then its locks.
fn put_list(text: &mut Vec<u8>, locks: &[Lock]) -> Result<(), AllocError>
    ensures { OnOk result (Writes (List Lock) FitsListLines list_text text.old.items text.new.items locks.now) }
{
    text.extend_from_slice(b"list\n")?;
    put_locks(text, locks)
}

/// A line a lock.
fn put_locks(text: &mut Vec<u8>, locks: &[Lock]) -> Result<(), AllocError>
    ensures { OnOk result (WritesEach Lock FitsLockLine lock_text text.old.items text.new.items locks.now) }
{
    for lock in locks {
        put_lock(text, lock)?;
    }
    Ok(())
}
