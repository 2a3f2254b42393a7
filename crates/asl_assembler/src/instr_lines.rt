//! The lines of instructions in an assembly text. Each is written from its end to its front (`line_piece.rt`), so what comes last is put
//! first. A piece has room for 64 bytes: hence the bound on a word, of which the longest has six letters.
ghost use Rattle.asl_code.specs.declared.lock.Lock.TheVariants as lock;
ghost use Rattle.asl_assembler.specs.declared.line.Line.TheVariants as line;
ghost use Rattle.std.specs.Prelude.{◌≡◌, ◌≤◌, [], ◌∷◌, ◌++◌, length, OnOk, codes};
ghost use Rattle.asl_assembler.specs.Words.{Short, Integer, Register, GlobalName};
ghost use Rattle.asl_assembler.specs.Canonical.{operands};
ghost use Rattle.asl_assembler.specs.Writing.{WritesLine, FitsInstrLine, instr_text};

use crate::line_piece::Piece;
use crate::print::short_line;
use asl_code::Instr;
use std::alloc::AllocError;

/// The line of a word and one register.
#[inline(always)]
fn register_line(line: &mut Piece, word: &[u8], register: u8)
    requires empty { line.old ≡ [] }
    requires short { length word.now ≤ 6 }
    ensures { line.new ≡ word.now ++ operands (codes ", ") (Register register ∷ []) }
{
    line.byte(b'\n');
    line.register(register);
    line.byte(b' ');
    line.word(word);
}

/// The line of a word and two registers.
#[inline(always)]
fn two_line(line: &mut Piece, word: &[u8], first: u8, second: u8)
    requires empty { line.old ≡ [] }
    requires short { length word.now ≤ 6 }
    ensures { line.new ≡ word.now ++ operands (codes ", ") (Register first ∷ Register second ∷ []) }
{
    line.byte(b'\n');
    line.register(second);
    line.comma();
    line.register(first);
    line.byte(b' ');
    line.word(word);
}

/// The line of a word and three registers.
#[inline(always)]
fn three_line(line: &mut Piece, word: &[u8], first: u8, second: u8, third: u8)
    requires empty { line.old ≡ [] }
    requires short { length word.now ≤ 6 }
    ensures { line.new ≡ word.now ++ operands (codes ", ") (Register first ∷ Register second ∷ Register third ∷ []) }
{
    line.byte(b'\n');
    line.register(third);
    line.comma();
    line.register(second);
    line.comma();
    line.register(first);
    line.byte(b' ');
    line.word(word);
}

/// The line of a word, a register and a number.
fn register_and_short_line(line: &mut Piece, word: &[u8], register: u8, number: u16)
    requires empty { line.old ≡ [] }
    requires short { length word.now ≤ 6 }
    ensures { line.new ≡ word.now ++ operands (codes ", ") (Register register ∷ Short number ∷ []) }
{
    line.byte(b'\n');
    line.number(u32::from(number));
    line.comma();
    line.register(register);
    line.byte(b' ');
    line.word(word);
}

/// The line of a word, two registers and a number.
#[inline(always)]
fn two_and_short_line(line: &mut Piece, word: &[u8], first: u8, second: u8, number: u16)
    requires empty { line.old ≡ [] }
    requires short { length word.now ≤ 6 }
    ensures { line.new ≡ word.now ++ operands (codes ", ") (Register first ∷ Register second ∷ Short number ∷ []) }
{
    line.byte(b'\n');
    line.number(u32::from(number));
    line.comma();
    line.register(second);
    line.comma();
    line.register(first);
    line.byte(b' ');
    line.word(word);
}

/// The line of a word, a register and two numbers.
fn register_and_shorts_line(line: &mut Piece, word: &[u8], register: u8, first: u16, second: u16)
    requires empty { line.old ≡ [] }
    requires short { length word.now ≤ 6 }
    ensures { line.new ≡ word.now ++ operands (codes ", ") (Register register ∷ Short first ∷ Short second ∷ []) }
{
    line.byte(b'\n');
    line.number(u32::from(second));
    line.comma();
    line.number(u32::from(first));
    line.comma();
    line.register(register);
    line.byte(b' ');
    line.word(word);
}

/// The line of a word, a register and an integer.
fn register_and_integer_line(line: &mut Piece, word: &[u8], register: u8, integer: i32)
    requires empty { line.old ≡ [] }
    requires short { length word.now ≤ 6 }
    ensures { line.new ≡ word.now ++ operands (codes ", ") (Register register ∷ Integer integer ∷ []) }
{
    line.byte(b'\n');
    line.integer(integer);
    line.comma();
    line.register(register);
    line.byte(b' ');
    line.word(word);
}

/// The line of a word, a register and a global.
fn register_and_global_line(line: &mut Piece, word: &[u8], register: u8, global: u16)
    requires empty { line.old ≡ [] }
    requires short { length word.now ≤ 6 }
    ensures { line.new ≡ word.now ++ operands (codes ", ") (Register register ∷ GlobalName global ∷ []) }
{
    line.byte(b'\n');
    line.global(global);
    line.comma();
    line.register(register);
    line.byte(b' ');
    line.word(word);
}

/// The line of an instruction.
fn instr_line(line: &mut Piece, instr: &Instr)
    requires { line.old ≡ [] }
    ensures written { line.new ≡ instr_text instr.now }
    ensures fits { FitsInstrLine instr.now }
{
    match *instr {
        Instr::SetInt { to, value } => register_and_integer_line(line, b"int", to, value),
        Instr::SetNull { to } => register_line(line, b"null", to),
        Instr::Move { to, from } => two_line(line, b"mov", to, from),
        Instr::Add { to, left, right } => three_line(line, b"add", to, left, right),
        Instr::Subtract { to, left, right } => three_line(line, b"sub", to, left, right),
        Instr::LessThan { to, left, right } => three_line(line, b"lt", to, left, right),
        Instr::Equals { to, left, right } => three_line(line, b"eq", to, left, right),
        Instr::GlobalAddress { to, global } => register_and_global_line(line, b"glob", to, global),
        Instr::FieldAddress { to, from, offset } => {
            two_and_short_line(line, b"field", to, from, u16::from(offset))
        }
        Instr::Load { to, address } => two_line(line, b"load", to, address),
        Instr::Store { address, from } => two_line(line, b"store", address, from),
        Instr::New { to, cells, class } => {
            register_and_shorts_line(line, b"new", to, u16::from(cells), class)
        }
        Instr::Jump { target } => short_line(line, b"jmp", target),
        Instr::JumpIfZero { test, target } => register_and_short_line(line, b"jz", test, target),
        Instr::Call {
            to,
            first,
            function,
        } => two_and_short_line(line, b"call", to, first, function),
        Instr::Return { from } => register_line(line, b"ret", from),
        Instr::Output { from } => register_line(line, b"out", from),
        Instr::Acquire { list } => short_line(line, b"acq", list),
        Instr::Release => line.word(b"rel\n"),
    }
}

/// Adds the line of an instruction.
pub(crate) fn put_instr(text: &mut Vec<u8>, instr: &Instr) -> Result<(), AllocError>
    ensures { OnOk result (WritesLine text.old.items text.new.items (line.Instruction instr.now)) }
{
    let mut line = Piece::new();
    instr_line(&mut line, instr);
    line.add_to(text)
}
