//! Instructions as an assembly text has them.
ghost use Rattle.std.specs.Prelude.{◌≡◌, ◌+◌, ◌<◌, ◌≤◌, [], ◌∷◌, ◌++◌, length, OnOk, OnErr};
ghost use Rattle.std.specs.Fmt.{decimal, signed_decimal};
ghost use Rattle.asl_assembler.specs.Words.{Short, Integer, Register, GlobalName};
ghost use Rattle.asl_assembler.specs.Canonical.{word_of};
ghost use Rattle.asl_refusal_text.specs.FaultText.{instr_text, operands_text, later_text};

use crate::line_text::{Line, push};
use arrayvec::CapacityError;
use asl_code::Instr;
use itoa::Buffer;

/// Adds a number of 8 bits.
fn push_byte(line: &mut Line, number: u8) -> Result<(), CapacityError>
    ensures text { OnOk result (line.new.items ≡ line.old.items ++ decimal number) }
    ensures adds { length line.new.items ≤ length line.old.items + 3 }
    ensures room { OnErr result (256 < length line.old.items + 3) }
{
    let mut digits = Buffer::new();
    push(line, digits.format(number))
}

/// Adds a number of 16 bits.
fn push_short(line: &mut Line, number: u16) -> Result<(), CapacityError>
    ensures text { OnOk result (line.new.items ≡ line.old.items ++ decimal number) }
    ensures adds { length line.new.items ≤ length line.old.items + 5 }
    ensures room { OnErr result (256 < length line.old.items + 5) }
{
    let mut digits = Buffer::new();
    push(line, digits.format(number))
}

/// Adds an integer.
fn push_integer(line: &mut Line, integer: i32) -> Result<(), CapacityError>
    ensures text { OnOk result (line.new.items ≡ line.old.items ++ signed_decimal integer) }
    ensures adds { length line.new.items ≤ length line.old.items + 11 }
    ensures room { OnErr result (256 < length line.old.items + 11) }
{
    let mut digits = Buffer::new();
    push(line, digits.format(integer))
}

/// Adds a register.
fn push_register(line: &mut Line, register: u8) -> Result<(), CapacityError>
    ensures text { OnOk result (line.new.items ≡ line.old.items ++ word_of (Register register)) }
    ensures adds { length line.new.items ≤ length line.old.items + 4 }
    ensures room { OnErr result (256 < length line.old.items + 4) }
{
    push(line, "r")?;
    push_byte(line, register)
}

/// Adds a word and a register.
fn push_one(line: &mut Line, word: &str, register: u8) -> Result<(), CapacityError>
    requires { length word.now ≤ 6 }
    ensures text { OnOk result (line.new.items ≡ line.old.items ++ (word.now ++ operands_text (Register register ∷ []))) }
    ensures adds { length line.new.items ≤ length line.old.items + 11 }
    ensures room { OnErr result (256 < length line.old.items + 11) }
{
    push(line, word)?;
    push(line, " ")?;
    push_register(line, register)
}

/// Adds a word and a number.
fn push_one_short(line: &mut Line, word: &str, number: u16) -> Result<(), CapacityError>
    requires { length word.now ≤ 6 }
    ensures text { OnOk result (line.new.items ≡ line.old.items ++ (word.now ++ operands_text (Short number ∷ []))) }
    ensures adds { length line.new.items ≤ length line.old.items + 12 }
    ensures room { OnErr result (256 < length line.old.items + 12) }
{
    push(line, word)?;
    push(line, " ")?;
    push_short(line, number)
}

/// Adds one more register.
fn push_next(line: &mut Line, register: u8) -> Result<(), CapacityError>
    ensures text { OnOk result (line.new.items ≡ line.old.items ++ later_text (Register register ∷ [])) }
    ensures adds { length line.new.items ≤ length line.old.items + 6 }
    ensures room { OnErr result (256 < length line.old.items + 6) }
{
    push(line, ", ")?;
    push_register(line, register)
}

/// Adds one more number.
fn push_next_short(line: &mut Line, number: u16) -> Result<(), CapacityError>
    ensures text { OnOk result (line.new.items ≡ line.old.items ++ later_text (Short number ∷ [])) }
    ensures adds { length line.new.items ≤ length line.old.items + 7 }
    ensures room { OnErr result (256 < length line.old.items + 7) }
{
    push(line, ", ")?;
    push_short(line, number)
}

/// Adds a word and two registers.
fn push_two(line: &mut Line, word: &str, first: u8, second: u8) -> Result<(), CapacityError>
    requires { length word.now ≤ 6 }
    ensures text { OnOk result (line.new.items ≡ line.old.items ++ (word.now ++ operands_text (Register first ∷ Register second ∷ []))) }
    ensures adds { length line.new.items ≤ length line.old.items + 17 }
    ensures room { OnErr result (256 < length line.old.items + 17) }
{
    push_one(line, word, first)?;
    push_next(line, second)
}

/// Adds a word and three registers.
fn push_three(
    line: &mut Line,
    word: &str,
    first: u8,
    second: u8,
    third: u8,
) -> Result<(), CapacityError>
    requires { length word.now ≤ 6 }
    ensures text { OnOk result (line.new.items ≡ line.old.items ++ (word.now ++ operands_text (Register first ∷ Register second ∷ Register third ∷ []))) }
    ensures adds { length line.new.items ≤ length line.old.items + 23 }
    ensures room { OnErr result (256 < length line.old.items + 23) }
{
    push_two(line, word, first, second)?;
    push_next(line, third)
}

/// Adds a word, a register and a number.
fn push_one_and_short(
    line: &mut Line,
    word: &str,
    register: u8,
    number: u16,
) -> Result<(), CapacityError>
    requires { length word.now ≤ 6 }
    ensures text { OnOk result (line.new.items ≡ line.old.items ++ (word.now ++ operands_text (Register register ∷ Short number ∷ []))) }
    ensures adds { length line.new.items ≤ length line.old.items + 18 }
    ensures room { OnErr result (256 < length line.old.items + 18) }
{
    push_one(line, word, register)?;
    push_next_short(line, number)
}

/// Adds a word, a register and two numbers.
fn push_one_and_shorts(
    line: &mut Line,
    word: &str,
    register: u8,
    first: u16,
    second: u16,
) -> Result<(), CapacityError>
    requires { length word.now ≤ 6 }
    ensures text { OnOk result (line.new.items ≡ line.old.items ++ (word.now ++ operands_text (Register register ∷ Short first ∷ Short second ∷ []))) }
    ensures adds { length line.new.items ≤ length line.old.items + 25 }
    ensures room { OnErr result (256 < length line.old.items + 25) }
{
    push_one_and_short(line, word, register, first)?;
    push_next_short(line, second)
}

/// Adds a word, two registers and a number.
fn push_two_and_short(
    line: &mut Line,
    word: &str,
    first: u8,
    second: u8,
    number: u16,
) -> Result<(), CapacityError>
    requires { length word.now ≤ 6 }
    ensures text { OnOk result (line.new.items ≡ line.old.items ++ (word.now ++ operands_text (Register first ∷ Register second ∷ Short number ∷ []))) }
    ensures adds { length line.new.items ≤ length line.old.items + 24 }
    ensures room { OnErr result (256 < length line.old.items + 24) }
{
    push_two(line, word, first, second)?;
    push_next_short(line, number)
}

/// Adds a word, a register and an integer.
fn push_one_and_integer(
    line: &mut Line,
    word: &str,
    register: u8,
    integer: i32,
) -> Result<(), CapacityError>
    requires { length word.now ≤ 6 }
    ensures text { OnOk result (line.new.items ≡ line.old.items ++ (word.now ++ operands_text (Register register ∷ Integer integer ∷ []))) }
    ensures adds { length line.new.items ≤ length line.old.items + 24 }
    ensures room { OnErr result (256 < length line.old.items + 24) }
{
    push_one(line, word, register)?;
    push(line, ", ")?;
    push_integer(line, integer)
}

/// Adds a word, a register and a global.
fn push_one_and_global(
    line: &mut Line,
    word: &str,
    register: u8,
    global: u16,
) -> Result<(), CapacityError>
    requires { length word.now ≤ 6 }
    ensures text { OnOk result (line.new.items ≡ line.old.items ++ (word.now ++ operands_text (Register register ∷ GlobalName global ∷ []))) }
    ensures adds { length line.new.items ≤ length line.old.items + 19 }
    ensures room { OnErr result (256 < length line.old.items + 19) }
{
    push_one(line, word, register)?;
    push(line, ", g")?;
    push_short(line, global)
}

/// Adds an instruction.
pub fn push_instr(line: &mut Line, instr: Instr) -> Result<(), CapacityError>
    ensures text { OnOk result (line.new.items ≡ line.old.items ++ instr_text instr) }
    ensures adds { length line.new.items ≤ length line.old.items + 25 }
    ensures room { OnErr result (256 < length line.old.items + 25) }
{
    match instr {
        Instr::SetInt { to, value } => push_one_and_integer(line, "int", to, value),
        Instr::SetNull { to } => push_one(line, "null", to),
        Instr::Move { to, from } => push_two(line, "mov", to, from),
        Instr::Add { to, left, right } => push_three(line, "add", to, left, right),
        Instr::Subtract { to, left, right } => push_three(line, "sub", to, left, right),
        Instr::LessThan { to, left, right } => push_three(line, "lt", to, left, right),
        Instr::Equals { to, left, right } => push_three(line, "eq", to, left, right),
        Instr::GlobalAddress { to, global } => push_one_and_global(line, "glob", to, global),
        Instr::FieldAddress { to, from, offset } => {
            push_two_and_short(line, "field", to, from, u16::from(offset))
        }
        Instr::Load { to, address } => push_two(line, "load", to, address),
        Instr::Store { address, from } => push_two(line, "store", address, from),
        Instr::New { to, cells, class } => {
            push_one_and_shorts(line, "new", to, u16::from(cells), class)
        }
        Instr::Jump { target } => push_one_short(line, "jmp", target),
        Instr::JumpIfZero { test, target } => push_one_and_short(line, "jz", test, target),
        Instr::Call {
            to,
            first,
            function,
        } => push_two_and_short(line, "call", to, first, function),
        Instr::Return { from } => push_one(line, "ret", from),
        Instr::Output { from } => push_one(line, "out", from),
        Instr::Acquire { list } => push_one_short(line, "acq", list),
        Instr::Release => push(line, "rel"),
    }
}
