//! The eight bytes of an instruction, written and read back.

ghost use Rattle.std.specs.Prelude.{◌≡◌, ◌≤◌, IfOk, IfErr, IsSomeAnd};
ghost use Rattle.std.specs.Option.{option_map};
ghost use Rattle.asl_code.specs.declared.instr.Instr.{Instr};
ghost use Rattle.asl_code.specs.Spelling.{eight_bytes, SpellsInstr, IsFirstBadField, InstrOfSpellingIsOne, SpellingOfInstrIsOne, FirstBadFieldIsOne};
ghost use Rattle.asl_code.specs.Reading.{row_of, fields_of, bad_field, made_by, instr_of_fields};

use crate::instr::Instr;

/// A law of the definitions: an instruction and its bytes belong to no other.
pub fn instr_and_bytes_are_one()
    ensures instr { InstrOfSpellingIsOne }
    ensures bytes { SpellingOfInstrIsOne }
    ensures place { FirstBadFieldIsOne }
{}

/// The eight bytes of an instruction.
pub fn put_instr(instr: &Instr) -> [u8; 8]
    ensures { SpellsInstr instr.now result }
{
    match *instr {
        Instr::SetInt { to, value } => eight_bytes(1, to, 0, 0, value.cast_unsigned()),
        Instr::SetNull { to } => eight_bytes(2, to, 0, 0, 0),
        Instr::Move { to, from } => eight_bytes(3, to, from, 0, 0),
        Instr::Add { to, left, right } => eight_bytes(4, to, left, right, 0),
        Instr::Subtract { to, left, right } => eight_bytes(5, to, left, right, 0),
        Instr::LessThan { to, left, right } => eight_bytes(6, to, left, right, 0),
        Instr::Equals { to, left, right } => eight_bytes(7, to, left, right, 0),
        Instr::GlobalAddress { to, global } => eight_bytes(8, to, 0, 0, u32::from(global)),
        Instr::FieldAddress { to, from, offset } => eight_bytes(9, to, from, 0, u32::from(offset)),
        Instr::Load { to, address } => eight_bytes(10, to, address, 0, 0),
        Instr::Store { address, from } => eight_bytes(11, address, from, 0, 0),
        Instr::New { to, cells, class } => eight_bytes(12, to, cells, 0, u32::from(class)),
        Instr::Jump { target } => eight_bytes(13, 0, 0, 0, u32::from(target)),
        Instr::JumpIfZero { test, target } => eight_bytes(14, test, 0, 0, u32::from(target)),
        Instr::Call {
            to,
            first,
            function,
        } => eight_bytes(15, to, first, 0, u32::from(function)),
        Instr::Return { from } => eight_bytes(16, from, 0, 0, 0),
        Instr::Output { from } => eight_bytes(17, from, 0, 0, 0),
        Instr::Acquire { list } => eight_bytes(18, 0, 0, 0, u32::from(list)),
        Instr::Release => eight_bytes(19, 0, 0, 0, 0),
    }
}

/// The instruction of the bytes, or the place of the first bad field: 0 is op, 1 to 3 are a, b and c, and 4 is d.
///
/// # Errors
///
/// The place of the first bad field.
pub fn get_instr(bytes: &[u8; 8]) -> Result<Instr, usize>
    ensures found { IfOk result (λ instr. SpellsInstr instr bytes.now) }
    ensures only { (instr : Instr) → SpellsInstr instr bytes.now → result ≡ Ok instr }
    ensures refused { IfErr result (λ place. IsFirstBadField bytes.now place) }
{
    let [op, a, b, c, d0, d1, d2, d3] = *bytes;
    instr_of_fields(op, a, b, c, u32::from_be_bytes([d0, d1, d2, d3]))
}

/// The bytes of an instruction by its fields: op, a, b, c, and d with its greatest byte first.
fn eight_bytes(op: u8, a: u8, b: u8, c: u8, d: u32) -> [u8; 8]
    ensures { result ≡ eight_bytes op a b c d }
{
    let [d0, d1, d2, d3] = d.to_be_bytes();
    [op, a, b, c, d0, d1, d2, d3]
}

/// How many of the fields a, b and c the instructions of this op use, and their greatest d.
fn fields_of(op: u8) -> Option<(u8, u32)>
    ensures { result ≡ option_map fields_of (row_of op) }
{
    match op {
        1 => Some((1, u32::MAX)),
        2 | 16 | 17 => Some((1, 0)),
        3 | 10 | 11 => Some((2, 0)),
        4 | 5 | 6 | 7 => Some((3, 0)),
        8 | 14 => Some((1, 65_535)),
        9 => Some((2, 255)),
        12 | 15 => Some((2, 65_535)),
        13 | 18 => Some((0, 65_535)),
        19 => Some((0, 0)),
        _ => None,
    }
}

/// The place of the first of these fields that is not 0 and not used, or is over its limit.
fn bad_field(used: u8, greatest: u32, a: u8, b: u8, c: u8, d: u32) -> Option<usize>
    ensures { result ≡ bad_field used greatest a b c d }
{
    if used < 1 && a != 0 {
        Some(1)
    } else if used < 2 && b != 0 {
        Some(2)
    } else if used < 3 && c != 0 {
        Some(3)
    } else if greatest < d {
        Some(4)
    } else {
        None
    }
}

/// The instruction of an op and of fields that are within its limits.
fn made_of(op: u8, a: u8, b: u8, c: u8, d: u32) -> Instr
    requires { IsSomeAnd (row_of op) (λ r. d ≤ r.greatest) }
    ensures { made_by (row_of op) a b c d ≡ Some result }
{
    match op {
        1..=7 => value_instr(op, a, b, c, d),
        8..=12 => cell_instr(op, a, b, d),
        13..=17 => control_instr(op, a, b, d),
        _ => section_instr(op, d),
    }
}

/// The same of the instructions that set a register to a value of registers, or to one of their own.
fn value_instr(op: u8, a: u8, b: u8, c: u8, d: u32) -> Instr
    requires from { 1 ≤ op }
    requires to { op ≤ 7 }
    ensures { made_by (row_of op) a b c d ≡ Some result }
{
    match op {
        1 => Instr::SetInt {
            to: a,
            value: d.cast_signed(),
        },
        2 => Instr::SetNull { to: a },
        3 => Instr::Move { to: a, from: b },
        4 => Instr::Add {
            to: a,
            left: b,
            right: c,
        },
        5 => Instr::Subtract {
            to: a,
            left: b,
            right: c,
        },
        6 => Instr::LessThan {
            to: a,
            left: b,
            right: c,
        },
        7 => Instr::Equals {
            to: a,
            left: b,
            right: c,
        },
        _ => unreachable!(),
    }
}

/// The same of the instructions that take or make addresses.
fn cell_instr(op: u8, a: u8, b: u8, d: u32) -> Instr
    requires from { 8 ≤ op }
    requires to { op ≤ 12 }
    requires limit { IsSomeAnd (row_of op) (λ r. d ≤ r.greatest) }
    ensures { made_by (row_of op) a b 0 d ≡ Some result }
{
    match op {
        8 => Instr::GlobalAddress {
            to: a,
            global: d as u16,
        },
        9 => Instr::FieldAddress {
            to: a,
            from: b,
            offset: d as u8,
        },
        10 => Instr::Load { to: a, address: b },
        11 => Instr::Store {
            address: a,
            from: b,
        },
        12 => Instr::New {
            to: a,
            cells: b,
            class: d as u16,
        },
        _ => unreachable!(),
    }
}

/// The same of the instructions that go elsewhere, and of the one that shows a value.
fn control_instr(op: u8, a: u8, b: u8, d: u32) -> Instr
    requires from { 13 ≤ op }
    requires to { op ≤ 17 }
    requires limit { IsSomeAnd (row_of op) (λ r. d ≤ r.greatest) }
    ensures { made_by (row_of op) a b 0 d ≡ Some result }
{
    match op {
        13 => Instr::Jump { target: d as u16 },
        14 => Instr::JumpIfZero {
            test: a,
            target: d as u16,
        },
        15 => Instr::Call {
            to: a,
            first: b,
            function: d as u16,
        },
        16 => Instr::Return { from: a },
        17 => Instr::Output { from: a },
        _ => unreachable!(),
    }
}

/// The same of the instructions that enter and leave sections.
fn section_instr(op: u8, d: u32) -> Instr
    requires from { 18 ≤ op }
    requires limit { IsSomeAnd (row_of op) (λ r. d ≤ r.greatest) }
    ensures { made_by (row_of op) 0 0 0 d ≡ Some result }
{
    match op {
        18 => Instr::Acquire { list: d as u16 },
        19 => Instr::Release,
        _ => unreachable!(),
    }
}

/// The instruction of these fields; else the place of the first field that it cannot have.
fn instr_of_fields(op: u8, a: u8, b: u8, c: u8, d: u32) -> Result<Instr, usize>
    ensures { result ≡ instr_of_fields op a b c d }
{
    let Some((used, greatest)) = fields_of(op) else {
        return Err(0);
    };
    match bad_field(used, greatest, a, b, c, d) {
        Some(place) => Err(place),
        None => Ok(made_of(op, a, b, c, d)),
    }
}
