//! A source and an assembly text with each byte changed to each of the 256.
use asl_assembler::{AsmFault, assemble, disassemble};
use asl_code::VerifyFault;
use asl_syntax::{SyntaxFault, parse, print};
use std::alloc::{AllocError, Global};

static SOURCE: &[u8] =
    b"global g; fn main(t) { p = &g; atomic { x = *p; one = 1; y = x + one; *p = y; } return t; }";

static COUNTER: &[u8] =
    b"version 1\nclasses 1\nglobal 0\nentry 0\nfn 1 5\nglob r1, g0\nacq 0\nload r2, r1\nint r3, 1\nadd r4, r2, r3\nstore r1, r4\nrel\nret r0\nlist\nexpr r1 write\n";

/// The text with this byte changed.
fn changed(alloc: Global, text: &[u8], at: usize, value: u8) -> Result<Vec<u8>, AllocError> {
    let mut bytes = text.to_vec(alloc)?;
    if at < bytes.len() {
        bytes[at] = value;
    }
    Ok(bytes)
}

fn is_blank(byte: u8) -> bool {
    matches!(byte, b' ' | b'\t' | b'\r' | b'\n')
}

/// Whether a digit stands at this place.
fn is_digit_at(text: &[u8], at: usize) -> bool {
    match text.get(at) {
        Some(byte) => byte.is_ascii_digit(),
        None => false,
    }
}

/// Whether the byte at this place is a zero that its number does without: one before a digit, and after none.
fn is_needless(text: &[u8], at: usize) -> bool {
    text.get(at) == Some(&b'0')
        && is_digit_at(text, at.wrapping_add(1))
        && !is_digit_at(text, at.wrapping_sub(1))
}

/// The bytes that are no blanks, no needless zeros, and not this separator.
fn dense(alloc: Global, text: &[u8], separator: u8) -> Result<Vec<u8>, AllocError> {
    let mut bytes = Vec::new(alloc);
    for (at, byte) in text.iter().enumerate() {
        if !is_blank(*byte) && *byte != separator && !is_needless(text, at) {
            bytes.push(*byte)?;
        }
    }
    Ok(bytes)
}

/// Whether the texts are the same but for blanks, needless zeros and this separator.
fn are_alike(alloc: Global, one: &[u8], other: &[u8], separator: u8) -> Option<bool> {
    let one = dense(alloc, one, separator).ok()?;
    let other = dense(alloc, other, separator).ok()?;
    Some(one.as_slice() == other.as_slice())
}

/// Where the piece of text begins that has this byte and no blank before it.
fn reach(text: &[u8], at: usize) -> usize {
    let mut from = 0;
    for (place, byte) in text.iter().enumerate() {
        if place < at && is_blank(*byte) {
            from = place.wrapping_add(1);
        }
    }
    from
}

/// Whether the refusal is one of the text in which the byte at this place was made this one. A program continues with all that
/// stands before the piece of the change; `main` stands at 13 to 16; and no change of one byte makes the other refusals.
fn is_near(fault: SyntaxFault, text: &[u8], at: usize, value: u8) -> bool {
    match fault {
        SyntaxFault::NotAscii(place) => place == at && value >= 128,
        SyntaxFault::Token(place) => place == at && value < 128,
        SyntaxFault::Grammar(place) => {
            reach(text, at) <= place && place <= text.len() && value < 128
        }
        SyntaxFault::Unknown(_) => value < 128,
        SyntaxFault::NoMain => 13 <= at && at <= 16 && value < 128,
        SyntaxFault::Twice(_)
        | SyntaxFault::Limit(_)
        | SyntaxFault::Arity(_)
        | SyntaxFault::OutOfMemory => false,
    }
}

/// Whether the source is refused near the change, or printed as it is written.
fn is_source_judged(alloc: Global, at: usize, value: u8) -> Option<bool> {
    let text = changed(alloc, SOURCE, at, value).ok()?;
    match parse(alloc, text.as_slice()) {
        Ok(ast) => {
            let printed = print(alloc, &ast).ok()?;
            are_alike(alloc, text.as_slice(), printed.as_slice(), b' ')
        }
        Err(fault) => Some(is_near(fault, text.as_slice(), at, value)),
    }
}

#[test]
fn sources_are_refused_or_printed(rt: HostRuntime) {
    for at in 0..SOURCE.len() {
        for value in 0..=255 {
            let judged = is_source_judged(rt.alloc(), at, value);
            assert!(rt; judged == Some(true), "byte {at} as {value}");
        }
    }
}

/// The line of the counter's instruction at this pc.
fn line_of(pc: u32) -> usize {
    (pc as usize).wrapping_add(6)
}

/// Whether the rule is one that the counter breaks where a byte of this line is another. Its `acq` is at pc 1.
fn is_rule(fault: VerifyFault, line: usize) -> bool {
    match fault {
        VerifyFault::Table => line == 2 || line == 3 || line == 15,
        VerifyFault::NoEntry => line == 4 || line == 5,
        VerifyFault::FunctionRange | VerifyFault::Limit => line == 5,
        VerifyFault::Register(pc) => line == 5 || line == line_of(pc),
        VerifyFault::Operand(pc) => line == line_of(pc),
        VerifyFault::ListBase(pc) => pc == 1 && line == 15,
        VerifyFault::FallsOut | VerifyFault::Target(_) => false,
    }
}

/// Whether the assembly text is refused at the line of the change, one after it, or for a rule, or else printed as it is
/// written.
fn is_assembly_judged(alloc: Global, at: usize, value: u8, line: usize) -> Option<bool> {
    let text = changed(alloc, COUNTER, at, value).ok()?;
    match assemble(alloc, text.as_slice()) {
        Ok(program) => {
            let printed = disassemble(alloc, &program).ok()?;
            are_alike(alloc, text.as_slice(), printed.as_slice(), b',')
        }
        Err(AsmFault::Line(number)) => Some(number == line || number == line.wrapping_add(1)),
        Err(AsmFault::Verify(fault)) => Some(is_rule(fault, line)),
        Err(AsmFault::OutOfMemory) => Some(false),
    }
}

#[test]
fn assembly_texts_are_refused_or_printed(rt: HostRuntime) {
    let mut line: usize = 1;
    for at in 0..COUNTER.len() {
        for value in 0..=255 {
            let judged = is_assembly_judged(rt.alloc(), at, value, line);
            assert!(rt; judged == Some(true), "byte {at} as {value}");
        }
        if COUNTER[at] == b'\n' {
            line = line.saturating_add(1);
        }
    }
}
