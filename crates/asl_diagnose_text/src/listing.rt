//! Finds the line of an assembly text that breaks a rule, by counting what was read before it.
ghost use Rattle.std.specs.Prelude.{◌≡◌};
ghost use Rattle.asl_assembler.specs.Words.{lines_of};
ghost use Rattle.asl_diagnose_text.specs.TextLines.{row_of};
ghost use Rattle.asl_diagnose_text.specs.Instructions.{setters, others, is_one, is_instruction, is_instruction_word};

use crate::forms::{Turn, turn_after};
use crate::text_lines::{TextLines, first_word, number_in, word};

/// What was read of the lines of a text so far.
#[derive(Clone, Copy)]
pub struct Listing {
    /// Which line comes next.
    pub turn: Turn,
    pub version: usize,
    pub classes: usize,
    pub globals: usize,
    pub functions: usize,
    pub lists: usize,
    /// How many instructions.
    pub code: usize,
    /// The parameters and registers of the last function, and its first instruction.
    pub params: usize,
    pub regs: usize,
    pub first: usize,
    /// How many locks the last list has.
    pub locks: usize,
}

impl Listing {
    /// Nothing.
    pub fn new() -> Listing {
        Listing {
            turn: Turn::Version,
            version: 0,
            classes: 0,
            globals: 0,
            functions: 0,
            lists: 0,
            code: 0,
            params: 0,
            regs: 0,
            first: 0,
            locks: 0,
        }
    }

    /// Reads one more line.
    pub fn pass(&mut self, line: &[u8]) {
        let (name, rest) = first_word(line);
        match name {
            b"" => {}
            b"version" => self.version = number_in(word(rest, 0), 0),
            b"classes" => self.classes = number_in(word(rest, 0), 0),
            b"global" => self.globals = self.globals.saturating_add(1),
            // nothing is counted
            b"entry" => {}
            b"fn" => {
                self.functions = self.functions.saturating_add(1);
                self.params = number_in(word(rest, 0), 0);
                self.regs = number_in(word(rest, 1), 0);
                self.first = self.code;
            }
            b"list" => {
                self.lists = self.lists.saturating_add(1);
                self.locks = 0;
            }
            _ => self.pass_part(),
        }
        self.turn = turn_after(self.turn, name);
    }

    /// Reads an instruction of a function, or a lock of a list.
    fn pass_part(&mut self) {
        match self.turn {
            Turn::Locks => self.locks = self.locks.saturating_add(1),
            _ => self.code = self.code.saturating_add(1),
        }
    }
}

/// What all lines of a text say.
pub fn whole(text: &[u8]) -> Listing {
    let mut rows = TextLines::new(text);
    let mut listing = Listing::new();
    'rows: while let Some(row) = rows.next() {
        listing.pass(row.line);
    }
    listing
}

/// The number of the line of the instruction of this number.
pub fn instruction_row(text: &[u8], pc: usize) -> Option<usize>
    ensures { result ≡ row_of pc 1 (lines_of text.now) }
{
    let mut rows = TextLines::new(text);
    let mut left = pc;
    let mut number: usize = 1;
    'rows: while let Some(row) = rows.next() {
        if is_instruction(row.line) {
            if left == 0 {
                return Some(number);
            }
            left -= 1;
        }
        number += 1;
    }
    None
}

/// Whether a line is an instruction.
fn is_instruction(line: &[u8]) -> bool
    ensures { result ≡ is_instruction line.now }
{
    let (word, _) = first_word(line);
    is_instruction_word(word)
}

/// Whether a word begins an instruction.
pub fn is_instruction_word(word: &[u8]) -> bool
    ensures { result ≡ is_instruction_word word.now }
{
    is_setter(word) || is_other(word)
}

/// Whether a word begins an instruction that sets a register from others.
fn is_setter(word: &[u8]) -> bool
    ensures { result ≡ is_one word.now setters }
{
    matches!(
        word,
        b"int" | b"null" | b"mov" | b"add" | b"sub" | b"lt" | b"eq" | b"glob" | b"field"
    )
}

/// Whether a word begins another instruction.
fn is_other(word: &[u8]) -> bool
    ensures { result ≡ is_one word.now others }
{
    matches!(
        word,
        b"load" | b"store" | b"new" | b"jmp" | b"jz" | b"call" | b"ret" | b"out" | b"acq" | b"rel"
    )
}

/// What was read up to the function of the instruction of this number, that function's line among it.
pub fn listing_at(text: &[u8], pc: usize) -> Listing {
    let mut rows = TextLines::new(text);
    let mut listing = Listing::new();
    'rows: while let Some(row) = rows.next() {
        listing.pass(row.line);
        if listing.code > pc {
            return listing;
        }
    }
    listing
}

/// After the last instruction of the function that begins at this instruction.
pub fn end_of_body(text: &[u8], first: usize) -> usize {
    let mut rows = TextLines::new(text);
    let mut listing = Listing::new();
    'rows: while let Some(row) = rows.next() {
        let (name, _) = first_word(row.line);
        if listing.code > first && (name == b"fn".as_slice() || name == b"list".as_slice()) {
            return listing.code;
        }
        listing.pass(row.line);
    }
    listing.code
}
