//! The line of an assembly text at which a rule of the whole image is broken.

ghost use Rattle.std.specs.Prelude.{◌≡◌, ◌||◌};
ghost use Rattle.asl_assembler.specs.Words.{lines_of};
ghost use Rattle.asl_diagnose_text.specs.Instructions.{breaks, goes_on, is_counted_word, is_instruction_word, is_lock_word, is_opening_word, is_table_word, may_break};
ghost use Rattle.asl_diagnose_text.specs.TextLines.{breaking_from};

use crate::forms::{Turn, turn_after};
use crate::listing::{Listing, is_instruction_word, whole};
use crate::text_lines::{TextLine, TextLines, first_word, number_in, word};
use asl_code::VerifyFault;

/// The number of the line by which a rule of the whole image is broken; none for a rule of instructions.
pub fn fault_row(text: &[u8], cause: VerifyFault) -> Option<usize> {
    match cause {
        VerifyFault::Limit => limit_row(text),
        VerifyFault::Table => table_row(text),
        VerifyFault::NoEntry => named_row(text, b"entry"),
        VerifyFault::FunctionRange => range_row(text),
        VerifyFault::FallsOut => falling_row(text),
        _ => None,
    }
}

/// Whether a word begins a line of the tables.
fn is_table_word(word: &[u8]) -> bool
    ensures { result ≡ is_table_word word.now }
{
    word == b"classes".as_slice() || word == b"global".as_slice()
}

/// Whether a word begins a line that opens a function or a list.
fn is_opening_word(word: &[u8]) -> bool
    ensures { result ≡ is_opening_word word.now }
{
    word == b"fn".as_slice() || word == b"list".as_slice()
}

/// Whether a word begins a line of a function or of a list.
fn is_part_word(word: &[u8]) -> bool
    ensures { result ≡ is_lock_word word.now || is_instruction_word word.now }
{
    is_lock_word(word) || is_instruction_word(word)
}

/// Whether a word begins a lock.
fn is_lock_word(word: &[u8]) -> bool
    ensures { result ≡ is_lock_word word.now }
{
    matches!(word, b"root" | b"class" | b"expr")
}

/// Whether a word begins a line of what is counted.
fn is_counted_word(word: &[u8]) -> bool
    ensures { result ≡ is_counted_word word.now }
{
    is_table_word(word) || is_opening_word(word) || is_part_word(word)
}

/// Whether a word begins an instruction after which control goes on to the next one.
fn goes_on(word: &[u8]) -> bool
    ensures { result ≡ goes_on word.now }
{
    is_instruction_word(word) && !matches!(word, b"ret" | b"jmp")
}

/// Whether a line that begins with this word may break a rule of the whole image.
fn may_break(cause: VerifyFault, word: &[u8]) -> bool
    ensures { result ≡ may_break cause word.now }
{
    match cause {
        VerifyFault::Limit => is_counted_word(word),
        VerifyFault::Table => matches!(word, b"global" | b"class" | b"expr"),
        VerifyFault::NoEntry => matches!(word, b"entry"),
        VerifyFault::FunctionRange => matches!(word, b"fn"),
        VerifyFault::FallsOut => goes_on(word),
        VerifyFault::Target(_)
        | VerifyFault::Register(_)
        | VerifyFault::Operand(_)
        | VerifyFault::ListBase(_) => false,
    }
}

/// Whether a line may break a rule of the whole image.
fn breaks(cause: VerifyFault, line: &[u8]) -> bool
    ensures { result ≡ breaks cause line.now }
{
    let (word, _) = first_word(line);
    may_break(cause, word)
}

/// The number of the first line, from a number on, by which a rule of the whole image may be broken.
pub fn breaking_row(text: &[u8], cause: VerifyFault, from: usize) -> Option<usize>
    ensures { result ≡ breaking_from cause from 1 (lines_of text.now) }
{
    let mut rows = TextLines::new(text);
    let mut number: usize = 1;
    'rows: while let Some(row) = rows.next() {
        if from <= number && breaks(cause, row.line) {
            return Some(number);
        }
        number += 1;
    }
    None
}

/// The first line that begins with this word.
fn named_row(text: &[u8], name: &[u8]) -> Option<usize> {
    let mut rows = TextLines::new(text);
    'rows: while let Some(row) = rows.next() {
        let (first, _) = first_word(row.line);
        if first == name {
            return Some(row.number);
        }
    }
    None
}

/// The first line with which a count is over its limit.
fn limit_row(text: &[u8]) -> Option<usize> {
    let mut rows = TextLines::new(text);
    let mut listing = Listing::new();
    'rows: while let Some(row) = rows.next() {
        listing.pass(row.line);
        if is_over(&listing) {
            return Some(row.number);
        }
    }
    None
}

/// Whether a count is over its limit.
pub fn is_over(listing: &Listing) -> bool {
    let most_locks = if listing.version == 1 { 64 } else { 256 };
    listing.classes > 1024
        || listing.globals > 1024
        || listing.functions > 256
        || listing.code > 65_535
        || listing.lists > 1024
        || listing.params > 4
        || listing.regs > 64
        || listing.locks > most_locks
}

/// The first line that names a class or a global that is not there.
fn table_row(text: &[u8]) -> Option<usize> {
    let all = whole(text);
    let mut rows = TextLines::new(text);
    'rows: while let Some(row) = rows.next() {
        if names_nothing(&all, &row) {
            return Some(row.number);
        }
    }
    None
}

/// Whether a line names a class or a global that is not there.
fn names_nothing(all: &Listing, row: &TextLine<'_>) -> bool {
    let (name, rest) = first_word(row.line);
    let operand = word(rest, 0);
    match name {
        b"global" | b"class" => number_in(operand, 0) >= all.classes,
        b"expr" => match operand {
            [b'g', ..] => number_in(operand, 1) >= all.globals,
            _ => false,
        },
        _ => false,
    }
}

/// The first function without an instruction, or with more parameters than registers.
fn range_row(text: &[u8]) -> Option<usize> {
    let mut rows = TextLines::new(text);
    let mut listing = Listing::new();
    let mut function = None;
    'rows: while let Some(row) = rows.next() {
        let (name, _) = first_word(row.line);
        if name == b"fn".as_slice() || name == b"list".as_slice() {
            if function.is_some() && listing.code == listing.first {
                return function;
            }
            function = None;
        }
        listing.pass(row.line);
        if name == b"fn".as_slice() {
            function = Some(row.number);
            if listing.params > listing.regs {
                return function;
            }
        }
    }
    function
}

/// The last instruction of the first function whose last one neither returns nor jumps.
fn falling_row(text: &[u8]) -> Option<usize> {
    let mut rows = TextLines::new(text);
    let mut last = None;
    let mut turn = Turn::Version;
    'rows: while let Some(row) = rows.next() {
        let (name, _) = first_word(row.line);
        match name {
            b"" => {}
            b"fn" | b"list" => {
                if last.is_some() {
                    return last;
                }
            }
            b"ret" | b"jmp" => last = None,
            _ => {
                if turn == Turn::Body {
                    last = Some(row.number);
                }
            }
        }
        turn = turn_after(turn, name);
    }
    last
}
