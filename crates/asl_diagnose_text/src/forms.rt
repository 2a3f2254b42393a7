//! What a line of an assembly text may be.

use crate::text_lines::{TextLines, first_word};

/// Which line comes next.
#[derive(Clone, Copy, PartialEq, Eq)]
pub enum Turn {
    Version,
    Classes,
    Globals,
    Functions,
    Body,
    Locks,
}

/// Which line comes after one with this first word.
pub fn turn_after(turn: Turn, word: &[u8]) -> Turn {
    match word {
        b"version" => Turn::Classes,
        b"classes" => Turn::Globals,
        b"entry" => Turn::Functions,
        b"fn" => Turn::Body,
        b"list" => Turn::Locks,
        _ => turn,
    }
}

/// Which line comes at the line of this number.
pub fn turn_at(text: &[u8], number: usize) -> Turn {
    let mut rows = TextLines::new(text);
    let mut turn = Turn::Version;
    'rows: while let Some(row) = rows.next() {
        if row.number >= number {
            return turn;
        }
        let (word, _) = first_word(row.line);
        turn = turn_after(turn, word);
    }
    turn
}

/// What may stand there.
pub fn turn_text(turn: Turn) -> &'static str {
    match turn {
        Turn::Version => "the first line is `version 2` or `version 1`",
        Turn::Classes => "the second line is `classes N`, with the number of classes",
        Turn::Globals => {
            "here stands `global C`, with the class of one more global, or `entry F`, with the number of the first function"
        }
        Turn::Functions => "here stands `fn PARAMS REGS`, or `list`",
        Turn::Body => "here stands an instruction, `fn PARAMS REGS`, or `list`",
        Turn::Locks =>
            "here stands a lock, as `root write`, `class 0 read` or `expr r1 * .0 write`, or `list`",
    }
}

/// The form of the line that begins with this word; empty where no line does.
pub fn form(word: &[u8]) -> &'static str {
    match word {
        b"version" => "version 2",
        b"classes" => "classes N",
        b"global" => "global C",
        b"entry" => "entry F",
        b"fn" => "fn PARAMS REGS",
        b"list" => "list",
        b"root" => "root write",
        b"class" => "class 0 write",
        b"expr" => "expr r1 * .0 write",
        _ => instruction_form(word),
    }
}

/// The form of the instruction with this name; empty where there is none.
pub fn instruction_form(word: &[u8]) -> &'static str {
    match word {
        b"int" => "int r0, -5",
        b"null" => "null r0",
        b"mov" => "mov r0, r1",
        b"add" => "add r0, r1, r2",
        b"sub" => "sub r0, r1, r2",
        b"lt" => "lt r0, r1, r2",
        b"eq" => "eq r0, r1, r2",
        b"glob" => "glob r0, g0",
        b"field" => "field r0, r1, 2",
        _ => other_form(word),
    }
}

/// The same of the instructions that do more than to set a register.
fn other_form(word: &[u8]) -> &'static str {
    match word {
        b"load" => "load r0, r1",
        b"store" => "store r0, r1",
        b"new" => "new r0, 2, 0",
        b"jmp" => "jmp 3",
        b"jz" => "jz r0, 3",
        b"call" => "call r0, r1, 2",
        b"ret" => "ret r0",
        b"out" => "out r0",
        b"acq" => "acq 0",
        b"rel" => "rel",
        _ => "",
    }
}

/// The words that a line begins with.
pub const WORDS: [&str; 28] = [
    "version", "classes", "global", "entry", "fn", "list", "root", "class", "expr", "int", "null",
    "mov", "add", "sub", "lt", "eq", "glob", "field", "load", "store", "new", "jmp", "jz", "call",
    "ret", "out", "acq", "rel",
];

/// Whether a line with this first word may stand there.
pub fn may_stand(turn: Turn, word: &[u8]) -> bool {
    match turn {
        Turn::Version => word == b"version".as_slice(),
        Turn::Classes => word == b"classes".as_slice(),
        Turn::Globals => word == b"global".as_slice() || word == b"entry".as_slice(),
        Turn::Functions => opens(word),
        Turn::Body => opens(word) || !instruction_form(word).is_empty(),
        Turn::Locks => {
            word == b"list".as_slice()
                || word == b"root".as_slice()
                || word == b"class".as_slice()
                || word == b"expr".as_slice()
        }
    }
}

/// Whether a line with this first word opens a function or a list.
pub fn opens(word: &[u8]) -> bool {
    word == b"fn".as_slice() || word == b"list".as_slice()
}
