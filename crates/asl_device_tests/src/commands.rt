//! The commands, each with what it reads and writes, and calls of them.
use asl_tool::{ByteSink, ByteSource, tool_alone};
use std::alloc::{AllocError, Global};

/// The words, what is read, and what is written with status 0.
pub struct Command {
    pub line: &'static str,
    pub input: &'static [u8],
    pub output: &'static [u8],
}

const SOURCE: &[u8] =
    b"global g; fn main(t) { p = &g; atomic { x = *p; one = 1; y = x + one; *p = y; } return t; }";

const COUNTER: &[u8] =
    b"version 2\nclasses 1\nglobal 0\nentry 0\nfn 1 5\nglob r1, g0\nacq 0\nload r2, r1\nint r3, 1\nadd r4, r2, r3\nstore r1, r4\nrel\nret r0\nlist\nexpr r1 write\n";

/// The counter's source, and its program.
const PAIR: &[u8] =
    b"global g; fn main(t) { p = &g; atomic { x = *p; one = 1; y = x + one; *p = y; } return t; }\0\
    version 2\nclasses 1\nglobal 0\nentry 0\nfn 1 5\nglob r1, g0\nacq 0\nload r2, r1\nint r3, 1\nadd r4, r2, r3\nstore r1, r4\nrel\nret r0\nlist\nexpr r1 write\n";

/// The image of the counter.
const IMAGE: &[u8] = b"ASLM\x00\x02\x00\x01\x00\x01\x00\x00\x00\x01\x01\x05\x00\x08\x00\x00\x00\x08\
    \x08\x01\x00\x00\x00\x00\x00\x00\x12\x00\x00\x00\x00\x00\x00\x00\
    \x0a\x02\x01\x00\x00\x00\x00\x00\x01\x03\x00\x00\x00\x00\x00\x01\
    \x04\x04\x02\x03\x00\x00\x00\x00\x0b\x01\x04\x00\x00\x00\x00\x00\
    \x13\x00\x00\x00\x00\x00\x00\x00\x10\x00\x00\x00\x00\x00\x00\x00\
    \x00\x01\x00\x01\x02\x01\x01\x00";

/// The run file of the counter's threads, stepped 0, 0, 1, 1.
const FILE: &[u8] =
    b"\x00\x00\x00\x5eASLM\x00\x02\x00\x01\x00\x01\x00\x00\x00\x01\x01\x05\x00\x08\x00\x00\x00\x08\
    \x08\x01\x00\x00\x00\x00\x00\x00\x12\x00\x00\x00\x00\x00\x00\x00\
    \x0a\x02\x01\x00\x00\x00\x00\x00\x01\x03\x00\x00\x00\x00\x00\x01\
    \x04\x04\x02\x03\x00\x00\x00\x00\x0b\x01\x04\x00\x00\x00\x00\x00\
    \x13\x00\x00\x00\x00\x00\x00\x00\x10\x00\x00\x00\x00\x00\x00\x00\
    \x00\x01\x00\x01\x02\x01\x01\x00\
    ASLJ\x00\x01\x02\x00\x00\x00\x04\x00\x00\x00\x00\x01\x00\x01\x02";

pub static COMMANDS: [Command; 9] = [
    Command {
        line: "asm",
        input: COUNTER,
        output: IMAGE,
    },
    Command {
        line: "dis",
        input: IMAGE,
        output: COUNTER,
    },
    Command {
        line: "compile",
        input: SOURCE,
        output: IMAGE,
    },
    Command {
        line: "compile --k 3 --text",
        input: SOURCE,
        output: COUNTER,
    },
    Command {
        line: "step --threads 2 0 0 1 1",
        input: COUNTER,
        output: b"0 0 ran\n1 0 ran\n2 1 ran\n3 1 blocked\n",
    },
    Command {
        line: "step --threads 2 --record 0 0 1 1",
        input: IMAGE,
        output: FILE,
    },
    Command {
        line: "check",
        input: PAIR,
        output: b"checked 1 sections\n",
    },
    Command {
        line: "replay",
        input: FILE,
        output: b"same 4\n",
    },
    Command {
        line: "debug goto 2 next back forward",
        input: FILE,
        output: b"at 2\nat 4\nat 3\nat 4\n",
    },
];

/// The words of a line, which stand between single spaces.
pub fn split(alloc: Global, line: &str) -> Result<Vec<String>, AllocError> {
    let mut words = Vec::new(alloc);
    for word in line.split(' ') {
        words.push(String::from_str(alloc, word)?)?;
    }
    Ok(words)
}

/// The status of the words over a reader and writers. What is proved of it is not needed here, and dear where it is.
pub fn call<R: ByteSource, W: ByteSink, E: ByteSink>(
    alloc: Global,
    words: &[String],
    reader: &mut R,
    output: &mut W,
    errors: &mut E,
) -> Option<u8> {
    tool_alone(alloc, words, reader, output, errors)
}
