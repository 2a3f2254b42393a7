//! What words come to, over whatever reader and writer.
use asl_tool::{ByteSink, ByteSource, tool_alone};
use std::alloc::{AllocError, Global};

/// The status, what is written, and what is said.
#[derive(Drop)]
pub struct Outcome {
    pub status: Option<u8>,
    pub output: Vec<u8>,
    pub errors: Vec<u8>,
}

impl Outcome {
    /// Whether it is this one.
    pub fn is(&self, status: u8, output: &[u8], said: &str) -> bool {
        self.status == Some(status)
            && self.output.as_slice() == output
            && self.errors.as_slice() == said.as_bytes()
    }
}

/// The words of a line, which stand between single spaces; the empty text has none.
pub fn split(alloc: Global, line: &str) -> Result<Vec<String>, AllocError> {
    let mut words = Vec::new(alloc);
    if !line.is_empty() {
        for word in line.split(' ') {
            words.push(String::from_str(alloc, word)?)?;
        }
    }
    Ok(words)
}

/// The status of the words over a reader and a writer, and what is said.
fn call<R: ByteSource, W: ByteSink>(
    alloc: Global,
    words: &[String],
    reader: &mut R,
    writer: &mut W,
) -> (Option<u8>, Vec<u8>) {
    let mut errors = Vec::new(alloc);
    let status = tool_alone(alloc, words, reader, writer, &mut errors);
    (status, errors)
}

/// The same of the words of a line.
pub fn said<R: ByteSource, W: ByteSink>(
    alloc: Global,
    line: &str,
    reader: &mut R,
    writer: &mut W,
) -> Option<(Option<u8>, Vec<u8>)> {
    let words = split(alloc, line).ok()?;
    Some(call(alloc, words.as_slice(), reader, writer))
}

/// What words come to over a reader.
fn come_to<R: ByteSource>(alloc: Global, words: &[String], reader: &mut R) -> Outcome {
    let mut output = Vec::new(alloc);
    let (status, errors) = call(alloc, words, reader, &mut output);
    Outcome {
        status,
        output,
        errors,
    }
}

/// What the words of a line come to over a reader.
pub fn outcome_of<R: ByteSource>(alloc: Global, line: &str, reader: &mut R) -> Option<Outcome> {
    let words = split(alloc, line).ok()?;
    Some(come_to(alloc, words.as_slice(), reader))
}

/// Whether the words of a line do this over bytes.
pub fn is_done(alloc: Global, line: &str, input: &[u8], wanted: (u8, &[u8], &str)) -> Option<bool> {
    let mut reader = input;
    let outcome = outcome_of(alloc, line, &mut reader)?;
    let (status, output, said) = wanted;
    Some(outcome.is(status, output, said))
}
