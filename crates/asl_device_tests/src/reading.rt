//! Readers under each command.
use crate::commands::{COMMANDS, Command, call, split};
use crate::devices::{Endless, Feed, Trouble};
use crate::outcome::Outcome;
use asl_tool::ByteSource;
use std::alloc::Global;

/// What the words come to over a reader.
fn outcome_of<R: ByteSource>(alloc: Global, words: &[String], reader: &mut R) -> Outcome {
    let mut output = Vec::new(alloc);
    let mut errors = Vec::new(alloc);
    let status = call(alloc, words, reader, &mut output, &mut errors);
    Outcome {
        status,
        output,
        errors,
    }
}

/// How a reader gives its bytes: the most a call, and how a call goes wrong.
type Manner = (usize, Trouble);

/// Whether a read that goes wrong at this call is named, with nothing written; nothing where there is no such call, and the
/// command is done.
fn is_named_at(
    alloc: Global,
    words: &[String],
    command: &Command,
    manner: Manner,
    wrong_at: u32,
) -> Option<bool> {
    let mut reader = Feed {
        bytes: command.input,
        most: manner.0,
        wrong_at,
        kind: manner.1,
        calls: 0,
    };
    let outcome = outcome_of(alloc, words, &mut reader);
    outcome.names_read(reader.calls >= wrong_at, command.output)
}

/// Whether the words' read that goes wrong is named, at whichever call of the reader it is.
fn is_each_named(alloc: Global, words: &[String], command: &Command, manner: Manner) -> bool {
    for wrong_at in 1..400u32 {
        match is_named_at(alloc, words, command, manner, wrong_at) {
            Some(true) => {}
            Some(false) => return false,
            None => return wrong_at as usize > command.input.len() / manner.0.max(1),
        }
    }
    false
}

/// Whether a command's read that goes wrong is named.
fn is_named(alloc: Global, command: &Command, manner: Manner) -> bool {
    match split(alloc, command.line) {
        Ok(words) => is_each_named(alloc, words.as_slice(), command, manner),
        Err(_) => false,
    }
}

/// Whether all commands name a read that goes wrong so.
fn are_named(alloc: Global, most: usize, kind: Trouble) -> bool {
    for command in COMMANDS.iter() {
        if !is_named(alloc, command, (most, kind)) {
            return false;
        }
    }
    true
}

#[test]
fn interrupted_reads_are_named(rt: HostRuntime) {
    assert!(rt; are_named(rt.alloc(), 1, Trouble::Interrupted));
    assert!(rt; are_named(rt.alloc(), 50, Trouble::Interrupted));
}

#[test]
fn failing_reads_are_named(rt: HostRuntime) {
    assert!(rt; are_named(rt.alloc(), 1, Trouble::Fails));
    assert!(rt; are_named(rt.alloc(), 4096, Trouble::Fails));
}

/// Whether a reader without end is too long for the command.
fn is_too_long(alloc: Global, line: &str) -> bool {
    match split(alloc, line) {
        Ok(words) => {
            outcome_of(alloc, words.as_slice(), &mut Endless).is_refused(b"asl: TooLong\n")
        }
        Err(_) => false,
    }
}

#[test]
fn input_without_end_is_too_long(rt: HostRuntime) {
    for command in COMMANDS.iter() {
        assert!(rt; is_too_long(rt.alloc(), command.line), "{}", command.line);
    }
}
