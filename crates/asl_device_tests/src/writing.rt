//! Writers under each command.
use crate::commands::{COMMANDS, Command, call, split};
use crate::devices::{Feed, Sink, Trouble};
use crate::outcome::Outcome;
use std::alloc::Global;

/// A reader that gives all bytes, 64 a call.
fn feed(bytes: &[u8]) -> Feed<'_> {
    Feed {
        bytes,
        most: 64,
        wrong_at: 0,
        kind: Trouble::Fails,
        calls: 0,
    }
}

/// How a writer takes its bytes: the most a call, and how a call goes wrong.
type Manner = (usize, Trouble);

/// Whether a write that goes wrong at this call is named, with a first part written; nothing where there is no such call,
/// and the command is done.
fn is_named_at(
    alloc: Global,
    words: &[String],
    command: &Command,
    manner: Manner,
    wrong_at: u32,
) -> Option<bool> {
    let mut reader = feed(command.input);
    let mut sink = Sink::new(alloc, manner.0, wrong_at, manner.1);
    let mut errors = Vec::new(alloc);
    let status = call(alloc, words, &mut reader, &mut sink, &mut errors);
    let went_wrong = sink.calls >= wrong_at;
    let outcome = Outcome {
        status,
        output: sink.held,
        errors,
    };
    outcome.names_write(went_wrong, command.output)
}

/// Whether the words' write that goes wrong is named, at whichever call of the writer it is.
fn is_each_named(alloc: Global, words: &[String], command: &Command, manner: Manner) -> bool {
    for wrong_at in 1..400u32 {
        match is_named_at(alloc, words, command, manner, wrong_at) {
            Some(true) => {}
            Some(false) => return false,
            None => return wrong_at as usize > command.output.len() / manner.0.max(1),
        }
    }
    false
}

/// Whether a command's write that goes wrong is named.
fn is_named(alloc: Global, command: &Command, manner: Manner) -> bool {
    match split(alloc, command.line) {
        Ok(words) => is_each_named(alloc, words.as_slice(), command, manner),
        Err(_) => false,
    }
}

/// Whether all commands name a write that goes wrong so.
fn are_named(alloc: Global, most: usize, kind: Trouble) -> bool {
    for command in COMMANDS.iter() {
        if !is_named(alloc, command, (most, kind)) {
            return false;
        }
    }
    true
}

#[test]
fn interrupted_writes_are_named(rt: HostRuntime) {
    assert!(rt; are_named(rt.alloc(), 1, Trouble::Interrupted));
    assert!(rt; are_named(rt.alloc(), 30, Trouble::Interrupted));
}

#[test]
fn failing_writes_are_named(rt: HostRuntime) {
    assert!(rt; are_named(rt.alloc(), 1, Trouble::Fails));
    assert!(rt; are_named(rt.alloc(), 4096, Trouble::Fails));
}

#[test]
fn writes_that_take_nothing_are_named(rt: HostRuntime) {
    assert!(rt; are_named(rt.alloc(), 1, Trouble::Nothing));
    assert!(rt; are_named(rt.alloc(), 30, Trouble::Nothing));
}

/// What the words come to where nobody takes what is said: the status, and how much was written or said.
fn unheard(alloc: Global, words: &[String]) -> (Option<u8>, usize) {
    let mut reader = feed(b"no input of any command");
    let mut output = Vec::new(alloc);
    let mut errors = Sink::new(alloc, 64, 1, Trouble::Fails);
    let status = call(alloc, words, &mut reader, &mut output, &mut errors);
    (status, output.len().saturating_add(errors.held.len()))
}

/// Whether a refusal keeps its status where nobody takes what it says.
fn is_status_kept(alloc: Global, line: &str, status: u8) -> bool {
    match split(alloc, line) {
        Ok(words) => unheard(alloc, words.as_slice()) == (Some(status), 0),
        Err(_) => false,
    }
}

#[test]
fn faults_of_the_errors_count_for_nothing(rt: HostRuntime) {
    for command in COMMANDS.iter() {
        assert!(rt;
            is_status_kept(rt.alloc(), command.line, 1),
            "{}",
            command.line
        );
    }
    assert!(rt; is_status_kept(rt.alloc(), "steps", 2));
}
