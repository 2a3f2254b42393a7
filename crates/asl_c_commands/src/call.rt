//! What C calls: a command of the program over memory.
ghost use Rattle.std.specs.Prelude.{◌≡◌, Ok, Err, length, IfOk, IfErr, OnOk, MatchOption, IsUtf8};
ghost use Rattle.asl_c_memory.specs.Buffer.{Holds};
ghost use Rattle.asl_tool.specs.Ending.{ending_text};
ghost use Rattle.asl_tool.specs.FaultLine.{fault_lines};
ghost use Rattle.asl_tool.specs.Memory.{EndsOver};
ghost use Rattle.asl_c_commands.specs.Words.{words_of};
ghost use Rattle.asl_c_commands.specs.Called.{SaysWhyNot, IsAnswered};

use crate::call_words::split;
use asl_c_memory::put_front;
use asl_tool::{Ended, Ending, ToolFault, ended_over, line_of, lines_of};
use std::alloc::Global;

/// The words are not UTF-8.
const NOT_UTF8: u32 = 253;
/// Memory ran out for the words.
const NO_MEMORY: u32 = 254;
/// The words ask for `run`, which starts threads.
const RUN_WAITS: u32 = 255;

/// The status, and how many bytes there are of output and of errors, whether or not there was room for them.
#[derive(Clone, Copy, Drop)]
#[repr(C)]
pub struct Answer {
    pub status: u32,
    pub output_length: usize,
    pub errors_length: usize,
}

/// How words ended, or the status of those that ask for `run`, of which nothing is done.
fn answered(ended: Option<Ended>) -> Result<Ended, u32>
    ensures { MatchOption ended (result ≡ Err 255) (λ ended. result ≡ Ok ended) }
{
    match ended {
        Some(ended) => Ok(ended),
        None => Err(RUN_WAITS),
    }
}

/// What the words ask for, done; or the status that says why nothing was done.
fn called(alloc: Global, words: &[u8], input: &[u8]) -> Result<Ended, u32>
    ensures ended { IfOk result (λ ended. EndsOver (words_of words.now) input.now ended.output.items ended.ending) }
    ensures utf8 { OnOk result (IsUtf8 words.now) }
    ensures err { IfErr result (SaysWhyNot words.now) }
{
    let text = match std::str::from_utf8(words) {
        Ok(text) => text,
        Err(_) => return Err(NOT_UTF8),
    };
    let words = match split(alloc, text) {
        Ok(words) => words,
        Err(_) => return Err(NO_MEMORY),
    };
    answered(ended_over(alloc, words.as_slice(), input))
}

/// Puts the text at the front of the buffer, as far as there is room, and answers how long it is.
fn hand_over(text: &[u8], buffer: &mut [u8]) -> usize
    ensures front { Holds text.now buffer.old buffer.new }
    ensures length { result ≡ length text.now }
{
    put_front(text, buffer);
    text.len()
}

/// Puts what is told of a fault into the buffer, as far as there is room, and answers how long it is.
fn say_fault(fault: &ToolFault, errors: &mut [u8]) -> usize
    ensures front { Holds (fault_lines fault.now) errors.old errors.new }
    ensures length { result ≡ length (fault_lines fault.now) }
{
    match lines_of(fault) {
        Some(lines) => hand_over(lines, errors),
        None => hand_over(line_of(fault).as_slice(), errors),
    }
}

/// Puts what is said of an ending into the buffer, as far as there is room, and answers how long it is. No memory is wanted.
fn say(ending: &Ending, errors: &mut [u8]) -> usize
    ensures front { Holds (ending_text ending.now) errors.old errors.new }
    ensures length { result ≡ length (ending_text ending.now) }
{
    match ending {
        Ending::Done => hand_over(b"", errors),
        Ending::Refused(fault) => say_fault(fault, errors),
        Ending::WrongUsage(text) => hand_over(text.as_str().as_bytes(), errors),
    }
}

/// Does what the program `asl` does for the words, which stand in `words` with a line feed between two. `input` is what it
/// reads. Each buffer gets as much as it has room for, from its front on, and is else as it was; the answer has the whole lengths.
///
/// Status 0, 1, 2: that of the program. 253: the words are not UTF-8. 254: memory ran out for the words. 255: the words ask
/// for `run`, which starts threads. Where the status is above 2, nothing is written but the answer.
#[unsafe(no_mangle)]
pub extern "C" fn asl_call(
    alloc: Global,
    words: &[u8],
    input: &[u8],
    output: &mut [u8],
    errors: &mut [u8],
    answer: &mut Answer,
)
    ensures { IsAnswered words.now input.now output.old errors.old output.new errors.new answer.new }
{
    match called(alloc, words, input) {
        Ok(ended) => {
            let output_length = hand_over(ended.output.as_slice(), output);
            let errors_length = say(&ended.ending, errors);
            *answer = Answer {
                status: u32::from(ended.ending.status()),
                output_length,
                errors_length,
            };
        }
        Err(status) => {
            *answer = Answer {
                status,
                output_length: 0,
                errors_length: 0,
            };
        }
    }
}
