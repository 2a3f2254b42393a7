//! The command `debug`: words to a debugger over a run file.
ghost use Rattle.std.specs.Prelude.{◌≡◌, ◌≤◌, ◌++◌, length, IfOk, IfErr, OnErr, OnOk, string_bytes};
ghost use Rattle.asl_debugger.specs.Breaks.{HasBreak};
ghost use Rattle.asl_debugger.specs.Session.{moved, with_breaks};
ghost use Rattle.asl_journal.specs.Journal.{IsJournal};
ghost use Rattle.asl_journal.specs.Replay.{IsReplayFault};
ghost use Rattle.asl_tool.specs.Command.{IsRefusedReplay};
ghost use Rattle.asl_tool.specs.Debug.{Follows, IsAnswer, IsDebugged, IsNoMove, IsTalk, answer_text, arrived, opened};

use crate::command_fault::CommandFault;
use crate::spacing::spacing_of;
use asl_code::Program;
use asl_command_line::{DebugWord, Move};
use asl_debugger::{DebugFault, Debugger};
use asl_journal::{Journal, JournalFault, get_run};
use asl_show::{push_asks, push_objects, push_stack, push_view};
use std::alloc::{AllocError, Global};

/// What a move answers.
#[derive(Clone, Copy)]
pub enum Answer {
    /// The debugger is at this position now.
    At(u32),
    /// It is at the end, and stays there.
    AtEnd,
    /// It is at the start, and stays there.
    AtStart,
    /// There is no such position, and it stays where it is.
    NoSuchStep,
}

/// What a debugger over the run file answers to the words.
pub fn debugged(alloc: Global, words: &[DebugWord], file: &[u8]) -> Result<Vec<u8>, CommandFault>
    ensures ok { IfOk result (λ text. IsDebugged file.now words.now text.items) }
    ensures err { IfErr result (λ fault. IsRefusedReplay file.now fault) }
{
    let (program, journal) = match get_run(alloc, file) {
        Ok(run) => run,
        Err(fault) => return Err(CommandFault::File(fault)),
    };
    match debugged_text(alloc, &program, journal, words) {
        Ok(text) => Ok(text.into_bytes()),
        Err(fault) => Err(CommandFault::Journal(fault)),
    }
}

/// What a debugger over the journal answers to the words.
fn debugged_text(
    alloc: Global,
    program: &Program,
    journal: Journal,
    words: &[DebugWord],
) -> Result<String, JournalFault>
    ensures journal { OnOk result (IsJournal program.now journal.threads journal.events) }
    ensures text { IfOk result (λ text. IsTalk (opened program.now journal) words.now (string_bytes text)) }
    ensures err { IfErr result (λ fault. IsReplayFault program.now journal fault) }
{
    let spacing = spacing_of(alloc, program, &journal);
    match Debugger::open(alloc, program, journal, spacing) {
        Ok(mut debugger) => match talk(alloc, &mut debugger, words) {
            Ok(text) => Ok(text),
            Err(_) => Err(JournalFault::OutOfMemory),
        },
        Err((DebugFault::BadCount, _)) => Err(JournalFault::BadCount),
        Err((DebugFault::Differs(index), _)) => Err(JournalFault::Differs(index)),
        Err(_) => Err(JournalFault::OutOfMemory),
    }
}

/// What the debugger answers to the words, one after the other.
fn talk(
    alloc: Global,
    debugger: &mut Debugger<'_>,
    words: &[DebugWord],
) -> Result<String, AllocError>
    ensures { IfOk result (λ text. IsTalk debugger.old words.now (string_bytes text)) }
{
    let mut text = String::new(alloc);
    for word in words {
        obey(alloc, debugger, *word, &mut text)?;
    }
    Ok(text)
}

/// Does what the word asks for, and adds the answer to the text.
fn obey(
    alloc: Global,
    debugger: &mut Debugger<'_>,
    word: DebugWord,
    text: &mut String,
) -> Result<(), AllocError>
    ensures { OnOk result (Follows debugger.old word debugger.new (string_bytes text.old) (string_bytes text.new)) }
{
    match word {
        DebugWord::Move(step) => {
            let answer = go(alloc, debugger, step)?;
            push_answer(text, answer)
        }
        DebugWord::Break(pc) => {
            set_break(alloc, debugger, pc)?;
            write!(text, "break {pc}\n")
        }
        DebugWord::Clear(pc) => {
            debugger.clear(pc);
            write!(text, "clear {pc}\n")
        }
        DebugWord::View => push_view(text, debugger.view()),
        DebugWord::Asks => push_asks(alloc, text, debugger.view()),
        DebugWord::Stack => push_stack(text, debugger.view()),
        DebugWord::Objects => push_objects(text, debugger.view()),
    }
}

/// Makes the place a breakpoint. Only memory can fail.
fn set_break(alloc: Global, debugger: &mut Debugger<'_>, pc: u32) -> Result<(), AllocError>
    ensures same { debugger.new ≡ with_breaks debugger.old debugger.new.breakpoints }
    ensures has { OnOk result (HasBreak debugger.old.breakpoints debugger.new.breakpoints pc) }
{
    match debugger.break_at(alloc, pc) {
        Ok(()) => Ok(()),
        Err(_) => Err(AllocError),
    }
}

/// Makes the move, and says where it led, or why nowhere. Only memory can fail.
fn go(alloc: Global, debugger: &mut Debugger<'_>, step: Move) -> Result<Answer, AllocError>
    ensures answer { IfOk result (λ answer. IsAnswer debugger.old step answer) }
    ensures arrived { IfOk result (λ answer. debugger.new ≡ arrived debugger.old answer) }
    ensures same { debugger.new ≡ moved debugger.old debugger.new.position }
{
    match make_move(alloc, debugger, step) {
        Ok(()) => Ok(Answer::At(debugger.position())),
        Err(DebugFault::AtEnd) => Ok(Answer::AtEnd),
        Err(DebugFault::AtStart) => Ok(Answer::AtStart),
        Err(DebugFault::NoSuchStep) => Ok(Answer::NoSuchStep),
        Err(_) => Err(AllocError),
    }
}

/// Makes the move.
fn make_move(alloc: Global, debugger: &mut Debugger<'_>, step: Move) -> Result<(), DebugFault>
    ensures moves { OnOk result (debugger.new ≡ moved debugger.old debugger.new.position) }
    ensures within { OnOk result (debugger.new.position ≤ length debugger.old.log.events
        → IsAnswer debugger.old step (Answer.At debugger.new.position)) }
    ensures refused { IfErr result (IsNoMove debugger.old step) }
    ensures err { OnErr result (debugger.new ≡ debugger.old) }
{
    match step {
        Move::Goto(k) => debugger.goto(alloc, k),
        Move::Forward => debugger.forward(alloc),
        Move::Back => debugger.back(alloc),
        Move::Next => debugger.forward_to_break(alloc),
        Move::Previous => debugger.back_to_break(alloc),
    }
}

/// Adds the line of the answer.
fn push_answer(text: &mut String, answer: Answer) -> Result<(), AllocError>
    ensures { OnOk result (string_bytes text.new ≡ string_bytes text.old ++ answer_text answer) }
{
    match answer {
        Answer::At(position) => write!(text, "at {position}\n"),
        Answer::AtEnd => text.push_str("refused AtEnd\n"),
        Answer::AtStart => text.push_str("refused AtStart\n"),
        Answer::NoSuchStep => text.push_str("refused NoSuchStep\n"),
    }
}
