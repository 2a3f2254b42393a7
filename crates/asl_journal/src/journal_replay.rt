//! Replay: the steps of a journal, made again.
ghost use Rattle.std.specs.Prelude.{◌≡◌, ◌≢◌, ◌≤◌, ℕ, length, IfOk, IfErr, IsErrOf, MatchBool, OnOk};
ghost use Rattle.asl_machine.specs.State.{State};
ghost use Rattle.asl_journal.specs.Journal.{AreThere, IsJournal, LeadsFrom, LeadsTo, most_events};
ghost use Rattle.asl_journal.specs.Replay.{IsFollowFault, IsReplayFault, MayStopAt};

use crate::event::Event;
use crate::fault::JournalFault;
use crate::journal::Journal;
use crate::memory::Memory;
use asl_code::Program;
use asl_machine::{Machine, Reply};

/// The machine to which the journal leads, if it is one of this program; else that the program cannot start so many
/// threads, or the first event to which its run replies something else.
///
/// # Errors
///
/// `BadCount` where the program's version sets fewer threads; `Differs` with the first event that differs; `OutOfMemory` where a
/// allocation failed.
pub fn replay<'p, M: Memory>(
    memory: M,
    program: &'p Program,
    journal: &Journal,
) -> Result<Machine<'p>, JournalFault>
    ensures journal { OnOk result (IsJournal program.now journal.now.threads journal.now.events) }
    ensures image { IfOk result (λ machine. machine.image ≡ program.now) }
    ensures leads { IfOk result (λ machine. LeadsTo program.now journal.now.threads journal.now.events machine.state) }
    ensures refused { IfErr result (λ fault. IsReplayFault program.now journal.now fault) }
    ensures growth { IsErrOf result JournalFault.OutOfMemory → M.refused memory }
    // A journal of the program is refused only because memory ran out.
    ensures only { IsJournal program.now journal.now.threads journal.now.events
        → IfErr result (λ fault. fault ≡ JournalFault.OutOfMemory) }
{
    let machine = memory.new_machine(program, journal.threads())?;
    // Its program is verified.
    machine.threads();
    run_on(memory, machine, journal.events())
}

/// The machine to which the events lead from the state of this one, which stays as it is.
///
/// # Errors
///
/// `Differs` with the first event that differs; `OutOfMemory` where an allocation failed.
pub fn follow<'p, M: Memory>(
    memory: M,
    from: &Machine<'p>,
    events: &[Event],
) -> Result<Machine<'p>, JournalFault>
    requires there { AreThere (length from.now.state.threads) events.now }
    requires short { length events.now ≤ most_events }
    ensures image { IfOk result (λ machine. machine.image ≡ from.now.image) }
    ensures leads { IfOk result (λ machine. LeadsFrom from.now.image from.now.state events.now machine.state) }
    ensures refused { IfErr result (λ fault. IsFollowFault from.now.image from.now.state events.now fault) }
    ensures growth { IsErrOf result JournalFault.OutOfMemory → M.refused memory }
    // Events that lead somewhere are refused only because memory ran out.
    ensures only { (end : State) → LeadsFrom from.now.image from.now.state events.now end
        → IfErr result (λ fault. fault ≡ JournalFault.OutOfMemory) }
{
    let machine = memory.copy_machine(from)?;
    run_on(memory, machine, events)
}

/// The machine after the events, each of which replies as it says: compares each reply with the event's. Memory hides no event that
/// differs and whose step takes none: it runs out only at an event whose step may want it, and those before it do not differ.
///
/// # Errors
///
/// `Differs` with the first event that differs; `OutOfMemory` where an allocation failed.
pub fn run_on<'p, M: Memory>(
    memory: M,
    mut machine: Machine<'p>,
    events: &[Event],
) -> Result<Machine<'p>, JournalFault>
    requires there { AreThere (length machine.state.threads) events.now }
    requires short { length events.now ≤ most_events }
    ensures image { IfOk result (λ behind. behind.image ≡ machine.entry.image) }
    ensures leads { IfOk result (λ behind. LeadsFrom machine.entry.image machine.entry.state events.now behind.state) }
    ensures refused { IfErr result (λ fault. IsFollowFault machine.entry.image machine.entry.state events.now fault) }
    ensures growth { IsErrOf result JournalFault.OutOfMemory → M.refused memory }
    ensures memory { IsErrOf result JournalFault.OutOfMemory
        → (index : ℕ) × MayStopAt machine.entry.image machine.entry.state events.now index }
{
    for (index, event) in events.iter().enumerate() {
        let reply = memory.step_machine(&mut machine, u32::from(event.thread))?;
        if !are_same(reply, event.reply) {
            return Err(JournalFault::Differs(index as u32));
        }
    }
    Ok(machine)
}

/// Whether the replies are the same.
fn are_same(reply: Reply, other: Reply) -> bool
    ensures { MatchBool result (reply ≡ other) (reply ≢ other) }
{
    reply == other
}
