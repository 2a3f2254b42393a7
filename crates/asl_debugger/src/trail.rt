//! Copies of the machine that moves back leave between two checkpoints, so that the next moves back have less way to go.
ghost use Rattle.std.specs.Prelude.{◌≡◌, ◌<◌, ◌≤◌, All, length, IfErr, IfOk, IfSome, IsSomeAnd, OnErr, slice_get};
ghost use Rattle.asl_code.specs.declared.image.Image.{Image};
ghost use Rattle.asl_journal.specs.Journal.{IsJournal, Log};
ghost use Rattle.asl_debugger.specs.Checkpoints.{AreMarks};
ghost use Rattle.asl_debugger.specs.Computed.{machine_before, state_before};

use crate::checkpoints::{machine_between, rest_of};
use crate::fault::DebugFault;
use asl_journal::{Journal, Memory};
use asl_machine::{MAX_FRAMES, Machine, Paused};

/// How many events are a short way, on which no marks are left.
const SHORT_WAY: u32 = 16;

/// What is left of the machine at a position.
#[derive(Drop)]
pub struct Mark {
    pub position: u32,
    pub rest: Paused,
}

/// The number of the last mark that stands from `start` to `end`, if there is one. Marks are in the order of their positions.
pub fn last_mark(marks: &[Mark], start: u32, end: u32) -> Option<usize>
    ensures { IfSome result (λ index. IsSomeAnd (slice_get marks.now index) (λ mark. (start ≤ mark.position) × (mark.position ≤ end))) }
{
    let mut left = marks.len();
    while left > 0 {
        left -= 1;
        let position = marks[left].position;
        if start <= position && position <= end {
            return Some(left);
        }
    }
    None
}

/// Forgets the marks that do not stand from `start` to `end`.
pub fn keep_marks(marks: &mut Vec<Mark>, start: u32, end: u32)
    ensures kept { (image : Image) (log : Log) → AreMarks image log marks.old.items → AreMarks image log marks.new.items }
    ensures within { All (λ mark. (start ≤ mark.position) × (mark.position ≤ end)) marks.new.items }
{
    marks.retain(|mark| start <= mark.position && mark.position <= end);
}

/// The machine at position `end`, from the one at position `start`. On a way that is not short, marks are left half of the way on, half
/// of the rest and so on.
pub fn machine_by_marks<'p, M: Memory>(
    memory: M,
    from: Machine<'p>,
    journal: &Journal,
    marks: &mut Vec<Mark>,
    start: u32,
    end: u32,
) -> Result<Machine<'p>, DebugFault>
    requires from { from ≡ machine_before from.image journal.now start }
    requires order { start ≤ end }
    requires within { end ≤ length journal.now.events }
    requires journal { IsJournal from.image journal.now.threads journal.now.events }
    requires marks { AreMarks from.image journal.now marks.old.items }
    ensures machine { IfOk result (λ machine. machine ≡ machine_before from.entry.image journal.now end) }
    ensures marks { AreMarks from.entry.image journal.now marks.new.items }
    ensures memory { IfErr result (λ fault. fault ≡ DebugFault.OutOfMemory) }
    ensures growth { OnErr result (M.refused memory) }
{
    let mut machine = from;
    let mut here = start;
    while end - here > SHORT_WAY {
        let middle = here + (end - here) / 2;
        machine = machine_between(memory, machine, journal, here as usize, middle as usize)?;
        leave_mark(memory, marks, &machine, middle, end - middle);
        here = middle;
    }
    machine_between(memory, machine, journal, here as usize, end as usize)
}

/// Leaves a mark of the machine at this position, with so many events of the way still before it. Where the machine has more objects and frames
/// than that, a copy would cost more than the steps that it saves, and none is left; nor is one where memory is refused for it.
fn leave_mark<M: Memory>(
    memory: M,
    marks: &mut Vec<Mark>,
    machine: &Machine<'_>,
    position: u32,
    rest_of_way: u32,
)
    ensures { (log : Log) → machine.now ≡ machine_before machine.now.image log position → position ≤ length log.events
        → AreMarks machine.now.image log marks.old.items → AreMarks machine.now.image log marks.new.items }
{
    if pieces(machine) > rest_of_way {
        return;
    }
    if let Ok(rest) = rest_of(memory, machine) {
        let _ = marks.push(Mark { position, rest });
    }
}

/// How many objects and frames the machine has.
fn pieces(machine: &Machine<'_>) -> u32 {
    let mut count = machine.objects();
    for thread in 0..machine.threads() {
        for frame in 0..MAX_FRAMES as u32 {
            if machine.frame(thread, frame).is_none() {
                break;
            }
            count = count.saturating_add(1);
        }
    }
    count
}
