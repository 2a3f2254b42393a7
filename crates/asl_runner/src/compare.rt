//! Compares receipts with the journal and the machine, in one walk over the journal.
ghost use Rattle.std.specs.Prelude.{◌≡◌, ◌<◌, ◌≤◌, ℕ, length, slice_get, Some, MatchBool, MatchOption, vec_len};
ghost use Rattle.asl_journal.specs.Recorded.{has_ended};
ghost use Rattle.asl_runner.specs.History.{IsRight, IsWrong, entry, entry_of};
ghost use Rattle.asl_runner.specs.Comparing.{HaveCome, IsNext, TellsTruth};

use crate::limits::MAX_WORKERS;
use crate::report::Report;
use asl_journal::{Event, Receipt};
use asl_machine::{Machine, Reply};

/// For how many workers there is a place.
const PLACES: usize = MAX_WORKERS as usize;

/// A worker with wrong receipts: the first of which the journal shows it, or else one that has receipts left over. It stays a call
/// of its own, so that the walk has all registers.
#[inline(never)]
pub fn wrong_worker(report: &Report, workers: u8) -> Option<u8>
    requires some { 0 < workers }
    requires few { workers ≤ 8 }
    requires receipts { vec_len report.now.receipts ≡ workers }
    ensures { MatchOption result
        ((worker : ℕ) (mine : _) → worker < workers → slice_get report.now.receipts.items worker ≡ Some mine
        → IsRight workers worker report.now.machine.state report.now.journal.events mine.items)
        (λ worker. (worker < workers) × ((mine : _) → slice_get report.now.receipts.items worker ≡ Some mine
        → IsWrong workers worker report.now.machine.state report.now.journal.events mine.items)) }
{
    let mut next = [0; PLACES];
    for (index, event) in report.journal.events().iter().enumerate() {
        let worker = event.thread % workers;
        let at: usize = next[usize::from(worker)];
        let receipts = report.receipts[usize::from(worker)].as_slice();
        if !is_next(&report.machine, receipts, at, index, event) {
            return Some(worker);
        }
        next[usize::from(worker)] = at + 1;
    }
    left_over(report, workers, &next)
}

/// A worker that has more receipts than events, by how many of them are those of its events.
fn left_over(report: &Report, workers: u8, next: &[usize; PLACES]) -> Option<u8>
    requires few { workers ≤ 8 }
    requires receipts { vec_len report.now.receipts ≡ workers }
    requires come { HaveCome workers report.now.machine.state report.now.journal.events report.now.receipts.items next.now (length report.now.journal.events) }
    ensures { MatchOption result
        ((worker : ℕ) (mine : _) → worker < workers → slice_get report.now.receipts.items worker ≡ Some mine
        → IsRight workers worker report.now.machine.state report.now.journal.events mine.items)
        (λ worker. (worker < workers) × ((mine : _) → slice_get report.now.receipts.items worker ≡ Some mine
        → IsWrong workers worker report.now.machine.state report.now.journal.events mine.items)) }
{
    for worker in 0..workers {
        if next[usize::from(worker)] != report.receipts[usize::from(worker)].len() {
            return Some(worker);
        }
    }
    None
}

/// Whether the next receipt is there, is of the event, which stands at the index, and is true of the machine.
fn is_next(
    machine: &Machine,
    receipts: &[Receipt],
    next: usize,
    index: usize,
    event: &Event,
) -> bool
    ensures { MatchBool result (IsNext machine.now.state receipts.now next index event.now) (¬ IsNext machine.now.state receipts.now next index event.now) }
{
    match receipts.get(next) {
        Some(receipt) => is_of(receipt, index, event) && is_true(machine, receipt),
        None => false,
    }
}

/// Whether the receipt is of the event, which stands at the index.
fn is_of(receipt: &Receipt, index: usize, event: &Event) -> bool
    ensures { MatchBool result (entry_of receipt.now ≡ entry index event.now.thread event.now.reply) (¬ (entry_of receipt.now ≡ entry index event.now.thread event.now.reply)) }
{
    receipt.index as usize == index
        && receipt.thread == event.thread
        && are_same(receipt.reply, event.reply)
}

/// Whether the replies are the same. Most steps reply that they ran, so this is looked at first.
fn are_same(reply: Reply, other: Reply) -> bool
    ensures { MatchBool result (reply ≡ other) (¬ (reply ≡ other)) }
{
    match (reply, other) {
        (Reply::Ran, Reply::Ran) => true,
        _ => reply == other,
    }
}

/// Whether the thread has ended, where the receipt says so.
fn is_true(machine: &Machine, receipt: &Receipt) -> bool
    ensures { MatchBool result (TellsTruth machine.now.state receipt.now) (¬ TellsTruth machine.now.state receipt.now) }
{
    !receipt.ended || is_at_end(machine, receipt.thread)
}

/// Whether the thread does not run.
fn is_at_end(machine: &Machine, thread: u8) -> bool
    ensures { result ≡ has_ended machine.now.state thread }
{
    let thread = u32::from(thread);
    thread >= machine.threads() || machine.pc(thread).is_none()
}
