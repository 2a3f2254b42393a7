//! A worker: it draws tickets, and with each steps one of its threads, until all have ended or no ticket is left.
ghost use Rattle.std.specs.Prelude.{◌≡◌, ◌≢◌, ◌<◌, ◌≤◌, ◌%◌, ℕ, true, false, [], length, set, Some, slice_get, MatchOption};
ghost use Rattle.asl_code.specs.Versions.{newest_threads};
ghost use Rattle.asl_runner.specs.Working.{HasLeft};
ghost use Rattle.asl_runner.specs.Ending.{IsMine};
ghost use Rattle.asl_runner.specs.Turning.{AfterTurn, IsAt, IsReadyAt, IsTurnOf};

use crate::gate::Gate;
use crate::locked::Steps;
use asl_code::NEWEST_LIMITS;
use asl_journal::{JournalFault, MAX_EVENTS, Receipt};
use asl_machine::Reply;
use asl_turns::{TurnSeat, Turns};
use std::alloc::Global;
use std::sync::Wait;

/// No journal has an entry with this number.
const NO_ENTRY: u32 = MAX_EVENTS as u32;

/// How many threads a run has at most.
const MAX_THREADS: usize = NEWEST_LIMITS.threads as usize;

/// Which worker it is, of how many, and how many threads there are: its threads are those t with t mod workers = worker.
#[derive(Clone, Copy, Drop)]
pub struct Post {
    pub count: u32,
    pub workers: u32,
    pub worker: u8,
}

/// What a worker has at hand: its seat, a receipt for each of its calls, which threads have not been told ended, and from
/// which of its numbers on it looks for its next thread.
#[derive(Drop)]
pub struct Working {
    pub seat: TurnSeat,
    pub receipts: Vec<Receipt>,
    pub going: [bool; MAX_THREADS],
    pub from: u32,
}

/// What a worker leaves when it stops, and whether an allocation of it failed.
#[derive(Drop)]
pub struct Work {
    pub seat: TurnSeat,
    pub receipts: Vec<Receipt>,
    pub refused: bool,
}

/// How a worker continues after a call.
#[derive(Clone, Copy, Drop)]
enum Next {
    GoOn,
    Stop,
    Refused,
}

/// The first of the worker's threads from low, which is one, to below high that continues.
fn first_going(post: Post, going: &[bool; MAX_THREADS], low: u32, high: u32) -> Option<u8>
    requires high { high ≤ newest_threads }
    requires at { IsAt post }
    requires mine { IsTurnOf post low }
    ensures { MatchOption result
        ((t : ℕ) → low ≤ t → t < high → (t % post.workers) ≡ post.worker → slice_get going.now t ≢ Some true)
        (λ t. (t < high) × ((t % post.workers) ≡ post.worker) × (slice_get going.now t ≡ Some true)) }
{
    let mut t = low;
    while t < high {
        if going[t as usize] {
            return Some(t as u8);
        }
        t += post.workers;
    }
    None
}

/// A thread of the worker that continues, in turn from the number on.
#[tactic(auto, using(crate::proofs::Own::none_before, crate::proofs::Own::own_first))]
fn next_thread(post: Post, going: &[bool; MAX_THREADS], from: u32) -> Option<u8>
    requires at { IsAt post }
    requires mine { IsTurnOf post from }
    ensures { MatchOption result
        ((t : ℕ) → IsMine post.count post.workers post.worker t → slice_get going.now t ≢ Some true)
        (λ t. IsMine post.count post.workers post.worker t × (slice_get going.now t ≡ Some true)) }
{
    match first_going(post, going, from, post.count) {
        Some(thread) => Some(thread),
        None => first_going(post, going, u32::from(post.worker), from.min(post.count)),
    }
}

/// One call: a ticket, and with it a step of one of the worker's threads.
#[tactic(auto, unfolding(crate::specs::Working::WasRefused))]
fn turn<R: Wait, S: Steps, G: Gate>(
    rt: &R,
    alloc: Global,
    post: Post,
    steps: &S,
    turns: &Turns,
    gate: &G,
    at: &mut Working,
) -> Next
    requires count { S.count ≡ post.count }
    requires ready { IsReadyAt turns.now post at.old }
    ensures { AfterTurn turns.now post at.new result }
{
    let Some(thread) = next_thread(post, &at.going, at.from) else {
        return Next::Stop;
    };
    if at.receipts.reserve(1).is_err() {
        return Next::Refused;
    }
    let Some(_ticket) = turns.draw(&mut at.seat) else {
        return Next::Stop;
    };
    let call = at.receipts.len() as u64 + 1;
    gate.before(post.worker, call);
    let Some(told) = stepped(rt, alloc, steps, thread) else {
        return Next::Refused;
    };
    // A copy of the whole receipt would carry along what pads it.
    let receipt = Receipt {
        index: told.index,
        thread: told.thread,
        reply: told.reply,
        ended: told.ended,
    };
    gate.after(post.worker, call, &receipt);
    note_end(&mut at.going, &receipt);
    at.from = u32::from(thread) + post.workers;
    at.receipts.push_reserved(receipt);
    Next::GoOn
}

/// A thread of which the receipt says that it has ended no longer continues.
fn note_end(going: &mut [bool; MAX_THREADS], receipt: &Receipt)
    requires { receipt.now.thread < newest_threads }
    ensures ended { receipt.now.ended ≡ true → going.new ≡ set going.old receipt.now.thread false }
    ensures goes { receipt.now.ended ≡ false → going.new ≡ going.old }
{
    if receipt.ended {
        going[usize::from(receipt.thread)] = false;
    }
}

/// What the step of the thread answered. Where the journal is full, or the thread had ended, it is a receipt that no journal
/// has, and the thread no longer continues.
fn stepped<R: Wait, S: Steps>(rt: &R, alloc: Global, steps: &S, thread: u8) -> Option<Receipt>
    requires { thread < S.count }
    ensures { MatchOption result (Unit {0}) (λ receipt. receipt.thread ≡ thread) }
{
    match steps.step_one(rt, alloc, thread) {
        Ok(receipt) => Some(receipt),
        Err(JournalFault::JournalFull | JournalFault::BadThread) => Some(Receipt {
            index: NO_ENTRY,
            thread,
            reply: Reply::Ended,
            ended: true,
        }),
        Err(_) => None,
    }
}

/// Works until all threads of the worker have ended, no ticket is left, or an allocation fails.
#[tactic(auto, using(crate::proofs::Own::own_first))]
pub fn run_worker<R: Wait, S: Steps, G: Gate>(
    rt: &R,
    alloc: Global,
    post: Post,
    steps: &S,
    turns: &Turns,
    gate: &G,
    seat: TurnSeat,
) -> Work
    requires count { S.count ≡ post.count }
    requires at { IsAt post }
    requires seat { seat ≡ record { of = turns.now; left = 1; spent = 0; tickets = [] } }
    ensures { HasLeft turns.now post.count post.workers post.worker result.seat result.receipts.items result.refused }
{
    let mut at = Working {
        seat,
        receipts: Vec::new(alloc),
        going: all_going(),
        from: u32::from(post.worker),
    };
    for _ in rt.forever() {
        match turn(rt, alloc, post, steps, turns, gate, &mut at) {
            Next::GoOn => {}
            Next::Stop => return left(at, false),
            Next::Refused => return left(at, true),
        }
    }
    unreachable!()
}

/// All threads continue.
fn all_going() -> [bool; MAX_THREADS]
    ensures count { length result ≡ newest_threads }
    ensures each { (t : ℕ) → t < newest_threads → slice_get result t ≡ Some true }
{
    [true; MAX_THREADS]
}

/// What the worker leaves.
fn left(at: Working, refused: bool) -> Work
    ensures seat { result.seat ≡ at.seat }
    ensures receipts { result.receipts.items ≡ at.receipts.items }
    ensures refused { result.refused ≡ refused }
{
    let Working {
        seat,
        receipts,
        going: _,
        from: _,
    } = at;
    Work {
        seat,
        receipts,
        refused,
    }
}
