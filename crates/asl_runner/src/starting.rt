//! Starts a thread of the system for each worker, and waits for all of them.
ghost use Rattle.std.specs.Prelude.{◌≡◌, ◌<◌, ◌≤◌, ◌⊎◌, [], IfOk, IfErr, vec_len, vec_capacity};
ghost use Rattle.asl_code.specs.Versions.{newest_threads};
ghost use Rattle.asl_runner.specs.Working.{HasLeft};
ghost use Rattle.asl_runner.specs.Starting.{ArePromised, AreSeats, HaveWorked};
ghost use Rattle.asl_runner.specs.Turning.{IsAt};

use crate::fault::RunFault;
use crate::gate::Gate;
use crate::locked::Steps;
use crate::worker::{Post, Work, run_worker};
use asl_turns::{TurnSeat, Turns};
use std::alloc::Global;
use std::sync::Wait;
use std::thread;
use std::thread::{Promise, PromisedHandle, Scope, Threads};

/// What the thread of a worker leaves.
#[derive(Clone, Copy, Drop)]
struct WorkOf<'t> {
    turns: &'t Turns,
    post: Post,
}

impl<'t> Promise<Work> for WorkOf<'t> {
    ghost kept_by = { λ p work. HasLeft p.turns.now p.post.count p.post.workers p.post.worker work.seat work.receipts.items work.refused };
}

/// Runs a worker for each seat, side by side, and gives what they leave once all have stopped.
pub fn start<R: Threads + Wait + Sync, S: Steps, G: Gate>(
    rt: &R,
    alloc: Global,
    count: u32,
    steps: &S,
    turns: &Turns,
    gate: &G,
    seats: Vec<TurnSeat>,
) -> Result<Vec<Work>, RunFault>
    requires count { S.count ≡ count }
    requires threads { count ≤ newest_threads }
    requires few { vec_len seats ≤ 8 }
    requires seats { AreSeats turns.now seats.items }
    ensures works { IfOk result (λ works. (vec_len works ≡ vec_len seats) × HaveWorked turns.now count (vec_len seats) works.items) }
    ensures other { IfErr result (λ fault. (fault ≡ RunFault.Spawn) ⊎ (fault ≡ RunFault.OutOfMemory)) }
{
    thread::scope(
        thread::scope_env(),
        rt,
        move |scope| -> Result<Vec<Work>, RunFault>
            requires { (S.count ≡ count) × (count ≤ newest_threads) × (vec_len seats ≤ 8) × AreSeats turns.now seats.items }
            ensures works { IfOk result (λ works. (vec_len works ≡ vec_len seats) × HaveWorked turns.entry.now count (vec_len seats) works.items) }
            ensures other { IfErr result (λ fault. (fault ≡ RunFault.Spawn) ⊎ (fault ≡ RunFault.OutOfMemory)) }
        {
            let room = Vec::with_capacity(alloc, seats.len())?;
            let handles = start_workers(scope, rt, alloc, count, steps, turns, gate, seats, room)?;
            match thread::join_promised(rt, handles) {
                Ok(works) => Ok(works),
                Err(_) => Err(RunFault::OutOfMemory),
            }
        },
    )
}

/// Starts the threads of the workers, one for each seat, and adds their handles, for which there is capacity.
fn start_workers<'s, E, R: Wait + Sync, S: Steps, G: Gate>(
    scope: &Scope<'s, E>,
    rt: &'s R,
    alloc: Global,
    count: u32,
    steps: &'s S,
    turns: &'s Turns,
    gate: &'s G,
    seats: Vec<TurnSeat>,
    mut handles: Vec<PromisedHandle<Work, WorkOf<'s>>>,
) -> Result<Vec<PromisedHandle<Work, WorkOf<'s>>>, RunFault>
    requires none { vec_len handles ≡ 0 }
    requires room { vec_len seats ≤ vec_capacity handles }
    requires count { S.count ≡ count }
    requires threads { count ≤ newest_threads }
    requires few { vec_len seats ≤ 8 }
    requires seats { AreSeats turns.now seats.items }
    ensures handles { IfOk result (λ all. (vec_len all ≡ vec_len seats) × ArePromised turns.now count (vec_len seats) all.items) }
    ensures other { IfErr result (λ fault. fault ≡ RunFault.Spawn) }
{
    let workers = seats.len() as u32;
    let mut worker: u8 = 0;
    for seat in seats {
        let post = Post {
            count,
            workers,
            worker,
        };
        let handle = start_worker(scope, rt, alloc, post, steps, turns, gate, seat)?;
        handles.push_reserved(handle);
        worker += 1;
    }
    Ok(handles)
}

/// Starts the thread of the worker at the post.
fn start_worker<'s, E, R: Wait + Sync, S: Steps, G: Gate>(
    scope: &Scope<'s, E>,
    rt: &'s R,
    alloc: Global,
    post: Post,
    steps: &'s S,
    turns: &'s Turns,
    gate: &'s G,
    seat: TurnSeat,
) -> Result<PromisedHandle<Work, WorkOf<'s>>, RunFault>
    requires count { S.count ≡ post.count }
    requires at { IsAt post }
    requires seat { seat ≡ record { of = turns.now; left = 1; spent = 0; tickets = [] } }
    ensures turns { IfOk result (λ handle. handle.promise.turns.now ≡ turns.now) }
    ensures post { IfOk result (λ handle. handle.promise.post ≡ post) }
    ensures other { IfErr result (λ fault. fault ≡ RunFault.Spawn) }
{
    let started = scope.spawn_with(
        WorkOf { turns, post },
        move || -> Work
            requires { (S.count ≡ post.count) × IsAt post × (seat ≡ record { of = turns.now; left = 1; spent = 0; tickets = [] }) }
            ensures { HasLeft turns.entry.now post.count post.workers post.worker result.seat result.receipts.items result.refused }
        { run_worker(rt, alloc, post, steps, turns, gate, seat) },
    );
    match started {
        Ok(handle) => Ok(handle),
        Err(_) => Err(RunFault::Spawn),
    }
}
