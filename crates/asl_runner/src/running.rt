//! The run: a machine of the program under a lock, and workers that step it.
ghost use Rattle.std.specs.Prelude.{◌≡◌, ◌<◌, ◌≤◌, ◌⊎◌, [], map, length, IfOk, IfErr, OnOk};
ghost use Rattle.asl_journal.specs.Journal.{LeadsTo};
ghost use Rattle.asl_runner.specs.History.{AreAllEndsLast, AreAllTrue, AreRunning, HaveEnded, IsAsked, IsHistory};
ghost use Rattle.asl_runner.specs.Refused.{IsRefusal};
ghost use Rattle.asl_runner.specs.Ending.{AreAllTold, IsRun};

use crate::compare::wrong_worker;
use crate::fault::RunFault;
use crate::gate::Gate;
use crate::gathering::{gather, seats};
use crate::limits::MAX_WORKERS;
use crate::locked::{Locked, Named};
use crate::report::Report;
use crate::starting::start;
use asl_code::Program;
use asl_journal::{Journaled, MAX_EVENTS};
use asl_turns::Turns;
use std::alloc::Global;
use std::marker::Brand;
use std::sync::{Mutex, Wait};
use std::thread::Threads;

/// How many steps a run makes at most: as many as a journal has events.
const MAX_STEPS: u64 = MAX_EVENTS as u64;

/// Runs n threads of the program by 1 to 8 workers, each a thread of the system. Worker j steps the threads t with
/// t mod workers = j, as long as they have not ended, one ticket for each step, until all have ended or `limit` tickets are
/// drawn. The journal is one that a single thread could have made, and no step of it is of a thread that had ended before. Each
/// thread of which a receipt says that it has ended has ended; no thread is stepped after such a receipt. Where tickets are
/// left, each thread has such a receipt. `docs/WORKERS.md` says more.
///
/// # Errors
///
/// `BadCount` where n is not 1 to as many as the program's version sets, workers not 1 to 8, or limit above 16,777,216. `Spawn`
/// and `OutOfMemory` where a thread could not be started or an allocation failed; no worker runs any more then. `Receipt(worker)`, with the report,
/// where that worker's receipts are not the journal's entries of its threads, or one says that a thread has ended that has not.
pub fn run<'p, R: Threads + Wait + Sync, G: Gate>(
    rt: &R,
    alloc: Global,
    program: &'p Program,
    n: u32,
    workers: u32,
    limit: u64,
    gate: &G,
) -> Result<Report<'p>, (RunFault, Option<Report<'p>>)>
    ensures asked { OnOk result (IsAsked program.now n workers limit) }
    ensures threads { IfOk result (λ report. report.journal.threads ≡ n) }
    ensures history { IfOk result (λ report. IsHistory program.now n workers report.journal.events (map (λ mine. mine.items) report.receipts.items)) }
    ensures told { IfOk result (λ report. AreAllTrue report.machine.state (map (λ mine. mine.items) report.receipts.items)) }
    ensures last { IfOk result (λ report. AreAllEndsLast (map (λ mine. mine.items) report.receipts.items)) }
    ensures ends { IfOk result (λ report. AreAllTold n workers (map (λ mine. mine.items) report.receipts.items) ⊎ (report.tickets ≡ limit)) }
    ensures running { IfOk result (λ report. AreRunning report.journal.events) }
    ensures machine { IfOk result (λ report. report.machine.image ≡ program.now) }
    ensures leads { IfOk result (λ report. LeadsTo program.now n report.journal.events report.machine.state) }
    ensures tickets { IfOk result (λ report. length report.journal.events ≡ report.tickets) }
    ensures limit { IfOk result (λ report. report.tickets ≤ limit) }
    ensures end { IfOk result (λ report. HaveEnded report.machine.state n ⊎ (report.tickets ≡ limit)) }
    ensures refused { IfErr result (λ refusal. IsRefusal program.now n workers limit refusal.0 refusal.1) }
{
    let threads = program.limits().threads;
    if n == 0 || n > threads || workers == 0 || workers > MAX_WORKERS || limit > MAX_STEPS {
        return Err((RunFault::BadCount, None));
    }
    let Ok(journaled) = Journaled::start(alloc, program, n) else {
        return Err((RunFault::OutOfMemory, None));
    };
    let workers = workers as u8;
    let report = match run_as::<Brand, R, G>(rt, alloc, journaled, n, workers, limit, gate) {
        Ok(report) => report,
        Err(fault) => return Err((fault, None)),
    };
    match wrong_worker(&report, workers) {
        Some(worker) => Err((RunFault::Receipt(worker), Some(report))),
        None => Ok(report),
    }
}

/// The run under a name, with receipts that nobody has compared.
fn run_as<'p, J: Named + Send + Sync, R: Threads + Wait + Sync, G: Gate>(
    rt: &R,
    alloc: Global,
    journaled: Journaled<'p>,
    count: u32,
    workers: u8,
    limit: u64,
    gate: &G,
) -> Result<Report<'p>, RunFault>
    requires image { journaled.image ≡ J.image }
    requires named { (journaled.count ≡ J.count) × (count ≡ J.count) }
    requires empty { journaled.events ≡ [] }
    requires asked { IsAsked journaled.image count workers limit }
    ensures run { IfOk result (λ report. IsRun journaled.entry.image count workers limit report) }
    ensures other { IfErr result (λ fault. (fault ≡ RunFault.Spawn) ⊎ (fault ≡ RunFault.OutOfMemory)) }
{
    let Ok((turns, mut seat)) = Turns::new(alloc, limit) else {
        return Err(RunFault::OutOfMemory);
    };
    let seats = seats(alloc, &turns, &mut seat, workers)?;
    let lock = Mutex::new(Locked::<J>::new(journaled));
    let works = start(rt, alloc, count, &lock, &turns, gate, seats)?;
    let gathered = gather(alloc, &turns, &mut seat, count, works)?;
    if gathered.refused {
        return Err(RunFault::OutOfMemory);
    }
    let tickets = turns.finish(seat);
    let (journal, machine) = lock.into_inner().into_parts();
    Ok(Report {
        journal,
        machine,
        receipts: gathered.receipts,
        tickets,
    })
}
