//! Runs by workers: who steps what, in which order, and what is left.
use asl_assembler::{AsmFault, assemble};
use asl_code::{Cell, Program, Value};
use asl_journal::Receipt;
use asl_machine::Reply;
use asl_runner::{Gate, Report, RunFault, run};
use std::alloc::Global;
use std::sync::Wait;
use std::sync::atomic::{AtomicU64, Ordering};
use std::test::Fail;
use std::thread;
use std::thread::Threads;

/// A counter that each thread counts up once, in eight steps where nobody is in its way.
const COUNTER: &[u8] =
    b"version 1\nclasses 1\nglobal 0\nentry 0\nfn 1 5\nglob r1, g0\nacq 0\nload r2, r1\nint r3, 1\nadd r4, r2, r3\nstore r1, r4\nrel\nret r0\nlist\nexpr r1 write\n";

/// A program whose threads lock an object of their own each, in eight steps whoever else is there.
const APART: &[u8] =
    b"version 1\nclasses 1\nglobal 0\nentry 0\nfn 1 5\nnew r1, 1, 0\nacq 0\nload r2, r1\nint r3, 1\nadd r4, r2, r3\nstore r1, r4\nrel\nret r0\nlist\nexpr r1 write\n";

/// How often a gate looks before it gives up.
pub const LOOKS: u64 = 1_000_000_000;

/// A gate that never waits.
#[derive(Drop)]
pub struct Open;

impl Gate for Open {
    fn before(&self, _worker: u8, _call: u64) {}

    fn after(&self, _worker: u8, _call: u64, _receipt: &Receipt) {}
}

/// Each worker waits in its first call until all workers are in theirs; the second call of each but the first waits for
/// the eighth answer to the worker before it. So a run of one thread of the system for all workers never passes.
#[derive(Drop)]
pub struct Relay {
    workers: usize,
    looks: u64,
    met: [AtomicU64; 8],
    answered: [AtomicU64; 8],
    lost: AtomicU64,
}

/// Eight words at 0.
fn words() -> [AtomicU64; 8] {
    [
        AtomicU64::new(0),
        AtomicU64::new(0),
        AtomicU64::new(0),
        AtomicU64::new(0),
        AtomicU64::new(0),
        AtomicU64::new(0),
        AtomicU64::new(0),
        AtomicU64::new(0),
    ]
}

impl Relay {
    /// A gate for so many workers, which gives up after so many looks.
    pub fn new(workers: usize, looks: u64) -> Relay {
        Relay {
            workers,
            looks,
            met: words(),
            answered: words(),
            lost: AtomicU64::new(0),
        }
    }

    fn wait_for(&self, word: &AtomicU64, least: u64) {
        for _ in 0..self.looks {
            if word.load(Ordering::SeqCst) >= least {
                return;
            }
            thread::yield_now();
        }
        self.lost.store(1, Ordering::SeqCst);
    }

    fn wait_for_all(&self) {
        for word in self.met.iter().take(self.workers) {
            self.wait_for(word, 1);
        }
    }
}

impl Gate for Relay {
    fn before(&self, worker: u8, call: u64) {
        if let Some(word) = self.met.get(usize::from(worker)) {
            word.store(call, Ordering::SeqCst);
        }
        if call == 1 {
            self.wait_for_all();
        }
        if call == 2 && worker > 0 {
            if let Some(word) = self.answered.get(usize::from(worker - 1)) {
                self.wait_for(word, 8);
            }
        }
    }

    fn after(&self, worker: u8, call: u64, _receipt: &Receipt) {
        if let Some(word) = self.answered.get(usize::from(worker)) {
            word.store(call, Ordering::SeqCst);
        }
    }
}

/// A number for each of the first eight calls of two workers, 0 where there is none yet.
#[derive(Drop)]
struct Calls([[AtomicU64; 8]; 2]);

impl Calls {
    fn new() -> Calls {
        Calls([words(), words()])
    }

    /// The word for the worker's call, if there is one.
    fn word(&self, worker: u8, call: u64) -> Option<&AtomicU64> {
        let mine = self.0.get(usize::from(worker))?;
        let place = usize::try_from(call.checked_sub(1)?).ok()?;
        mine.get(place)
    }

    /// The number that stands there, if there is a word for the worker's call.
    fn number(&self, worker: u8, call: u64) -> Option<u64> {
        let word = self.word(worker, call)?;
        Some(word.load(Ordering::SeqCst))
    }
}

/// A gate that remembers for each of the first eight calls of two workers its number, as it was told before it, and the number
/// of the event that it was handed after it, from 1; and how often it was called for any other call, or before one that it had
/// been called after.
#[derive(Drop)]
struct Witness {
    called: Calls,
    handed: Calls,
    strays: AtomicU64,
}

impl Witness {
    fn new() -> Witness {
        Witness {
            called: Calls::new(),
            handed: Calls::new(),
            strays: AtomicU64::new(0),
        }
    }

    /// Counts one more stray.
    fn stray(&self) {
        self.strays.fetch_add(1, Ordering::SeqCst);
    }

    /// Whether it was told of a call before each of the worker's receipts, and handed the receipts, one by one, and nothing
    /// after them.
    fn has_seen(&self, worker: u8, receipts: &[Receipt]) -> bool {
        for (place, call) in (0..8usize).zip(1..=8u64) {
            let receipt = receipts.get(place);
            let due = if receipt.is_some() { call } else { 0 };
            if self.called.number(worker, call) != Some(due)
                || self.handed.number(worker, call) != Some(number_of(receipt))
            {
                return false;
            }
        }
        receipts.len() <= 8
    }
}

/// The number, from 1, of the receipt's event, or 0 where there is no receipt.
fn number_of(receipt: Option<&Receipt>) -> u64 {
    match receipt {
        Some(receipt) => u64::from(receipt.index) + 1,
        None => 0,
    }
}

impl Gate for Witness {
    fn before(&self, worker: u8, call: u64) {
        match self.called.word(worker, call) {
            Some(word) if self.handed.number(worker, call) == Some(0) => {
                word.store(call, Ordering::SeqCst)
            }
            _ => self.stray(),
        }
    }

    fn after(&self, worker: u8, call: u64, receipt: &Receipt) {
        match self.handed.word(worker, call) {
            Some(word) => word.store(number_of(Some(receipt)), Ordering::SeqCst),
            None => self.stray(),
        }
    }
}

/// What a report says in numbers: events, tickets, receipts of each worker, what the counter is at, how many threads have ended,
/// and how many receipts say so.
#[derive(Clone, Copy, Debug, PartialEq, Eq)]
pub struct Told {
    pub events: usize,
    pub tickets: u64,
    pub receipts: [usize; 8],
    pub counter: Option<Value>,
    pub ended: u32,
    pub told: usize,
}

fn summary_of(report: &Report<'_>) -> Told {
    let mut ended = 0;
    for t in 0..report.machine.threads() {
        if report.machine.pc(t).is_none() {
            ended += 1;
        }
    }
    Told {
        events: report.journal.events().len(),
        tickets: report.tickets,
        receipts: receipts(report),
        counter: report.machine.cell(Cell {
            object: 0,
            offset: 0,
        }),
        ended,
        told: ends_told(report),
    }
}

/// How many receipts say that their thread has ended.
fn ends_told(report: &Report<'_>) -> usize {
    let mut count: usize = 0;
    for mine in report.receipts.iter() {
        for receipt in mine.iter() {
            if receipt.ended {
                count = count.saturating_add(1);
            }
        }
    }
    count
}

/// How many receipts each worker has.
fn receipts(report: &Report<'_>) -> [usize; 8] {
    let mut counts = [0; 8];
    for (count, mine) in counts.iter_mut().zip(report.receipts.iter()) {
        *count = mine.len();
    }
    counts
}

/// The text's program, at the second call if the first wants memory.
fn assembled(alloc: Global, text: &[u8]) -> Option<Program> {
    match assemble(alloc, text) {
        Err(AsmFault::OutOfMemory) => assemble(alloc, text).ok(),
        answer => answer.ok(),
    }
}

/// The counter's program.
pub fn counter(alloc: Global) -> Option<Program> {
    assembled(alloc, COUNTER)
}

/// The program of threads that are in nobody's way.
pub fn apart(alloc: Global) -> Option<Program> {
    assembled(alloc, APART)
}

/// `COUNTER` as a program of version 2, and else the same: for the test that such a program has up to 128 threads, where one of
/// version 1 has up to 64.
const SECOND: &[u8] =
    b"version 2\nclasses 1\nglobal 0\nentry 0\nfn 1 5\nglob r1, g0\nacq 0\nload r2, r1\nint r3, 1\nadd r4, r2, r3\nstore r1, r4\nrel\nret r0\nlist\nexpr r1 write\n";

/// What a run of the counter comes to: a report, or a fault without one.
pub fn outcome<R: Threads + Wait + Sync, G: Gate>(
    rt: &R,
    alloc: Global,
    program: &Program,
    asked: (u32, u32, u64),
    gate: &G,
) -> Option<Result<Told, RunFault>> {
    let (n, workers, limit) = asked;
    match run(rt, alloc, program, n, workers, limit, gate) {
        Ok(report) => Some(Ok(summary_of(&report))),
        Err((fault, None)) => Some(Err(fault)),
        Err((_, Some(_))) => None,
    }
}

/// What two threads of two workers come to.
pub const TWO: Told = Told {
    events: 16,
    tickets: 16,
    receipts: [8, 8, 0, 0, 0, 0, 0, 0],
    counter: Some(Value::Int(2)),
    ended: 2,
    told: 2,
};

/// What two threads of two workers come to where each counts up an object of its own.
pub const TWO_APART: Told = Told {
    events: 16,
    tickets: 16,
    receipts: [8, 8, 0, 0, 0, 0, 0, 0],
    counter: Some(Value::Int(0)),
    ended: 2,
    told: 2,
};

#[test]
fn two_workers_meet_and_count_to_two(rt: HostRuntime) -> Result<(), Fail> {
    let program = counter(rt.alloc()).ok_or("no program")?;
    let gate = Relay::new(2, LOOKS);
    let ran = outcome(&rt, rt.alloc(), &program, (2, 2, 10_000), &gate);
    assert!(rt; ran == Some(Ok(TWO)));
    assert!(rt; gate.lost.load(Ordering::SeqCst) == 0);
    Ok(())
}

#[test]
fn eight_workers_meet_and_count_to_eight(rt: HostRuntime) -> Result<(), Fail> {
    let program = counter(rt.alloc()).ok_or("no program")?;
    let gate = Relay::new(8, LOOKS);
    let ran = outcome(&rt, rt.alloc(), &program, (8, 8, 10_000), &gate);
    let told = Told {
        events: 64,
        tickets: 64,
        receipts: [8; 8],
        counter: Some(Value::Int(8)),
        ended: 8,
        told: 8,
    };
    assert!(rt; ran == Some(Ok(told)));
    assert!(rt; gate.lost.load(Ordering::SeqCst) == 0);
    Ok(())
}

/// What one thread of several workers comes to.
const ONE: Told = Told {
    events: 8,
    tickets: 8,
    receipts: [8, 0, 0, 0, 0, 0, 0, 0],
    counter: Some(Value::Int(1)),
    ended: 1,
    told: 1,
};

#[test]
fn one_thread_of_several_workers_is_stepped_by_the_first(rt: HostRuntime) -> Result<(), Fail> {
    let program = counter(rt.alloc()).ok_or("no program")?;
    for workers in [2, 8] {
        let ran = outcome(&rt, rt.alloc(), &program, (1, workers, 10_000), &Open);
        assert!(rt; ran == Some(Ok(ONE)), "{workers} workers");
    }
    Ok(())
}

/// Whether the gate was told of each call of the report's two workers before it, and handed its receipt after it, and nothing
/// else, and there are so many.
fn is_seen(gate: &Witness, report: &Report<'_>, events: u64) -> bool {
    let mut count: usize = 0;
    for (worker, receipts) in (0..2u8).zip(report.receipts.iter()) {
        if !gate.has_seen(worker, receipts.as_slice()) {
            return false;
        }
        count = count.saturating_add(receipts.len());
    }
    count as u64 == events && gate.strays.load(Ordering::SeqCst) == 0
}

/// Whether it was in a run of so many of the counter's threads by two workers up to the limit.
fn is_handed<R: Threads + Wait + Sync>(
    rt: &R,
    alloc: Global,
    program: &Program,
    asked: (u32, u64),
) -> Option<bool> {
    let (n, limit) = asked;
    let gate = Witness::new();
    match run(rt, alloc, program, n, 2, limit, &gate) {
        Ok(report) => Some(is_seen(&gate, &report, limit)),
        Err(_) => None,
    }
}

#[test]
fn the_gate_is_told_of_each_call_and_handed_its_receipt(rt: HostRuntime) -> Result<(), Fail> {
    let program = counter(rt.alloc()).ok_or("no program")?;
    for asked in [(1, 8), (1, 3), (2, 8)] {
        let handed = is_handed(&rt, rt.alloc(), &program, asked);
        assert!(rt; handed == Some(true), "{} threads", asked.0);
    }
    Ok(())
}

#[test]
fn a_run_stops_at_its_limit(rt: HostRuntime) -> Result<(), Fail> {
    let program = counter(rt.alloc()).ok_or("no program")?;
    for limit in [0, 3] {
        let ran = outcome(&rt, rt.alloc(), &program, (2, 2, limit), &Open);
        let numbers = match ran {
            Some(Ok(told)) => Some((told.events, told.tickets, told.ended)),
            _ => None,
        };
        assert!(rt; numbers == Some((limit as usize, limit, 0)));
    }
    Ok(())
}

/// Whether no step of the report's journal is of a thread that had ended before.
fn is_of_running(report: &Report<'_>) -> bool {
    report
        .journal
        .events()
        .iter()
        .all(|event| event.reply != Reply::Ended)
}

#[test]
fn no_thread_is_stepped_that_had_ended(rt: HostRuntime) -> Result<(), Fail> {
    let program = counter(rt.alloc()).ok_or("no program")?;
    for n in [3, 8] {
        let ran = run(&rt, rt.alloc(), &program, n, 2, 100_000, &Open);
        let running = match ran {
            Ok(report) => Some(is_of_running(&report)),
            Err(_) => None,
        };
        assert!(rt; running == Some(true), "{n} threads");
    }
    Ok(())
}

#[test]
fn what_no_run_has_is_refused(rt: HostRuntime) -> Result<(), Fail> {
    let program = counter(rt.alloc()).ok_or("no program")?;
    for asked in [
        (2, 0, 10),
        (2, 9, 10),
        (0, 2, 10),
        (65, 2, 10),
        (2, 2, 16_777_217),
    ] {
        let ran = outcome(&rt, rt.alloc(), &program, asked, &Open);
        assert!(rt; ran == Some(Err(RunFault::BadCount)));
    }
    Ok(())
}

#[test]
fn a_run_of_version_2_has_1_to_128_threads(rt: HostRuntime) -> Result<(), Fail> {
    let program = assemble(rt.alloc(), SECOND).ok().ok_or("no program")?;
    let ran = outcome(&rt, rt.alloc(), &program, (128, 8, 8_000_000), &Open);
    let counted = match ran {
        Some(Ok(told)) => Some((told.counter, told.ended)),
        _ => None,
    };
    assert!(rt; counted == Some((Some(Value::Int(128)), 128)));
    let ran = outcome(&rt, rt.alloc(), &program, (129, 8, 10), &Open);
    assert!(rt; ran == Some(Err(RunFault::BadCount)));
    Ok(())
}
