//! A program and a debugger over it that records.
ghost use Rattle.std.specs.Prelude.{◌≡◌, ◌≢◌, ◌<◌, ◌≤◌, ◌+◌, ◌↔◌, ◌⊎◌, [], length, take, IfOk, IfErr, IsErrOf, IsOk, OnOk, OnErr, string_bytes};
ghost use Rattle.asl_code.specs.Versions.{most_threads};
ghost use Rattle.asl_machine.specs.Run.{IsThreadCount};
ghost use Rattle.asl_journal.specs.Journal.{IsJournal, most_events, with_event};
ghost use Rattle.asl_journal.specs.RunFile.{SpellsRun};
ghost use Rattle.asl_debugger.specs.Session.{IsStepBetween, moved, recorded};
ghost use Rattle.asl_debugger.specs.Paused.{IsSessionRestOf};
ghost use Rattle.asl_c_sessions.specs.Pages.{IsPage, log_text};

use crate::pages::{Page, lines_from, page_of};
use asl_code::Program;
use asl_debugger::{DebugFault, Debugger, PausedDebugger, StepFault};
use asl_journal::{Journal, Memory, put_run};
use asl_machine::Reply;
use std::alloc::{AllocError, Global};
use std::marker::Model;

/// Every how many events a checkpoint of the machine stands.
const SPACING: u32 = 256;

/// A program, and a debugger over a journal of it that grows. Between the calls the debugger is kept without the loan of the
/// program, so that one value owns both. Contracts see the debugger.
#[derive(Drop)]
pub struct Session {
    program: Program,
    debugger: PausedDebugger,
}

impl Model for Session {
    ghost use Rattle.asl_debugger.specs.Session.{Session};
    ghost use Rattle.asl_debugger.specs.Paused.{IsSessionRestOf};

    ghost Value = { Session };

    ghost view = { λ s. record {
      image = s.program;
      log = s.debugger.log;
      position = s.debugger.position;
      breakpoints = s.debugger.breakpoints;
    } };

    ghost invariant = { λ s. IsSessionRestOf s.program s.debugger };
}

impl Session {
    /// The session in which so many threads of the program start.
    ///
    /// # Errors
    ///
    /// `BadCount` for no thread and for more than the program's version sets; `OutOfMemory` where an allocation failed.
    pub fn open<M: Memory>(memory: M, program: Program, threads: u32) -> Result<Session, DebugFault>
        ensures start { IfOk result (λ session. session ≡ record {
          image = program;
          log = record { threads = threads; events = [] };
          position = 0;
          breakpoints = [];
        }) }
        ensures counted { OnOk result (IsThreadCount program threads) }
        ensures count { IsErrOf result DebugFault.BadCount ↔ ((threads ≡ 0) ⊎ (most_threads program.version < threads)) }
        ensures growth { IsErrOf result DebugFault.OutOfMemory → M.refused memory }
        ensures other { IfErr result (λ fault. (fault ≡ DebugFault.BadCount) ⊎ (fault ≡ DebugFault.OutOfMemory)) }
    {
        if threads == 0 || threads > program.limits().threads {
            return Err(DebugFault::BadCount);
        }
        let debugger = first(memory, &program, threads)?;
        Ok(Session { program, debugger })
    }

    /// At the end of the journal: steps the thread of the call, writes the step down, and is after it.
    pub fn step<M: Memory>(self, call: (M, u32)) -> (Session, Result<Reply, StepFault>)
        ensures event { IfOk result.1 (λ reply. result.0 ≡ recorded self (with_event self.log (record { thread = call.1; reply = reply })) (self.position + 1)) }
        ensures step { IfOk result.1 (λ reply. IsStepBetween self result.0 call.1 reply) }
        ensures end { IsErrOf result.1 StepFault.NotAtEnd ↔ (self.position ≢ length self.log.events) }
        ensures full { IsErrOf result.1 StepFault.JournalFull
            ↔ ((self.position ≡ length self.log.events) × (length self.log.events ≡ most_events)) }
        ensures stranger { IsErrOf result.1 StepFault.BadThread
            ↔ ((self.position ≡ length self.log.events) × (length self.log.events < most_events) × (self.log.threads ≤ call.1)) }
        ensures growth { IsErrOf result.1 StepFault.OutOfMemory → M.refused call.0 }
        ensures err { OnErr result.1 (result.0 ≡ self) }
        ensures journal { IsJournal result.0.image result.0.log.threads result.0.log.events }
    {
        let (memory, t) = call;
        let Session { program, debugger } = self;
        let mut debugger = Debugger::resume(&program, debugger);
        let reply = debugger.step(memory, t);
        let debugger = debugger.pause();
        (Session { program, debugger }, reply)
    }

    /// Goes to the position of the call.
    pub fn go<M: Memory>(self, call: (M, u32)) -> (Session, Result<(), DebugFault>)
        ensures moves { OnOk result.1 (result.0 ≡ moved self call.1) }
        ensures none { IsErrOf result.1 DebugFault.NoSuchStep ↔ (length self.log.events < call.1) }
        ensures other { IfErr result.1 (λ fault. (fault ≡ DebugFault.NoSuchStep) ⊎ (fault ≡ DebugFault.OutOfMemory)) }
        ensures growth { IsErrOf result.1 DebugFault.OutOfMemory → M.refused call.0 }
        ensures err { OnErr result.1 (result.0 ≡ self) }
        ensures here { call.1 ≡ self.position → IsOk result.1 }
    {
        let (memory, k) = call;
        let Session { program, debugger } = self;
        let mut debugger = Debugger::resume(&program, debugger);
        let answer = debugger.goto(memory, k);
        let debugger = debugger.pause();
        (Session { program, debugger }, answer)
    }

    /// Goes to the position of the call, and forgets the events after it.
    pub fn cut<M: Memory>(self, call: (M, u32)) -> (Session, Result<(), DebugFault>)
        ensures cuts { OnOk result.1 (result.0 ≡ recorded self (record { threads = self.log.threads; events = take call.1 self.log.events }) call.1) }
        ensures none { IsErrOf result.1 DebugFault.NoSuchStep ↔ (length self.log.events < call.1) }
        ensures other { IfErr result.1 (λ fault. (fault ≡ DebugFault.NoSuchStep) ⊎ (fault ≡ DebugFault.OutOfMemory)) }
        ensures growth { IsErrOf result.1 DebugFault.OutOfMemory → M.refused call.0 }
        ensures err { OnErr result.1 (result.0 ≡ self) }
        ensures here { call.1 ≡ self.position → IsOk result.1 }
    {
        let (memory, k) = call;
        let Session { program, debugger } = self;
        let mut debugger = Debugger::resume(&program, debugger);
        let answer = go_and_cut(memory, &mut debugger, k);
        let debugger = debugger.pause();
        (Session { program, debugger }, answer)
    }

    /// What is told of the machine at the position.
    ///
    /// # Errors
    ///
    /// An allocation failed.
    pub fn tell(self, call: (Global, Page)) -> (Session, Result<String, AllocError>)
        ensures same { result.0 ≡ self }
        ensures text { IfOk result.1 (λ text. IsPage call.1 self (string_bytes text)) }
    {
        let (alloc, page) = call;
        let Session { program, debugger } = self;
        let debugger = Debugger::resume(&program, debugger);
        let text = page_of(alloc, debugger.view(), page);
        let debugger = debugger.pause();
        (Session { program, debugger }, text)
    }

    /// The lines of the events from the first that is asked for on.
    ///
    /// # Errors
    ///
    /// An allocation failed.
    pub fn log(&self, alloc: Global, first: u32) -> Result<String, AllocError>
        ensures { IfOk result (λ text. string_bytes text ≡ log_text first self.now.log.events) }
    {
        let events = self.debugger.journal().events();
        let first = (first as usize).min(events.len());
        lines_from(alloc, first, &events[first..])
    }

    /// The run file of the program and the whole journal, wherever the position is.
    ///
    /// # Errors
    ///
    /// An allocation failed.
    pub fn run_file(&self, alloc: Global) -> Result<Vec<u8>, AllocError>
        ensures { IfOk result (λ bytes. SpellsRun self.now.image self.now.log bytes.items) }
    {
        put_run(alloc, &self.program, self.debugger.journal())
    }

    /// How many events lead to the machine that is shown.
    pub fn position(&self) -> u32
        ensures { result ≡ self.now.position }
    {
        self.debugger.position()
    }

    /// The journal.
    pub fn journal(&self) -> &Journal
        ensures { result.now ≡ self.now.log }
    {
        self.debugger.journal()
    }

    /// The program.
    pub fn program(&self) -> &Program
        ensures { result.now ≡ self.now.image }
    {
        &self.program
    }
}

/// The debugger at the start of so many threads, without its program.
fn first<M: Memory>(
    memory: M,
    program: &Program,
    threads: u32,
) -> Result<PausedDebugger, DebugFault>
    requires { IsThreadCount program.now threads }
    ensures fits { IfOk result (IsSessionRestOf program.now) }
    ensures log { IfOk result (λ rest. rest.log ≡ record { threads = threads; events = [] }) }
    ensures position { IfOk result (λ rest. rest.position ≡ 0) }
    ensures breakpoints { IfOk result (λ rest. rest.breakpoints ≡ []) }
    ensures memory { IfErr result (λ fault. fault ≡ DebugFault.OutOfMemory) }
    ensures growth { OnErr result (M.refused memory) }
{
    match Journal::of(threads, Vec::new(memory.allocator())) {
        Ok(journal) => match Debugger::open(memory, program, journal, SPACING) {
            Ok(debugger) => Ok(debugger.pause()),
            Err(_) => Err(DebugFault::OutOfMemory),
        },
        Err(_) => Err(DebugFault::OutOfMemory),
    }
}

/// Goes to position k, and forgets the events after it.
fn go_and_cut<M: Memory>(memory: M, debugger: &mut Debugger<'_>, k: u32) -> Result<(), DebugFault>
    ensures cuts { OnOk result (debugger.new ≡ recorded debugger.old (record { threads = debugger.old.log.threads; events = take k debugger.old.log.events }) k) }
    ensures none { IsErrOf result DebugFault.NoSuchStep ↔ (length debugger.old.log.events < k) }
    ensures here { k ≡ debugger.old.position → IsOk result }
    ensures other { IfErr result (λ fault. (fault ≡ DebugFault.NoSuchStep) ⊎ (fault ≡ DebugFault.OutOfMemory)) }
    ensures growth { IsErrOf result DebugFault.OutOfMemory → M.refused memory }
    ensures err { OnErr result (debugger.new ≡ debugger.old) }
{
    debugger.goto(memory, k)?;
    debugger.cut();
    Ok(())
}
