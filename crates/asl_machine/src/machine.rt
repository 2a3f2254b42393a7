//! The machine: a program, its heap, its locks and its threads.
ghost use Rattle.std.specs.Prelude.{◌≡◌, ◌<◌, ◌≤◌, ◌↔◌, ◌⊎◌, IfOk, IfErr, OnErr, IsErrOf, length};
ghost use Rattle.asl_code.specs.Fits.{FitsImage};
ghost use Rattle.asl_code.specs.Verified.{IsVerified};
ghost use Rattle.asl_code.specs.Versions.{most_threads, newest_threads};
ghost use Rattle.asl_machine.specs.Run.{start_of, first_threads, IsReached, IsThreadCount};
ghost use Rattle.asl_machine.specs.State.{depth_at};

mod pausing;
mod readers;

use crate::fault::MachineFault;
use crate::heap::Heap;
use crate::program_code::Code;
use crate::reply::Reply;
use crate::thread::Thread;
use asl_code::Program;
use asl_lock_forest::{Forest, Node};
use asl_mode_lanes::Mode;
pub use pausing::Paused;
pub use readers::FramePlace;
use std::alloc::{AllocError, Global};
use std::marker::Model;

/// A verified program, and the state that its threads have stepped to.
#[derive(Drop)]
pub struct Machine<'p> {
    code: Code<'p>,
    heap: Heap,
    forest: Forest,
    /// Capacity for what a section asks for; what is in it between steps means nothing.
    asks: Vec<(Node, Mode)>,
    threads: Vec<Thread>,
}

impl<'p> Model for Machine<'p> {
    ghost use Rattle.std.specs.Coded.{codes};
    ghost use Rattle.asl_lock_forest.specs.Held.{coded_holding};
    ghost use Rattle.asl_machine.specs.View.{Configuration};

    ghost Value = { Configuration };

    ghost coded = { Prim.hlevel (codes, coded_holding) };

    ghost use Rattle.asl_machine.specs.Ready.{IsMachine};

    ghost view = { λ m. record {
      image = m.code;
      state = record { objects = m.heap; holding = m.forest.holding; threads = m.threads.items };
    } };

    ghost invariant = { λ m. IsMachine m.code m.heap m.forest m.threads.items };
}

impl<'p> Machine<'p> {
    ghost use Rattle.asl_machine.specs.Step.{Step};
    ghost use Rattle.asl_machine.specs.World.{SomeoneGoesOn};
    ghost use Rattle.asl_machine.specs.WellFormed.{MayWantMemory};

    /// The machine in which n threads of the program start: 1 to as many as the program's version sets.
    ///
    /// # Errors
    ///
    /// `BadCount` for another number; `OutOfMemory` where an allocation failed.
    pub fn new(alloc: Global, program: &'p Program, n: u32) -> Result<Machine<'p>, MachineFault>
        ensures image { IfOk result (λ machine. machine.image ≡ program.now) }
        ensures start { IfOk result (λ machine. machine.state ≡ start_of program.now n) }
        ensures count { IsErrOf result MachineFault.BadCount ↔ ((n ≡ 0) ⊎ (most_threads program.now.version < n)) }
        ensures other { IfErr result (λ fault. (fault ≡ MachineFault.BadCount) ⊎ (fault ≡ MachineFault.OutOfMemory)) }
    {
        if n == 0 || n > program.limits().threads {
            return Err(MachineFault::BadCount);
        }
        Ok(start(alloc, program, n)?)
    }

    /// Steps thread t: one instruction, or nothing where the thread has ended. The step is one that the instruction table
    /// (`docs/INSTRUCTIONS.md`) allows, and the only one. Only a thread that is at a `new` or a `call` for which there is
    /// room, or at an `acq` outside all sections that asks for some node, may be refused memory.
    ///
    /// # Errors
    ///
    /// `BadThread` where there is no such thread; `OutOfMemory` where an allocation failed. Then the machine is as it was.
    pub fn step(&mut self, alloc: Global, t: u32) -> Result<Reply, MachineFault>
        ensures step { IfOk result (λ reply. Step self.old.image self.old.state t reply self.new.state) }
        ensures image { self.new.image ≡ self.old.image }
        ensures thread { IsErrOf result MachineFault.BadThread ↔ (length self.old.state.threads ≤ t) }
        ensures blocked { IfOk result (λ reply. reply ≡ Reply.Blocked → SomeoneGoesOn self.old.image self.old.state) }
        ensures memory { IsErrOf result MachineFault.OutOfMemory → MayWantMemory self.old.image self.old.state t }
        ensures other { IfErr result (λ fault. (fault ≡ MachineFault.BadThread) ⊎ (fault ≡ MachineFault.OutOfMemory)) }
        ensures err { OnErr result (self.new ≡ self.old) }
    {
        if t as usize >= self.threads.len() {
            return Err(MachineFault::BadThread);
        }
        let thread = &mut self.threads[t as usize];
        if thread.try_local_step(&self.code, &self.heap, &self.forest, t) {
            return Ok(Reply::Ran);
        }
        self.step_fully(alloc, t)
    }

    /// Steps thread t by the whole table of instructions, the local ones among them. Memory may be wanted. It stays a call of its
    /// own, so that a local step keeps no more registers aside than it has use for.
    #[inline(never)]
    fn step_fully(&mut self, alloc: Global, t: u32) -> Result<Reply, MachineFault>
        requires there { t < length self.old.state.threads }
        ensures step { IfOk result (λ reply. Step self.old.image self.old.state t reply self.new.state) }
        ensures image { self.new.image ≡ self.old.image }
        ensures blocked { IfOk result (λ reply. reply ≡ Reply.Blocked → SomeoneGoesOn self.old.image self.old.state) }
        ensures memory { IsErrOf result MachineFault.OutOfMemory → MayWantMemory self.old.image self.old.state t }
        ensures fault { IfErr result (λ fault. fault ≡ MachineFault.OutOfMemory) }
        ensures err { OnErr result (self.new ≡ self.old) }
    {
        let thread = &mut self.threads[t as usize];
        Ok(thread.step(
            alloc,
            &self.code,
            &mut self.heap,
            &mut self.forest,
            &mut self.asks,
            t,
        )?)
    }

    /// A machine of the same program in an equal state. The two continue apart.
    ///
    /// # Errors
    ///
    /// `OutOfMemory` where an allocation failed.
    pub fn try_copy(&self, alloc: Global) -> Result<Machine<'p>, MachineFault>
        ensures equal { IfOk result (λ machine. machine ≡ self.now) }
        ensures other { IfErr result (λ fault. fault ≡ MachineFault.OutOfMemory) }
    {
        Ok(self.copied(alloc)?)
    }

    /// An equal machine, over memory of its own.
    fn copied(&self, alloc: Global) -> Result<Machine<'p>, AllocError>
        ensures { IfOk result (λ machine. machine ≡ self.now) }
    {
        Ok(Machine {
            code: self.code.try_copy(alloc)?,
            heap: self.heap.try_copy(alloc)?,
            forest: self.forest.try_copy(alloc)?,
            asks: Vec::new(alloc),
            threads: copies(alloc, self.threads.as_slice())?,
        })
    }

    /// The program that the threads run.
    pub fn program(&self) -> &'p Program
        ensures { result.now ≡ self.now.image }
    {
        self.code.program()
    }

    /// How many threads there are: as many as the program's version allows. The program is verified, and the state is one that
    /// a schedule of so many threads reaches, so that the laws of verified programs and of reached states hold of every machine.
    pub fn threads(&self) -> u32
        ensures count { result ≡ length self.now.state.threads }
        ensures allowed { IsThreadCount self.now.image result }
        ensures verified { IsVerified self.now.image }
        ensures reached { IsReached self.now.image result self.now.state }
    {
        self.threads.len() as u32
    }

    /// How many sections thread t is in: none where it has ended.
    pub fn depth(&self, t: u32) -> u32
        requires { t < length self.now.state.threads }
        ensures { result ≡ depth_at self.now.state.threads t }
    {
        match self.threads[t as usize].activity() {
            Some(activity) => u32::from(activity.depth()),
            None => 0,
        }
    }
}

/// The machine in which n threads of the program start.
fn start<'p>(alloc: Global, program: &'p Program, n: u32) -> Result<Machine<'p>, AllocError>
    requires count { IsThreadCount program.now n }
    ensures image { IfOk result (λ machine. machine.image ≡ program.now) }
    ensures start { IfOk result (λ machine. machine.state ≡ start_of program.now n) }
{
    let code = Code::of(alloc, program)?;
    let heap = Heap::of_globals(alloc, program.globals())?;
    let forest = Forest::new(alloc, program.classes(), n)?;
    let threads = start_threads(alloc, &code, n)?;
    Ok(Machine {
        code,
        heap,
        forest,
        asks: Vec::new(alloc),
        threads,
    })
}

/// Equal threads.
fn copies(alloc: Global, threads: &[Thread]) -> Result<Vec<Thread>, AllocError>
    ensures { IfOk result (λ copies. copies.items ≡ threads.now) }
{
    let mut copies = Vec::new(alloc);
    for thread in threads {
        copies.push(thread.try_copy(alloc)?)?;
    }
    Ok(copies)
}

/// The first n threads at their start.
fn start_threads(alloc: Global, code: &Code<'_>, n: u32) -> Result<Vec<Thread>, AllocError>
    requires fits { FitsImage code.now }
    requires few { n ≤ newest_threads }
    ensures { IfOk result (λ threads. threads.items ≡ first_threads code.now n) }
{
    let mut threads = Vec::new(alloc);
    for t in 0..n {
        threads.push(Thread::first(alloc, code, t)?)?;
    }
    Ok(threads)
}
