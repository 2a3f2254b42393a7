//! A thread of the machine, and its step.
ghost use Rattle.std.specs.Prelude.{◌≡◌, ◌≢◌, ◌<◌, ◌+◌, ◌^◌, ℕ, IsTrue, false, IfOk, OnOk, OnErr, IsSomeAnd, Some, slice_get};
ghost use Rattle.asl_code.specs.declared.instr.Instr.{Instr as AnyInstr};
ghost use Rattle.asl_lock_forest.specs.Held.{Held};
ghost use Rattle.asl_machine.specs.State.{Activity as AnyActivity, Running};
ghost use Rattle.asl_machine.specs.Calls.{IsAwaited};
ghost use Rattle.asl_machine.specs.Ready.{IsReady, CanDo, is_local};
ghost use Rattle.asl_machine.specs.WellFormed.{ThreadWantsMemory, WantsMemory};
ghost use Rattle.asl_machine.specs.Ready.{ThreadReady};
ghost use Rattle.asl_machine.specs.StepFunction.{place, left_by, left_with, left_at, turn_of, reply_of, holding_after};

use crate::activity::Activity;
use crate::fate::Fate;
use crate::fault::Fault;
use crate::frame_only::try_local;
use crate::heap::Heap;
use crate::perform::perform;
use crate::program_code::Code;
use crate::reply::{Reply, Status};
use asl_code::Value;
use asl_lock_forest::{Forest, Node};
use asl_mode_lanes::Mode;
use std::alloc::{AllocError, Global};
use std::marker::Model;

/// A thread.
#[derive(Drop)]
pub struct Thread {
    stage: Stage,
}

/// What a thread is at while it runs, and else how it ended.
#[derive(Drop)]
enum Stage {
    Running(Activity),
    Done(Value),
    Failed(Fault),
}

impl Model for Thread {
    ghost use Rattle.asl_machine.specs.State.{Thread};

    ghost Value = { Thread };

    ghost use Rattle.asl_machine.specs.Ready.{thread_of};

    ghost view = { λ t. thread_of t.stage };
}

impl Thread {
    ghost use Rattle.std.specs.Prelude.{option_copied};
    ghost use Rattle.asl_code.specs.Fits.{FitsImage};
    ghost use Rattle.asl_code.specs.Versions.{newest_threads};
    ghost use Rattle.asl_machine.specs.State.{activity_of};
    ghost use Rattle.asl_machine.specs.Cover.{is_fresh};
    ghost use Rattle.asl_machine.specs.Fresh.{fresh_of};
    ghost use Rattle.asl_machine.specs.Run.{first_thread};
    ghost use Rattle.asl_machine.specs.View.{status_of};

    /// Thread t at its start.
    pub fn first(alloc: Global, code: &Code<'_>, t: u32) -> Result<Thread, AllocError>
        requires fits { FitsImage code.now }
        requires small { t < newest_threads }
        ensures { IfOk result (λ thread. thread ≡ first_thread code.now t) }
    {
        let activity = Activity::first(alloc, code, t)?;
        Ok(Thread {
            stage: Stage::Running(activity),
        })
    }

    /// An equal thread.
    pub fn try_copy(&self, alloc: Global) -> Result<Thread, AllocError>
        ensures { IfOk result (λ thread. thread ≡ self.now) }
    {
        let stage = match &self.stage {
            Stage::Running(activity) => Stage::Running(activity.try_copy(alloc)?),
            Stage::Done(value) => Stage::Done(*value),
            Stage::Failed(fault) => Stage::Failed(*fault),
        };
        Ok(Thread { stage })
    }

    /// What the thread is at, if it runs.
    pub fn activity(&self) -> Option<&Activity>
        ensures { option_copied result ≡ activity_of self.now }
    {
        match &self.stage {
            Stage::Running(activity) => Some(activity),
            Stage::Done(_) | Stage::Failed(_) => None,
        }
    }

    /// Whether the thread runs, and else how it ended.
    pub fn status(&self) -> Status
        ensures { result ≡ status_of self.now }
    {
        match &self.stage {
            Stage::Running(_) => Status::Running,
            Stage::Done(value) => Status::Done(*value),
            Stage::Failed(fault) => Status::Failed(*fault),
        }
    }

    /// Whether the object is fresh for the thread: never where it has ended.
    pub fn is_fresh(&self, object: u32) -> bool
        ensures { result ≡ is_fresh (fresh_of self.now) object }
    {
        match &self.stage {
            Stage::Running(activity) => activity.is_fresh(object),
            Stage::Done(_) | Stage::Failed(_) => false,
        }
    }

    /// Steps thread t if it is at a local instruction and continues after it: whether that is so.
    #[inline(always)]
    pub fn try_local_step(&mut self, code: &Code<'_>, heap: &Heap, forest: &Forest, t: u32) -> bool
        requires ready { ThreadReady code.now forest.now heap.now t self.old }
        ensures reply { IsTrue result → (turn_of code.now t self.old heap.now forest.now.holding).reply ≡ Reply.Ran }
        ensures thread { IsTrue result → self.new ≡ (turn_of code.now t self.old heap.now forest.now.holding).thread }
        ensures objects { IsTrue result → heap.now ≡ (turn_of code.now t self.old heap.now forest.now.holding).objects }
        ensures holding { IsTrue result → forest.now.holding ≡ (turn_of code.now t self.old heap.now forest.now.holding).holding }
        ensures otherwise { result ≡ false → self.new ≡ self.old }
        ensures tried { result ≡ false → (a : AnyActivity) (i : AnyInstr) → self.old ≡ Running a → slice_get code.now.code a.top.pc ≡ Some i
            → IsTrue (is_local i) → (left_by code.now (place t a heap.now forest.now) i).fate ≢ Fate.Continues }
    {
        let Stage::Running(activity) = &mut self.stage else {
            return false;
        };
        try_local_instruction(code, heap, activity)
    }

    /// Steps thread t. The reply is `Ended` where it has ended before, and then nothing changes.
    pub fn step(
        &mut self,
        alloc: Global,
        code: &Code<'_>,
        heap: &mut Heap,
        forest: &mut Forest,
        asks: &mut Vec<(Node, Mode)>,
        t: u32,
    ) -> Result<Reply, AllocError>
        requires there { t < forest.old.threads }
        requires ready { ThreadReady code.now forest.old heap.old t self.old }
        ensures reply { IfOk result (λ reply. reply ≡ (turn_of code.now t self.old heap.old forest.old.holding).reply) }
        ensures thread { OnOk result (self.new ≡ (turn_of code.now t self.old heap.old forest.old.holding).thread) }
        ensures objects { OnOk result (heap.new ≡ (turn_of code.now t self.old heap.old forest.old.holding).objects) }
        ensures holding { OnOk result (forest.new.holding ≡ (turn_of code.now t self.old heap.old forest.old.holding).holding) }
        ensures classes { forest.new.classes ≡ forest.old.classes }
        ensures threads { forest.new.threads ≡ forest.old.threads }
        ensures memory { OnErr result (ThreadWantsMemory code.now heap.old self.old) }
        ensures err { OnErr result (self.new ≡ self.old) }
        ensures err_heap { OnErr result (heap.new ≡ heap.old) }
        ensures err_forest { OnErr result (forest.new ≡ forest.old) }
    {
        let Stage::Running(activity) = &mut self.stage else {
            return Ok(Reply::Ended);
        };
        let fate = advance(alloc, code, heap, forest, asks, t, activity)?;
        match fate {
            Fate::Ends(value) => self.stage = Stage::Done(value),
            Fate::Fails(fault) => self.stage = Stage::Failed(fault),
            Fate::Continues | Fate::Shows(_) | Fate::Waits => {}
        }
        give_back(forest, t, fate);
        Ok(reply(fate))
    }
}

/// Does the instruction that a running thread is at, if it is local and the thread continues after it: whether that is so.
#[inline(always)]
fn try_local_instruction(code: &Code<'_>, heap: &Heap, activity: &mut Activity) -> bool
    requires fits { IsSomeAnd (slice_get code.now.code activity.old.top.pc) (CanDo code.now activity.old.top) }
    requires room { activity.old.top.pc + 1 < 2 ^ 16 }
    requires awaited { IsAwaited activity.old.top.result activity.old.below }
    ensures done { IsTrue result → (t : ℕ) (forest : Held) → left_with Fate.Continues activity.new heap.now forest
        ≡ left_at code.now (place t activity.old heap.now forest)
        (slice_get code.now.code activity.old.top.pc) }
    ensures otherwise { result ≡ false → activity.new ≡ activity.old }
    ensures tried { result ≡ false → (i : AnyInstr) → slice_get code.now.code activity.old.top.pc ≡ Some i → IsTrue (is_local i)
        → (t : ℕ) (forest : Held) → (left_by code.now (place t activity.old heap.now forest) i).fate ≢ Fate.Continues }
{
    let instr = code.fetch(activity.pc());
    try_local(code, heap, activity, instr)
}

/// Does the instruction that a running thread is at.
fn advance(
    alloc: Global,
    code: &Code<'_>,
    heap: &mut Heap,
    forest: &mut Forest,
    asks: &mut Vec<(Node, Mode)>,
    t: u32,
    activity: &mut Activity,
) -> Result<Fate, AllocError>
    requires ready { IsReady code.now forest.old heap.old t activity.old }
    requires fits { IsSomeAnd (slice_get code.now.code activity.old.top.pc) (CanDo code.now activity.old.top) }
    ensures left { IfOk result (λ fate. left_with fate activity.new heap.new forest.new
        ≡ left_at code.now (place t activity.old heap.old forest.old)
        (slice_get code.now.code activity.old.top.pc)) }
    ensures classes { forest.new.classes ≡ forest.old.classes }
    ensures threads { forest.new.threads ≡ forest.old.threads }
    ensures memory { OnErr result (IsSomeAnd (slice_get code.now.code activity.old.top.pc) (WantsMemory code.now heap.old activity.old)) }
    ensures err { OnErr result (activity.new ≡ activity.old) }
    ensures err_heap { OnErr result (heap.new ≡ heap.old) }
    ensures err_forest { OnErr result (forest.new ≡ forest.old) }
{
    let instr = code.fetch(activity.pc());
    perform(alloc, code, heap, forest, asks, t, activity, instr)
}

/// The reply to this.
fn reply(fate: Fate) -> Reply
    ensures { result ≡ reply_of fate }
{
    match fate {
        Fate::Continues | Fate::Ends(_) => Reply::Ran,
        Fate::Shows(value) => Reply::Out(value),
        Fate::Fails(fault) => Reply::Fault(fault),
        Fate::Waits => Reply::Blocked,
    }
}

/// A thread that a fault stops, in a section or outside, gives all its locks back.
fn give_back(forest: &mut Forest, t: u32, fate: Fate)
    requires { t < forest.old.threads }
    ensures holding { forest.new.holding ≡ holding_after fate t forest.old.holding }
    ensures classes { forest.new.classes ≡ forest.old.classes }
    ensures threads { forest.new.threads ≡ forest.old.threads }
{
    if let Fate::Fails(_) = fate {
        forest.release(t);
    }
}
