//! How a thread enters sections, with their locks, and leaves them.
ghost use Rattle.std.specs.Prelude.{◌≡◌, ◌<◌, ◌+◌, ◌-◌, ◌^◌, IfOk, OnErr, All, length};
ghost use Rattle.asl_lock_forest.specs.Holding.{HoldsNothing, can_grant};
ghost use Rattle.asl_machine.specs.Access.{AreOfClasses};
ghost use Rattle.asl_machine.specs.Request.{LockOfClass, request_of, locks_of};
ghost use Rattle.asl_machine.specs.StepFunction.{release_fate, activity_moved, activity_left, holding_released, acquire_fate, holding_acquired};

use crate::activity::Activity;
use crate::fate::Fate;
use crate::fault::Fault;
use crate::heap::Heap;
use crate::program_code::Code;
use crate::request::request;
use asl_code::Lock;
use asl_lock_forest::{Forest, Node};
use asl_mode_lanes::Mode;
use std::alloc::AllocError;

/// The most sections that a thread is in at once.
const MAX_DEPTH: u8 = 255;

/// Enters a section with the locks of a list. The outermost asks for them, and waits where others hold them.
pub fn acquire(
    code: &Code<'_>,
    heap: &Heap,
    forest: &mut Forest,
    asks: &mut Vec<(Node, Mode)>,
    t: u32,
    activity: &mut Activity,
    list: u16,
) -> Result<Fate, AllocError>
    requires thread { t < forest.old.threads }
    requires nothing { activity.old.depth ≡ 0 → HoldsNothing forest.old.holding t }
    requires list { list < length code.now.lists }
    requires locks { All (LockOfClass forest.old.classes) (locks_of code.now list) }
    requires classes { AreOfClasses forest.old.classes heap.now }
    requires room { activity.old.top.pc + 1 < 2 ^ 16 }
    ensures fate { IfOk result (λ fate.
        let request = request_of heap.now activity.old.top.regs (locks_of code.now list) in
        fate ≡ acquire_fate activity.old.depth (can_grant forest.old.holding t request)) }
    ensures activity { IfOk result (λ fate. activity.new ≡ activity_moved fate (activity.old.depth + 1) activity.old) }
    ensures holding { IfOk result (λ _.
        let request = request_of heap.now activity.old.top.regs (locks_of code.now list) in
        forest.new.holding ≡ holding_acquired activity.old.depth
        (can_grant forest.old.holding t request) t request forest.old.holding) }
    ensures classes { forest.new.classes ≡ forest.old.classes }
    ensures threads { forest.new.threads ≡ forest.old.threads }
    ensures memory { OnErr result (activity.old.depth ≡ 0) }
    ensures asks { OnErr result (0 < length (request_of heap.now activity.old.top.regs (locks_of code.now list))) }
    ensures err { OnErr result (activity.new ≡ activity.old) }
    ensures err_forest { OnErr result (forest.new ≡ forest.old) }
{
    match activity.depth() {
        0 => enter(heap, forest, asks, t, activity, locks(code, list)),
        MAX_DEPTH => Ok(Fate::Fails(Fault::Deep)),
        _ => {
            activity.enter();
            Ok(Fate::Continues)
        }
    }
}

/// Leaves a section. The outermost gives all locks back. Nobody is woken: the machine has no queue, and who was blocked tries again when
/// it is stepped.
pub fn leave(forest: &mut Forest, t: u32, activity: &mut Activity) -> Fate
    requires thread { t < forest.old.threads }
    requires room { activity.old.top.pc + 1 < 2 ^ 16 }
    ensures fate { result ≡ release_fate activity.old.depth }
    ensures activity { activity.new ≡ activity_left activity.old }
    ensures holding { forest.new.holding ≡ holding_released activity.old.depth t forest.old.holding }
    ensures classes { forest.new.classes ≡ forest.old.classes }
    ensures threads { forest.new.threads ≡ forest.old.threads }
{
    match activity.depth() {
        0 => Fate::Fails(Fault::NoSection),
        1 => {
            forest.release(t);
            activity.leave_last();
            Fate::Continues
        }
        _ => {
            activity.leave();
            Fate::Continues
        }
    }
}

/// The locks of the list.
fn locks<'a>(code: &'a Code<'_>, list: u16) -> &'a [Lock]
    requires { list < length code.now.lists }
    ensures { result.now ≡ locks_of code.now list }
{
    code.program().lists()[usize::from(list)].as_slice()
}

/// Enters the outermost section, or waits.
fn enter(
    heap: &Heap,
    forest: &mut Forest,
    asks: &mut Vec<(Node, Mode)>,
    t: u32,
    activity: &mut Activity,
    locks: &[Lock],
) -> Result<Fate, AllocError>
    requires thread { t < forest.old.threads }
    requires outside { activity.old.depth ≡ 0 }
    requires nothing { HoldsNothing forest.old.holding t }
    requires locks { All (LockOfClass forest.old.classes) locks.now }
    requires classes { AreOfClasses forest.old.classes heap.now }
    requires room { activity.old.top.pc + 1 < 2 ^ 16 }
    ensures fate { IfOk result (λ fate. fate ≡ acquire_fate 0
        (can_grant forest.old.holding t (request_of heap.now activity.old.top.regs locks.now))) }
    ensures activity { IfOk result (λ fate. activity.new ≡ activity_moved fate 1 activity.old) }
    ensures holding { IfOk result (λ _. let request = request_of heap.now activity.old.top.regs locks.now in
        forest.new.holding ≡ holding_acquired 0
        (can_grant forest.old.holding t request) t request forest.old.holding) }
    ensures classes { forest.new.classes ≡ forest.old.classes }
    ensures threads { forest.new.threads ≡ forest.old.threads }
    ensures asks { OnErr result (0 < length (request_of heap.now activity.old.top.regs locks.now)) }
    ensures err { OnErr result (activity.new ≡ activity.old) }
    ensures err_forest { OnErr result (forest.new ≡ forest.old) }
{
    if request(asks, locks, activity.regs(), heap, forest, t)? {
        forest.grant(t, asks.as_slice())?;
        activity.enter();
        Ok(Fate::Continues)
    } else {
        Ok(Fate::Waits)
    }
}
