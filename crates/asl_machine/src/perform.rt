//! What one instruction does for the thread that is at it.
ghost use Rattle.std.specs.Prelude.{◌≡◌, IfOk, OnErr};
ghost use Rattle.asl_machine.specs.Ready.{IsReady, CanDo};
ghost use Rattle.asl_machine.specs.WellFormed.{WantsMemory};
ghost use Rattle.asl_machine.specs.StepFunction.{place, left_with, left_by};

use crate::activity::Activity;
use crate::fate::Fate;
use crate::frame_only::{perform_local, set};
use crate::heap::Heap;
use crate::memory::{load, make, store};
use crate::program_code::Code;
use crate::sections::{acquire, leave};
use crate::thread_control::{call, show};
use asl_code::Instr;
use asl_lock_forest::{Forest, Node};
use asl_mode_lanes::Mode;
use std::alloc::{AllocError, Global};

/// Does the instruction, at which the thread is.
pub fn perform(
    alloc: Global,
    code: &Code<'_>,
    heap: &mut Heap,
    forest: &mut Forest,
    asks: &mut Vec<(Node, Mode)>,
    t: u32,
    activity: &mut Activity,
    instr: Instr,
) -> Result<Fate, AllocError>
    requires ready { IsReady code.now forest.old heap.old t activity.old }
    requires fits { CanDo code.now activity.old.top instr }
    ensures left { IfOk result (λ fate. left_with fate activity.new heap.new forest.new
        ≡ left_by code.now (place t activity.old heap.old forest.old) instr) }
    ensures classes { forest.new.classes ≡ forest.old.classes }
    ensures threads { forest.new.threads ≡ forest.old.threads }
    ensures memory { OnErr result (WantsMemory code.now heap.old activity.old instr) }
    ensures err { OnErr result (activity.new ≡ activity.old) }
    ensures err_heap { OnErr result (heap.new ≡ heap.old) }
    ensures err_forest { OnErr result (forest.new ≡ forest.old) }
{
    Ok(match instr {
        Instr::Load { to, address } => set(activity, to, load(heap, forest, t, activity, address)),
        Instr::Store { address, from } => store(heap, forest, t, activity, address, from),
        Instr::New { to, cells, class } => {
            let version = code.program().version();
            make(alloc, version, heap, activity, to, cells, class)?
        }
        Instr::Call {
            to,
            first,
            function,
        } => call(alloc, code, activity, to, first, function)?,
        Instr::Output { from } => show(activity, activity.read(from).value()),
        Instr::Acquire { list } => acquire(code, heap, forest, asks, t, activity, list)?,
        Instr::Release => leave(forest, t, activity),
        _ => perform_local(code, heap, activity, instr),
    })
}
