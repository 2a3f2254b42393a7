//! Local instructions: they change the frames of their thread alone, and want no memory. Most steps of a run are at one.
ghost use Rattle.std.specs.Prelude.{◌≡◌, ◌≢◌, ◌<◌, ◌+◌, ◌^◌, ℕ, IsTrue, false, length};
ghost use Rattle.asl_lock_forest.specs.Held.{Held};
ghost use Rattle.asl_machine.specs.declared.fate.Fate.TheVariants.{Continues};
ghost use Rattle.asl_machine.specs.Calls.{IsAwaited};
ghost use Rattle.asl_machine.specs.Ready.{CanDo, is_local};
ghost use Rattle.asl_machine.specs.StepFunction.{place, left_with, left_by, fate_of, activity_set, register_of, address_moved};

use crate::activity::Activity;
use crate::fate::Fate;
use crate::fault::Fault;
use crate::heap::Heap;
use crate::packed_value::PackedValue;
use crate::program_code::Code;
use crate::thread_control::{give, jump, jump_if_zero};
use crate::values::{comparison, difference, equality, moved_on, sum};
use asl_code::{Instr, Value};

/// Does the instruction if it is local and the thread continues after it: whether that is so. This is all that most steps do,
/// so it is tried first, by code that keeps nothing aside.
#[inline(always)]
pub fn try_local(code: &Code<'_>, heap: &Heap, activity: &mut Activity, instr: Instr) -> bool
    requires fits { CanDo code.now activity.old.top instr }
    requires room { activity.old.top.pc + 1 < 2 ^ 16 }
    requires awaited { IsAwaited activity.old.top.result activity.old.below }
    ensures done { IsTrue result → (t : ℕ) (forest : Held) → left_with Continues activity.new heap.now forest
        ≡ left_by code.now (place t activity.old heap.now forest) instr }
    ensures otherwise { result ≡ false → activity.new ≡ activity.old }
    ensures tried { result ≡ false → IsTrue (is_local instr) → (t : ℕ) (forest : Held)
        → (left_by code.now (place t activity.old heap.now forest) instr).fate ≢ Continues }
{
    matches!(perform_local(code, heap, activity, instr), Fate::Continues)
}

/// Does a local instruction. At any other nothing is done, and the thread does not continue.
#[inline(always)]
pub fn perform_local(code: &Code<'_>, heap: &Heap, activity: &mut Activity, instr: Instr) -> Fate
    requires fits { CanDo code.now activity.old.top instr }
    requires room { activity.old.top.pc + 1 < 2 ^ 16 }
    requires awaited { IsAwaited activity.old.top.result activity.old.below }
    ensures left { IsTrue (is_local instr) → (t : ℕ) (forest : Held) → left_with result activity.new heap.now forest
        ≡ left_by code.now (place t activity.old heap.now forest) instr }
    ensures waits { is_local instr ≡ false → result ≡ Fate.Waits }
    ensures unchanged { result ≢ Continues → activity.new ≡ activity.old }
{
    match instr {
        Instr::SetInt { to, value } => set(activity, to, Ok(PackedValue::of(Value::Int(value)))),
        Instr::SetNull { to } => set(activity, to, Ok(PackedValue::of(Value::Null))),
        Instr::Move { to, from } => set(activity, to, Ok(activity.read(from))),
        Instr::Add { to, left, right } => set(activity, to, sum(activity, left, right)),
        Instr::Subtract { to, left, right } => set(activity, to, difference(activity, left, right)),
        Instr::LessThan { to, left, right } => set(activity, to, comparison(activity, left, right)),
        Instr::Equals { to, left, right } => set(activity, to, Ok(equality(activity, left, right))),
        Instr::GlobalAddress { to, global } => set(
            activity,
            to,
            Ok(PackedValue::of(Value::Addr(global, 0))),
        ),
        Instr::FieldAddress { to, from, offset } => move_on(heap, activity, to, from, offset),
        Instr::Jump { target } => jump(activity, target),
        Instr::JumpIfZero { test, target } => jump_if_zero(activity, test, target),
        Instr::Return { from } => give(activity, activity.read(from)),
        _ => Fate::Waits,
    }
}

/// Puts the address so many cells on from that in another register, in the same object, into the register, or fails.
#[inline(always)]
fn move_on(heap: &Heap, activity: &mut Activity, to: u8, from: u8, places: u8) -> Fate
    requires there { to < length activity.old.top.regs }
    requires address_there { from < length activity.old.top.regs }
    requires room { activity.old.top.pc + 1 < 2 ^ 16 }
    ensures fate { result ≡ fate_of (address_moved heap.now places (register_of activity.old.top from)) }
    ensures activity { activity.new ≡ activity_set activity.old to
        (address_moved heap.now places (register_of activity.old.top from)) }
{
    let address = moved_on(heap, places, activity.read(from));
    set(activity, to, address)
}

/// Puts the value into the register, or fails.
#[inline(always)]
pub fn set(activity: &mut Activity, to: u8, value: Result<PackedValue, Fault>) -> Fate
    requires there { to < length activity.old.top.regs }
    requires room { activity.old.top.pc + 1 < 2 ^ 16 }
    ensures fate { result ≡ fate_of value }
    ensures activity { activity.new ≡ activity_set activity.old to value }
{
    match value {
        Ok(value) => {
            activity.advance_with(to, value);
            Fate::Continues
        }
        Err(fault) => Fate::Fails(fault),
    }
}
