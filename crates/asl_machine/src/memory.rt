//! What instructions do to the cells of objects: they read and write those that are covered for the thread, and make new
//! ones.
ghost use Rattle.std.specs.Prelude.{◌≡◌, ◌<◌, ◌≤◌, ◌+◌, ◌++◌, ◌∷◌, [], ◌^◌, IfOk, OnOk, OnErr, IsSome, All, length};
ghost use Rattle.asl_code.specs.declared.value.Effect.TheVariants.{Read, Write};
ghost use Rattle.asl_machine.specs.Access.{is_protected, Points, AllPoint, AreOfClasses};
ghost use Rattle.asl_machine.specs.State.{cell_at, new_object};
ghost use Rattle.asl_machine.specs.Step.{with_fresh};
ghost use Rattle.asl_machine.specs.Cover.{cover};
ghost use Rattle.asl_machine.specs.StepFunction.{place, accessed_by, accessed, allowed_cell, register_of, fate_of, loaded, activity_stored, objects_stored, make_fate, activity_made, made_objects};

use crate::activity::Activity;
use crate::fate::Fate;
use crate::fault::Fault;
use crate::heap::Heap;
use crate::packed_value::PackedValue;
use asl_code::{Cell, Effect, Value, has_fresh};
use asl_lock_forest::Forest;
use std::alloc::{AllocError, Global};

/// The most objects of a machine: their numbers have 16 bits.
const MAX_OBJECTS: usize = 65_536;

/// The value of the cell that the register holds the address of, where the thread may read it.
pub fn load(
    heap: &Heap,
    forest: &Forest,
    t: u32,
    activity: &Activity,
    register: u8,
) -> Result<PackedValue, Fault>
    requires there { register < length activity.now.top.regs }
    requires thread { t < forest.now.threads }
    requires classes { AreOfClasses forest.now.classes heap.now }
    requires points { AllPoint heap.now activity.now.top.regs }
    ensures { result ≡ loaded heap.now (accessed_by (place t activity.now heap.now forest.now) Read register) }
{
    Ok(heap.read(target(heap, forest, t, activity, Effect::Read, register)?))
}

/// Puts the value of one register into the cell that another holds the address of, where the thread may write it, or
/// fails.
pub fn store(
    heap: &mut Heap,
    forest: &Forest,
    t: u32,
    activity: &mut Activity,
    address: u8,
    from: u8,
) -> Fate
    requires address_there { address < length activity.old.top.regs }
    requires value_there { from < length activity.old.top.regs }
    requires thread { t < forest.now.threads }
    requires classes { AreOfClasses forest.now.classes heap.old }
    requires points { AllPoint heap.old activity.old.top.regs }
    requires room { activity.old.top.pc + 1 < 2 ^ 16 }
    ensures fate { result ≡ fate_of (accessed_by (place t activity.old heap.old forest.now) Write address) }
    ensures activity { activity.new ≡ activity_stored activity.old
        (accessed_by (place t activity.old heap.old forest.now) Write address) }
    ensures objects { heap.new ≡ objects_stored heap.old (register_of activity.old.top from)
        (accessed_by (place t activity.old heap.old forest.now) Write address) }
{
    match target(heap, forest, t, activity, Effect::Write, address) {
        Ok(cell) => {
            heap.write(cell, activity.read(from));
            activity.advance();
            Fate::Continues
        }
        Err(fault) => Fate::Fails(fault),
    }
}

/// Makes an object by an image of this version and puts its address into the register, or fails where there are as many
/// objects as there may be.
pub fn make(
    alloc: Global,
    version: u32,
    heap: &mut Heap,
    activity: &mut Activity,
    to: u8,
    cells: u8,
    class: u16,
) -> Result<Fate, AllocError>
    requires few { length heap.old ≤ 65536 }
    requires fresh { All (λ one. one < length heap.old) activity.old.fresh }
    requires there { to < length activity.old.top.regs }
    requires room { activity.old.top.pc + 1 < 2 ^ 16 }
    ensures fate { IfOk result (λ fate. fate ≡ make_fate heap.old) }
    ensures activity { OnOk result (activity.new ≡ activity_made version heap.old activity.old to) }
    ensures objects { OnOk result (heap.new ≡ made_objects heap.old cells class) }
    ensures memory { OnErr result (length heap.old < 65536) }
    ensures err { OnErr result (activity.new ≡ activity.old) }
    ensures err_heap { OnErr result (heap.new ≡ heap.old) }
{
    if heap.len() == MAX_OBJECTS {
        return Ok(Fate::Fails(Fault::Full));
    }
    let number = if has_fresh(version) && activity.depth() > 0 {
        make_fresh(alloc, heap, activity, cells, class)?
    } else {
        heap.make(alloc, cells, class)?
    };
    activity.advance_with(to, PackedValue::of(Value::Addr(number, 0)));
    Ok(Fate::Continues)
}

/// Makes an object that is fresh for the thread, and answers its number.
fn make_fresh(
    alloc: Global,
    heap: &mut Heap,
    activity: &mut Activity,
    cells: u8,
    class: u16,
) -> Result<u16, AllocError>
    requires room { length heap.old < 65536 }
    requires fresh { All (λ one. one < length heap.old) activity.old.fresh }
    ensures number { IfOk result (λ number. number ≡ length heap.old) }
    ensures activity { OnOk result (activity.new ≡ with_fresh (activity.old.fresh ++ length heap.old ∷ []) activity.old) }
    ensures objects { OnOk result (heap.new ≡ heap.old ++ new_object class cells ∷ []) }
    ensures err { OnErr result (activity.new ≡ activity.old) }
    ensures err_heap { OnErr result (heap.new ≡ heap.old) }
{
    activity.keep_fresh(heap.len() as u32)?;
    let made = heap.make(alloc, cells, class);
    if made.is_err() {
        activity.drop_last();
    }
    made
}

/// The cell that the register holds the address of, where the thread may access it so.
#[inline(always)]
fn target(
    heap: &Heap,
    forest: &Forest,
    t: u32,
    activity: &Activity,
    effect: Effect,
    register: u8,
) -> Result<Cell, Fault>
    requires there { register < length activity.now.top.regs }
    requires thread { t < forest.now.threads }
    requires classes { AreOfClasses forest.now.classes heap.now }
    requires points { AllPoint heap.now activity.now.top.regs }
    ensures value { result ≡ accessed_by (place t activity.now heap.now forest.now) effect register }
    ensures there { IfOk result (λ cell. IsSome (cell_at heap.now cell)) }
{
    access(heap, forest, t, activity, effect, activity.read(register))
}

/// The cell that the value is the address of, where thread t may access it so.
#[inline(always)]
fn access(
    heap: &Heap,
    forest: &Forest,
    t: u32,
    activity: &Activity,
    effect: Effect,
    value: PackedValue,
) -> Result<Cell, Fault>
    requires thread { t < forest.now.threads }
    requires classes { AreOfClasses forest.now.classes heap.now }
    requires points { Points heap.now value }
    ensures value { result ≡ accessed (cover forest.now.holding activity.now.fresh) heap.now t activity.now.depth effect value }
    ensures there { IfOk result (λ cell. IsSome (cell_at heap.now cell)) }
{
    match value.value() {
        Value::Addr(object, offset) => allow(
            heap,
            forest,
            t,
            activity,
            effect,
            Cell { object, offset },
        ),
        Value::Null => Err(Fault::Null),
        Value::Int(_) => Err(Fault::BadType),
    }
}

/// The cell, where the access is allowed.
#[inline(always)]
fn allow(
    heap: &Heap,
    forest: &Forest,
    t: u32,
    activity: &Activity,
    effect: Effect,
    cell: Cell,
) -> Result<Cell, Fault>
    requires thread { t < forest.now.threads }
    requires classes { AreOfClasses forest.now.classes heap.now }
    ensures { result ≡ allowed_cell (is_protected (cover forest.now.holding activity.now.fresh) heap.now t activity.now.depth effect cell) effect cell }
{
    if is_allowed(heap, forest, t, activity, effect, cell) {
        Ok(cell)
    } else {
        Err(Fault::Unprotected(cell, effect))
    }
}

/// Whether the thread is in a section, and the cell is covered for it: its object is fresh for the thread, or the
/// thread's locks cover it for the effect.
#[inline(always)]
fn is_allowed(
    heap: &Heap,
    forest: &Forest,
    t: u32,
    activity: &Activity,
    effect: Effect,
    cell: Cell,
) -> bool
    requires thread { t < forest.now.threads }
    requires classes { AreOfClasses forest.now.classes heap.now }
    ensures { result ≡ is_protected (cover forest.now.holding activity.now.fresh) heap.now t activity.now.depth effect cell }
{
    if activity.depth() == 0 {
        return false;
    }
    match heap.class(usize::from(cell.object)) {
        Some(class) => {
            activity.is_fresh(u32::from(cell.object)) || forest.covers(t, cell, class, effect)
        }
        None => false,
    }
}
