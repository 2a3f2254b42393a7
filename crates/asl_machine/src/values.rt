//! What instructions compute of the values in registers.
ghost use Rattle.std.specs.Prelude.{◌≡◌, ◌<◌, ℤ, length, Err, IfOk, IfErr};
ghost use Rattle.asl_code.specs.declared.value.Value.TheVariants.{Int};
ghost use Rattle.asl_machine.specs.Step.{is_zero};
ghost use Rattle.asl_machine.specs.StepFunction.{register_of, address_moved, computed, added, subtracted, compared, truth, same_value};

use crate::activity::Activity;
use crate::fault::Fault;
use crate::heap::Heap;
use crate::packed_value::PackedValue;
use asl_code::{Cell, Value};
use asl_expression::go_on;

/// The integers in two registers.
///
/// # Errors
///
/// `BadType` where one of them holds no integer.
#[inline(always)]
fn integers(activity: &Activity, left: u8, right: u8) -> Result<(i32, i32), Fault>
    requires left_there { left < length activity.now.top.regs }
    requires right_there { right < length activity.now.top.regs }
    ensures both { IfOk result (λ both.
        (register_of activity.now.top left ≡ Int both.0) × (register_of activity.now.top right ≡ Int both.1)) }
    ensures refused { IfErr result (λ fault. (operation : ℤ → ℤ → Value) →
        computed operation (register_of activity.now.top left) (register_of activity.now.top right) ≡ Err fault) }
{
    match (
        activity.read(left).integer(),
        activity.read(right).integer(),
    ) {
        (Some(x), Some(y)) => Ok((x, y)),
        _ => Err(Fault::BadType),
    }
}

/// The sum of the integers in two registers, which wraps at 32 bits.
pub fn sum(activity: &Activity, left: u8, right: u8) -> Result<PackedValue, Fault>
    requires left_there { left < length activity.now.top.regs }
    requires right_there { right < length activity.now.top.regs }
    ensures { result ≡ computed added (register_of activity.now.top left) (register_of activity.now.top right) }
{
    let (x, y) = integers(activity, left, right)?;
    Ok(PackedValue::of(Value::Int(x.wrapping_add(y))))
}

/// The difference of the integers in two registers, which wraps at 32 bits.
pub fn difference(activity: &Activity, left: u8, right: u8) -> Result<PackedValue, Fault>
    requires left_there { left < length activity.now.top.regs }
    requires right_there { right < length activity.now.top.regs }
    ensures { result ≡ computed subtracted (register_of activity.now.top left) (register_of activity.now.top right) }
{
    let (x, y) = integers(activity, left, right)?;
    Ok(PackedValue::of(Value::Int(x.wrapping_sub(y))))
}

/// Whether the integer in one register is below that in another: 1 or 0.
pub fn comparison(activity: &Activity, left: u8, right: u8) -> Result<PackedValue, Fault>
    requires left_there { left < length activity.now.top.regs }
    requires right_there { right < length activity.now.top.regs }
    ensures { result ≡ computed compared (register_of activity.now.top left) (register_of activity.now.top right) }
{
    let (x, y) = integers(activity, left, right)?;
    Ok(integer_for(x < y))
}

/// Whether two registers have the same value: 1 or 0.
#[inline(always)]
pub fn equality(activity: &Activity, left: u8, right: u8) -> PackedValue
    requires left_there { left < length activity.now.top.regs }
    requires right_there { right < length activity.now.top.regs }
    ensures { result ≡ truth (same_value (register_of activity.now.top left) (register_of activity.now.top right)) }
{
    integer_for(activity.read(left).is_same(activity.read(right)))
}

/// 1 where the test holds, else 0.
#[inline(always)]
fn integer_for(holds: bool) -> PackedValue
    ensures { result ≡ truth holds }
{
    PackedValue::of(Value::Int(i32::from(holds)))
}

/// Whether a jump that asks for zero goes to its target.
#[inline(always)]
pub fn is_zero(value: PackedValue) -> bool
    ensures { result ≡ is_zero value }
{
    match value.value() {
        Value::Int(x) => x == 0,
        Value::Null => true,
        Value::Addr(_, _) => false,
    }
}

/// The address so many cells on, in the same object.
#[inline(always)]
pub fn moved_on(heap: &Heap, places: u8, value: PackedValue) -> Result<PackedValue, Fault>
    ensures { result ≡ address_moved heap.now places value }
{
    match value.value() {
        Value::Addr(object, offset) => match go_on(heap, places, Cell { object, offset }) {
            Some(cell) => Ok(PackedValue::of(Value::Addr(cell.object, cell.offset))),
            None => Err(Fault::Bounds),
        },
        Value::Null => Err(Fault::Null),
        Value::Int(_) => Err(Fault::BadType),
    }
}
