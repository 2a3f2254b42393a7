//! The bytes of a value, written and read back.

ghost use Rattle.std.specs.Prelude.{◌≡◌, ◌↔◌, ℕ, List, ◌++◌, length, IfOk};
ghost use Rattle.asl_code.specs.declared.value.Value.{Value};
ghost use Rattle.asl_code.specs.Spelling.{SpellsValue, TakesValue, BeginsValue, ValueOfSpellingIsOne, SpellingOfValueIsOne};
ghost use Rattle.asl_code.specs.ReadingValue.{value_at, int_at, address_at};

use crate::value::Value;
use arrayvec::ArrayVec;
use thiserror::Error;

/// Why bytes do not begin with a value.
#[derive(Clone, Copy, Debug, PartialEq, Eq, Error)]
pub enum ValueFault {
    /// The bytes end within a value.
    #[error("Short")]
    Short,
    /// The bytes begin no value.
    #[error("Bad")]
    Bad,
}

/// A law of the definitions: a value and its bytes belong to no other, and no value's bytes begin another's.
pub fn value_and_bytes_are_one()
    ensures value { ValueOfSpellingIsOne }
    ensures bytes { SpellingOfValueIsOne }
{}

/// The bytes of a value.
pub fn put_value(value: Value) -> ArrayVec<u8, 5>
    ensures { SpellsValue value result.items }
{
    let mut bytes = ArrayVec::new();
    match value {
        Value::Int(n) => {
            let [n0, n1, n2, n3] = n.to_be_bytes();
            bytes.push(0);
            bytes.push(n0);
            bytes.push(n1);
            bytes.push(n2);
            bytes.push(n3);
        }
        Value::Null => bytes.push(1),
        Value::Addr(object, offset) => {
            let [object0, object1] = object.to_be_bytes();
            bytes.push(2);
            bytes.push(object0);
            bytes.push(object1);
            bytes.push(offset);
        }
    }
    bytes
}

/// The value whose bytes begin the given ones, and how many bytes it has.
///
/// # Errors
///
/// `Short` where the bytes end before the value does; `Bad` where no value begins so.
pub fn get_value(bytes: &[u8]) -> Result<(Value, usize), ValueFault>
    ensures found { IfOk result (λ found. TakesValue bytes.now found.0 found.1) }
    ensures only { (value : Value) → (text rest : List ℕ) → SpellsValue value text
        → bytes.now ≡ text ++ rest → result ≡ Ok (value, length text) }
    ensures short { (result ≡ Err ValueFault.Short) ↔ BeginsValue bytes.now }
{
    value_at(bytes)
}

/// The value at the front of the bytes, and how many it takes.
fn value_at(bytes: &[u8]) -> Result<(Value, usize), ValueFault>
    ensures { result ≡ value_at bytes.now }
{
    match bytes {
        [] => Err(ValueFault::Short),
        [0, rest @ ..] => int_at(rest),
        [1, ..] => Ok((Value::Null, 1)),
        [2, rest @ ..] => address_at(rest),
        [_, ..] => Err(ValueFault::Bad),
    }
}

/// The integer after its kind.
fn int_at(bytes: &[u8]) -> Result<(Value, usize), ValueFault>
    ensures { result ≡ int_at bytes.now }
{
    if bytes.len() < 4 {
        return Err(ValueFault::Short);
    }
    let n = i32::from_be_bytes([bytes[0], bytes[1], bytes[2], bytes[3]]);
    Ok((Value::Int(n), 5))
}

/// The cell after its kind.
fn address_at(bytes: &[u8]) -> Result<(Value, usize), ValueFault>
    ensures { result ≡ address_at bytes.now }
{
    if bytes.len() < 3 {
        return Err(ValueFault::Short);
    }
    let object = u16::from_be_bytes([bytes[0], bytes[1]]);
    Ok((Value::Addr(object, bytes[2]), 4))
}
