//! Replies as text.
ghost use Rattle.std.specs.Prelude.{◌≡◌, ◌++◌, OnOk, codes, string_bytes};
ghost use Rattle.std.specs.Fmt.{decimal};
ghost use Rattle.asl_show.specs.Replies.{address_text, value_text, effect_text, access_text, fault_text, reply_text, step_line};

use asl_code::{Cell, Effect, Value};
use asl_machine::{Fault, Reply};
use itoa::Buffer;
use std::alloc::AllocError;

/// Appends an address: the object, a point, the offset.
pub fn push_address(text: &mut String, object: u16, offset: u8) -> Result<(), AllocError>
    ensures { OnOk result (string_bytes text.new ≡ string_bytes text.old ++ address_text object offset) }
{
    write!(text, "{object}.{offset}")
}

/// Appends a value: its kind, and the number or the address after it.
pub fn push_value(text: &mut String, value: Value) -> Result<(), AllocError>
    ensures { OnOk result (string_bytes text.new ≡ string_bytes text.old ++ value_text value) }
{
    match value {
        Value::Int(number) => write!(text, "int {number}"),
        Value::Null => text.push_str("null"),
        Value::Addr(object, offset) => {
            text.push_str("addr ")?;
            push_address(text, object, offset)
        }
    }
}

/// Appends an effect.
fn push_effect(text: &mut String, effect: Effect) -> Result<(), AllocError>
    ensures { OnOk result (string_bytes text.new ≡ string_bytes text.old ++ effect_text effect) }
{
    match effect {
        Effect::Read => text.push_str("read"),
        Effect::Write => text.push_str("write"),
    }
}

/// Appends a cell and the effect of an access to it.
fn push_access(text: &mut String, cell: Cell, effect: Effect) -> Result<(), AllocError>
    ensures { OnOk result (string_bytes text.new ≡ string_bytes text.old ++ access_text cell effect) }
{
    push_address(text, cell.object, cell.offset)?;
    text.push_str(" ")?;
    push_effect(text, effect)
}

/// Appends a fault: its name, and what was accessed without a lock.
pub fn push_fault(text: &mut String, fault: Fault) -> Result<(), AllocError>
    ensures { OnOk result (string_bytes text.new ≡ string_bytes text.old ++ fault_text fault) }
{
    match fault {
        Fault::BadType => text.push_str("Type"),
        Fault::Null => text.push_str("Null"),
        Fault::Bounds => text.push_str("Bounds"),
        Fault::Unprotected(cell, effect) => {
            text.push_str("Unprotected ")?;
            push_access(text, cell, effect)
        }
        Fault::Full => text.push_str("Full"),
        Fault::Stack => text.push_str("Stack"),
        Fault::Open => text.push_str("Open"),
        Fault::Deep => text.push_str("Deep"),
        Fault::NoSection => text.push_str("NoSection"),
    }
}

/// Adds a reply.
pub fn push_reply(text: &mut String, reply: Reply) -> Result<(), AllocError>
    ensures { OnOk result (string_bytes text.new ≡ string_bytes text.old ++ reply_text reply) }
{
    match reply {
        Reply::Ran => text.push_str("ran"),
        Reply::Out(value) => {
            text.push_str("out ")?;
            push_value(text, value)
        }
        Reply::Blocked => text.push_str("blocked"),
        Reply::Ended => text.push_str("ended"),
        Reply::Fault(fault) => {
            text.push_str("fault ")?;
            push_fault(text, fault)
        }
    }
}

/// Adds the line of a step: its number, its thread and the reply.
pub fn push_line(
    text: &mut String,
    number: usize,
    thread: u8,
    reply: Reply,
) -> Result<(), AllocError>
    ensures { OnOk result (string_bytes text.new ≡ string_bytes text.old ++ step_line number thread reply) }
{
    push_numbers(text, number, thread)?;
    push_reply(text, reply)?;
    text.push_str("\n")
}

/// Adds the number of a step and its thread, with a space after each.
pub fn push_numbers(text: &mut String, number: usize, thread: u8) -> Result<(), AllocError>
    ensures { OnOk result (string_bytes text.new ≡ string_bytes text.old ++ decimal number ++ codes " " ++ decimal thread ++ codes " ") }
{
    let mut digits = Buffer::new();
    text.push_str(digits.format(number))?;
    text.push_str(" ")?;
    text.push_str(digits.format(thread))?;
    text.push_str(" ")
}
