//! Writing the bytes of a journal.
ghost use Rattle.std.specs.Prelude.{◌<◌, ◌^◌, ℕ, [], ◌∷◌, IfOk, OnOk};
ghost use Rattle.asl_code.specs.Spelling.{IsValue};
ghost use Rattle.asl_code.specs.declared.value.Value.{Value};
ghost use Rattle.asl_machine.specs.declared.fault.Fault.{Fault};
ghost use Rattle.asl_machine.specs.declared.reply.Reply.{Reply};
ghost use Rattle.asl_loader.specs.SharedFields.{Writes};
ghost use Rattle.asl_loader.specs.Writing.{WritesEach};
ghost use Rattle.asl_journal.specs.declared.event.Event.{Event};
ghost use Rattle.asl_journal.specs.Bytes.{four, value_fields, fault_fields, reply_fields, event_fields, IsFault, IsReply, SpellsLog};

use crate::event::Event;
use crate::journal::Journal;
use crate::journal_fields::RAN;
use asl_code::{Value, put_value, version_for};
use asl_loader::shared_fields::{put_byte, put_effect, put_two};
use asl_machine::{Fault, Reply};
use std::alloc::{AllocError, Global};

/// The bytes of the journal, in the first version that has so many threads.
///
/// # Errors
///
/// An allocation failed.
pub fn put(alloc: Global, journal: &Journal) -> Result<Vec<u8>, AllocError>
    ensures { IfOk result (λ bytes. SpellsLog journal.now bytes.items) }
{
    let mut out = Vec::new(alloc);
    out.extend_from_slice(b"ASLJ")?;
    put_two(&mut out, version_for(journal.threads()) as u16)?;
    put_byte(&mut out, journal.threads() as u8)?;
    put_four(&mut out, journal.events().len() as u32)?;
    put_events(&mut out, journal.events())?;
    Ok(out)
}

/// A number in four bytes, the greatest first.
fn put_four(out: &mut Vec<u8>, number: u32) -> Result<(), AllocError>
    ensures { OnOk result (Writes ℕ (λ n. n < 2 ^ 32) (λ n. four n ∷ []) out.old.items out.new.items number) }
{
    out.extend_from_slice(&number.to_be_bytes())
}

/// The events, one after the other.
fn put_events(out: &mut Vec<u8>, events: &[Event]) -> Result<(), AllocError>
    ensures { OnOk result (WritesEach Event (λ event. IsReply event.reply) event_fields out.old.items out.new.items events.now) }
{
    for event in events {
        put_event(out, *event)?;
    }
    Ok(())
}

/// Most steps reply that they ran, so such an event is written at once.
fn put_event(out: &mut Vec<u8>, event: Event) -> Result<(), AllocError>
    ensures { OnOk result (Writes Event (λ event. IsReply event.reply) event_fields out.old.items out.new.items event) }
{
    if let Reply::Ran = event.reply {
        return out.extend_from_slice(&[event.thread, RAN]);
    }
    put_byte(out, event.thread)?;
    put_reply(out, event.reply)
}

/// The byte of the kind of reply, then what it hands out.
fn put_reply(out: &mut Vec<u8>, reply: Reply) -> Result<(), AllocError>
    ensures { OnOk result (Writes Reply IsReply reply_fields out.old.items out.new.items reply) }
{
    match reply {
        Reply::Ran => put_byte(out, 0),
        Reply::Out(value) => {
            put_byte(out, 1)?;
            put_one_value(out, value)
        }
        Reply::Blocked => put_byte(out, 2),
        Reply::Ended => put_byte(out, 3),
        Reply::Fault(fault) => {
            put_byte(out, 4)?;
            put_fault(out, fault)
        }
    }
}

/// The bytes of a value.
fn put_one_value(out: &mut Vec<u8>, value: Value) -> Result<(), AllocError>
    ensures { OnOk result (Writes Value IsValue value_fields out.old.items out.new.items value) }
{
    out.extend_from_slice(put_value(value).as_slice())
}

/// The byte of the fault, then the cell and the effect where it has one.
fn put_fault(out: &mut Vec<u8>, fault: Fault) -> Result<(), AllocError>
    ensures { OnOk result (Writes Fault IsFault fault_fields out.old.items out.new.items fault) }
{
    match fault {
        Fault::BadType => put_byte(out, 0),
        Fault::Null => put_byte(out, 1),
        Fault::Bounds => put_byte(out, 2),
        Fault::Unprotected(cell, effect) => {
            put_byte(out, 3)?;
            put_two(out, cell.object)?;
            put_byte(out, cell.offset)?;
            put_effect(out, effect)
        }
        Fault::Full => put_byte(out, 4),
        Fault::Stack => put_byte(out, 5),
        Fault::Open => put_byte(out, 6),
        Fault::Deep => put_byte(out, 7),
        Fault::NoSection => put_byte(out, 8),
    }
}
