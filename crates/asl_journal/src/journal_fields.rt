//! Reading a journal from front to back. Where memory is refused the reading continues and keeps nothing, so that running out of memory
//! hides nothing that is wrong with the bytes.
ghost use Rattle.std.specs.Option.{option_map};
ghost use Rattle.std.specs.Prelude.{List, [], ◌∷◌, ◌++◌};
ghost use Rattle.asl_loader.specs.SharedFields.{Gives, IsKept};
ghost use Rattle.asl_loader.specs.ImageFields.{Keeps, items_at};
ghost use Rattle.asl_journal.specs.declared.event.Event.{Event};
ghost use Rattle.asl_journal.specs.JournalFields.{threads_at, count_at, value_at, unprotected_at, fault_at, reply_at, event_at, log_at};

use crate::event::Event;
use crate::journal_limits::{MAX_EVENTS, MAX_THREADS};
use asl_code::{Cell, Items, Value, ValueFault, get_value, version_for};
use asl_loader::Stop;
use asl_loader::shared_fields::{
    bad, below_at, byte_at, effect_at, four_at, letters_at, two_at, version_at,
};
use asl_machine::{Fault, Reply};
use std::alloc::Global;

/// The four letters at the front of a journal, as a number.
const LETTERS: u32 = 0x4153_4c4a;

/// The number of the reply that the step ran.
pub(crate) const RAN: u8 = 0;

/// How many threads: as many as journals of files of this version have.
#[tactic(auto, unfolding(crate::specs::JournalFields::threads_at))]
fn threads_at(version: u16, bytes: &[u8]) -> Result<(u32, &[u8]), Stop>
    ensures { Gives (λ x. (x.0, x.1.now)) result (threads_at version bytes.now) }
{
    let (byte, rest) = byte_at(bytes)?;
    let threads = u32::from(byte);
    if 0 < threads && threads <= MAX_THREADS && version_for(threads) == u32::from(version) {
        Ok((threads, rest))
    } else {
        Err(bad(bytes))
    }
}

/// How many events.
#[tactic(auto, unfolding(crate::specs::JournalFields::count_at))]
fn count_at(bytes: &[u8]) -> Result<(usize, &[u8]), Stop>
    ensures { Gives (λ x. (x.0, x.1.now)) result (count_at bytes.now) }
{
    let (number, rest) = four_at(bytes)?;
    let count = number as usize;
    if count <= MAX_EVENTS {
        Ok((count, rest))
    } else {
        Err(bad(bytes))
    }
}

/// The value at the front of the bytes, and the bytes behind it.
fn value_at(bytes: &[u8]) -> Result<(Value, &[u8]), Stop>
    ensures { Gives (λ x. (x.0, x.1.now)) result (value_at bytes.now) }
{
    match get_value(bytes) {
        Ok((value, count)) => Ok((value, &bytes[count..])),
        Err(ValueFault::Short) => Err(Stop::Short),
        Err(ValueFault::Bad) => Err(bad(bytes)),
    }
}

/// The cell and the effect of an unprotected access.
#[tactic(auto, unfolding(crate::specs::JournalFields::unprotected_at))]
fn unprotected_at(bytes: &[u8]) -> Result<(Fault, &[u8]), Stop>
    ensures { Gives (λ x. (x.0, x.1.now)) result (unprotected_at bytes.now) }
{
    let (object, rest) = two_at(bytes)?;
    let (offset, rest) = byte_at(rest)?;
    let (effect, rest) = effect_at(rest)?;
    Ok((Fault::Unprotected(Cell { object, offset }, effect), rest))
}

#[tactic(auto, unfolding(crate::specs::JournalFields::fault_at, crate::specs::JournalFields::fault_of))]
fn fault_at(bytes: &[u8]) -> Result<(Fault, &[u8]), Stop>
    ensures { Gives (λ x. (x.0, x.1.now)) result (fault_at bytes.now) }
{
    let (number, rest) = below_at(9, bytes)?;
    match number {
        0 => Ok((Fault::BadType, rest)),
        1 => Ok((Fault::Null, rest)),
        2 => Ok((Fault::Bounds, rest)),
        3 => unprotected_at(rest),
        4 => Ok((Fault::Full, rest)),
        5 => Ok((Fault::Stack, rest)),
        6 => Ok((Fault::Open, rest)),
        7 => Ok((Fault::Deep, rest)),
        _ => Ok((Fault::NoSection, rest)),
    }
}

#[tactic(auto, unfolding(crate::specs::JournalFields::reply_at, crate::specs::JournalFields::reply_of))]
fn reply_at(bytes: &[u8]) -> Result<(Reply, &[u8]), Stop>
    ensures { Gives (λ x. (x.0, x.1.now)) result (reply_at bytes.now) }
{
    let (number, rest) = below_at(5, bytes)?;
    match number {
        0 => Ok((Reply::Ran, rest)),
        1 => {
            let (value, rest) = value_at(rest)?;
            Ok((Reply::Out(value), rest))
        }
        2 => Ok((Reply::Blocked, rest)),
        3 => Ok((Reply::Ended, rest)),
        _ => {
            let (fault, rest) = fault_at(rest)?;
            Ok((Reply::Fault(fault), rest))
        }
    }
}

/// An event. Most steps reply that they ran, so this is tried first.
fn event_at(threads: u32, bytes: &[u8]) -> Result<(Event, &[u8]), Stop>
    ensures { Gives (λ x. (x.0, x.1.now)) result (event_at threads bytes.now) }
{
    if let [thread, reply, rest @ ..] = bytes
        && *reply == RAN
        && u32::from(*thread) < threads
    {
        let event = Event {
            thread: *thread,
            reply: Reply::Ran,
        };
        return Ok((event, rest));
    }
    any_event_at(threads, bytes)
}

#[tactic(auto, unfolding(crate::specs::JournalFields::event_at))]
fn any_event_at(threads: u32, bytes: &[u8]) -> Result<(Event, &[u8]), Stop>
    ensures { Gives (λ x. (x.0, x.1.now)) result (event_at threads bytes.now) }
{
    let (thread, rest) = below_at(threads, bytes)?;
    let (reply, rest) = reply_at(rest)?;
    Ok((Event { thread, reply }, rest))
}

/// So many events at the front of the bytes, or none where memory was refused, and the bytes behind them.
fn events_of(
    alloc: Global,
    threads: u32,
    count: usize,
    bytes: &[u8],
) -> Result<(Option<Items<Event>>, &[u8]), Stop>
    ensures { Keeps (λ x. x.0) (λ x. x.1.now) result (items_at (event_at threads) count bytes.now) }
{
    let mut events = Some(Items::new(alloc));
    let mut rest = bytes;
    for _ in 0..count {
        let (event, after) = event_at(threads, rest)?;
        keep(&mut events, event);
        rest = after;
    }
    Ok((events, rest))
}

/// Adds the event, as long as there is memory for all. The events stay where they are: most of a journal is read by this.
#[inline(always)]
fn keep(events: &mut Option<Items<Event>>, event: Event)
    ensures { (front : List Event) → IsKept events.old front → IsKept events.new (front ++ event ∷ []) }
{
    let is_refused = match events {
        Some(kept) => kept.push(event).is_err(),
        None => false,
    };
    if is_refused {
        *events = None;
    }
}

/// The threads and the events at the front of the bytes, as long as there is memory for these, and the bytes after them.
#[tactic(auto, unfolding(crate::specs::JournalFields::log_at))]
pub(crate) fn parts_at(
    alloc: Global,
    bytes: &[u8],
) -> Result<(u32, Option<Items<Event>>, &[u8]), Stop>
    ensures { Keeps (λ x. option_map (λ events. record { threads = x.0; events = events }) x.1) (λ x. x.2.now) result (log_at bytes.now) }
{
    let (_letters, rest) = letters_at(LETTERS, bytes)?;
    let (version, rest) = version_at(rest)?;
    let (threads, rest) = threads_at(version, rest)?;
    let (count, rest) = count_at(rest)?;
    let (events, rest) = events_of(alloc, threads, count, rest)?;
    Ok((threads, events, rest))
}
