//! Journals as values.
ghost use Rattle.std.specs.Prelude.{◌≡◌, ◌<◌, IsOk, IfOk, IfErr, MatchBool};
ghost use Rattle.asl_journal.specs.Journal.{AreThere, HasStranger, IsLog, IsNoLog};

mod growing;

use crate::event::Event;
use crate::fault::JournalFault;
use crate::journal_limits::{MAX_EVENTS, MAX_THREADS};
use std::marker::Model;

/// How many threads a run has, and its events in order: 1 to 128 threads, at most 16,777,216 events, and each event of a
/// thread that is there (`docs/JOURNAL.md`, "What a journal is").
#[derive(Drop)]
pub struct Journal {
    threads: u32,
    events: Vec<Event>,
}

impl Model for Journal {
    ghost use Rattle.asl_journal.specs.Journal.{Log, IsLog};

    ghost Value = { Log };

    ghost view = { λ j. record { threads = j.threads; events = j.events.items } };

    ghost invariant = { λ j. IsLog (record { threads = j.threads; events = j.events.items }) };
}

impl Journal {
    /// The journal of n threads with these events, with no copy. Where it is none, the events come back.
    ///
    /// # Errors
    ///
    /// The first that applies of `JournalFull`, `BadCount` and `BadThread`, with the events.
    pub fn of(n: u32, events: Vec<Event>) -> Result<Journal, (JournalFault, Vec<Event>)>
        ensures journal { IfOk result (λ journal. journal ≡ record { threads = n; events = events.items }) }
        ensures only { IsLog (record { threads = n; events = events.items }) → IsOk result }
        ensures refused { IfErr result (λ refusal. IsNoLog (record { threads = n; events = events.items }) refusal.0) }
        ensures back { IfErr result (λ refusal. refusal.1.items ≡ events.items) }
    {
        if events.len() > MAX_EVENTS {
            return Err((JournalFault::JournalFull, events));
        }
        if n == 0 || n > MAX_THREADS {
            return Err((JournalFault::BadCount, events));
        }
        if !are_there(n, events.as_slice()) {
            return Err((JournalFault::BadThread, events));
        }
        Ok(Journal { threads: n, events })
    }

    /// The journal of the threads and the events, which are one.
    pub(crate) fn from_parts(threads: u32, events: Vec<Event>) -> Journal
        requires { IsLog (record { threads = threads; events = events.items }) }
        ensures { result ≡ record { threads = threads; events = events.items } }
    {
        Journal { threads, events }
    }

    /// How many threads there are.
    pub fn threads(&self) -> u32
        ensures threads { result ≡ self.now.threads }
        ensures log { IsLog self.now }
    {
        self.threads
    }

    /// The events in order.
    pub fn events(&self) -> &[Event]
        ensures events { result.now ≡ self.now.events }
        ensures log { IsLog self.now }
    {
        self.events.as_slice()
    }

    /// The events as a vector, with no copy.
    pub fn into_events(self) -> Vec<Event>
        ensures { result.items ≡ self.events }
    {
        let Journal { threads: _, events } = self;
        events
    }
}

/// Whether each event is of one of the first n threads.
fn are_there(n: u32, events: &[Event]) -> bool
    ensures { MatchBool result (AreThere n events.now) (HasStranger (record { threads = n; events = events.now })) }
{
    for event in events {
        if u32::from(event.thread) >= n {
            return false;
        }
    }
    true
}
