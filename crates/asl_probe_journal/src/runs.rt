//! Journals of runs by a schedule, and what replay makes of them.
use crate::shown::shows_same;
use asl_code::{Program, Value};
use asl_journal::{Event, Journal, JournalFault, Journaled, follow, replay};
use asl_machine::{Machine, Reply};
use std::alloc::Global;

/// The journal of two threads of the program over the schedule.
pub fn journal_of(alloc: Global, program: &Program, schedule: &[u8]) -> Option<Journal> {
    let mut journaled = Journaled::start(alloc, program, 2).ok()?;
    for thread in schedule {
        journaled.step(alloc, u32::from(*thread)).ok()?;
    }
    let (journal, _machine) = journaled.into_parts();
    Some(journal)
}

/// Whether replay leads where the run by the schedule led.
pub fn is_replayed(alloc: Global, program: &Program, schedule: &[u8]) -> Option<bool> {
    let mut journaled = Journaled::start(alloc, program, 2).ok()?;
    for thread in schedule {
        journaled.step(alloc, u32::from(*thread)).ok()?;
    }
    let (journal, machine) = journaled.into_parts();
    let replayed = replay(alloc, program, &journal).ok()?;
    Some(shows_same(&replayed, &machine))
}

/// The machine after so many steps of the schedule, by a new replay.
pub fn replayed_from<'p>(
    alloc: Global,
    program: &'p Program,
    schedule: &[u8],
    steps: u32,
) -> Option<Machine<'p>> {
    let (first, _rest) = schedule.split_at_checked(steps as usize)?;
    let journal = journal_of(alloc, program, first)?;
    replay(alloc, program, &journal).ok()
}

/// The journal's events after so many, as a journal of their own.
fn rest_of(alloc: Global, journal: &Journal, steps: usize) -> Option<Journal> {
    let (_first, rest) = journal.events().split_at_checked(steps)?;
    let mut events = Vec::new(alloc);
    for event in rest {
        events.push(*event).ok()?;
    }
    Journal::of(journal.threads(), events).ok()
}

/// The machine to which the events of a journal lead from this one.
fn followed<'p>(alloc: Global, from: &Machine<'p>, rest: &Journal) -> Option<Machine<'p>> {
    if from.threads() != rest.threads() {
        return None;
    }
    follow(alloc, from, rest.events()).ok()
}

/// Whether the rest of the journal leads, from after so many of its events, where replay of the whole does.
pub fn is_followed(alloc: Global, program: &Program, schedule: &[u8], steps: u32) -> Option<bool> {
    let journal = journal_of(alloc, program, schedule)?;
    let rest = rest_of(alloc, &journal, steps as usize)?;
    let from = replayed_from(alloc, program, schedule, steps)?;
    let machine = followed(alloc, &from, &rest)?;
    let replayed = replay(alloc, program, &journal).ok()?;
    Some(shows_same(&machine, &replayed))
}

/// The refusal of the journal in which the event at this place replies something else.
pub fn refused_at(
    alloc: Global,
    program: &Program,
    schedule: &[u8],
    place: usize,
) -> Option<JournalFault> {
    let mut events = journal_of(alloc, program, schedule)?.into_events();
    if let Some(event) = events.get_mut(place) {
        event.reply = Reply::Out(Value::Null);
    }
    let journal = Journal::of(2, events).ok()?;
    replay(alloc, program, &journal).err()
}

/// What a journal of so many threads without events meets.
pub fn empty_met(alloc: Global, program: &Program, n: u32) -> Option<JournalFault> {
    let journal = Journal::of(n, Vec::new(alloc)).ok()?;
    replay(alloc, program, &journal).err()
}

/// The last event of the journal.
pub fn last_event(alloc: Global, program: &Program, schedule: &[u8]) -> Option<Event> {
    let journal = journal_of(alloc, program, schedule)?;
    journal.events().last().copied()
}
