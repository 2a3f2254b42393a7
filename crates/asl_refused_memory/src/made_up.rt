//! Made-up calls: what comes back of them, and how often they are made.
use crate::{answered, changed};
use std::alloc::Global;
use std::cell::Cell;

/// Why a call is refused.
#[derive(Clone, Copy, PartialEq)]
enum Fault {
    Memory,
    Other,
}

type Answer = Result<u32, Fault>;

/// What a call answers the first time and the second, what comes back, and how often it is made.
type Row = ((Answer, Answer), Option<u32>, usize);

static ROWS: [Row; 5] = [
    ((Ok(7), Ok(8)), Some(7), 1),
    ((Err(Fault::Memory), Ok(8)), Some(8), 2),
    ((Err(Fault::Other), Ok(8)), None, 1),
    ((Err(Fault::Memory), Err(Fault::Memory)), None, 2),
    ((Err(Fault::Memory), Err(Fault::Other)), None, 2),
];

/// What a call of this number answers.
fn answer(answers: &(Answer, Answer), number: usize) -> Answer {
    if number == 0 { answers.0 } else { answers.1 }
}

/// A call that counts how often it is made.
fn counted(_: Global, given: (&Cell<usize>, &(Answer, Answer))) -> Answer {
    let (made, answers) = given;
    let number = made.get();
    made.set(number.saturating_add(1));
    answer(answers, number)
}

/// What comes back of a call that answers so, and how often it is made.
fn outcome(alloc: Global, answers: &(Answer, Answer)) -> (Option<u32>, usize) {
    let made = Cell::new(0);
    let back = answered(alloc, Fault::Memory, counted, (&made, answers));
    (back, made.get())
}

#[test]
fn a_refused_call_is_made_once_more(rt: HostRuntime) {
    for (answers, back, made) in ROWS.iter() {
        assert!(rt; outcome(rt.alloc(), answers) == (*back, *made));
    }
}

/// What is told of it, and how many calls of it were made.
#[derive(Drop)]
struct Receiver {
    told: u32,
    made: usize,
}

fn told(receiver: &Receiver) -> u32 {
    receiver.told
}

/// A call that adds so much to what is told.
fn adding(_: Global, receiver: &mut Receiver, given: (&(Answer, Answer), u32)) -> Answer {
    let (answers, more) = given;
    let number = receiver.made;
    receiver.made = number.saturating_add(1);
    receiver.told = receiver.told.wrapping_add(more);
    answer(answers, number)
}

/// What comes back of a call that answers so and adds so much, and how often it is made.
fn outcome_of_adding(alloc: Global, answers: &(Answer, Answer), more: u32) -> (Option<u32>, usize) {
    let mut receiver = Receiver { told: 5, made: 0 };
    let given = (answers, more);
    let back = changed(alloc, Fault::Memory, &mut receiver, told, adding, given);
    (back, receiver.made)
}

#[test]
fn a_refused_call_that_changed_nothing_is_made_once_more(rt: HostRuntime) {
    for (answers, back, made) in ROWS.iter() {
        assert!(rt; outcome_of_adding(rt.alloc(), answers, 0) == (*back, *made));
    }
}

/// The same of calls that change what is told: the one that answers may, the refused one may not.
static CHANGING: [Row; 2] = [
    ((Ok(7), Ok(8)), Some(7), 1),
    ((Err(Fault::Memory), Ok(8)), None, 1),
];

#[test]
fn a_refused_call_that_changed_its_receiver_is_seen(rt: HostRuntime) {
    for (answers, back, made) in CHANGING.iter() {
        assert!(rt; outcome_of_adding(rt.alloc(), answers, 1) == (*back, *made));
    }
}
