//! What waits until a place points somewhere. It says only what is looked at next, and no proof rests on that.

use std::alloc::{AllocError, Global};
use std::cmp::Reverse;
use std::collections::BinaryHeap;

/// Nothing.
const NONE: u32 = u32::MAX;

/// When something is looked at: in which round, and by its number.
#[derive(Clone, Copy, PartialEq, Eq, PartialOrd, Ord)]
struct Turn {
    round: u32,
    number: u32,
}

/// Numbers from 0 on: those that are to be looked at, and those that wait, by the places that they wait for. They are looked at in
/// rounds, in each from the lowest to the highest. All are looked at in the first, and then each that is woken: in the same round, if
/// its turn is still to come.
#[derive(Drop)]
pub(crate) struct Waiting {
    /// For each place, by its number, the last of those that wait for it.
    lasts: Vec<u32>,
    /// For each number the next of those that wait for the same place. After the last comes the first.
    nexts: Vec<u32>,
    /// The lowest that has not been looked at in the first round.
    fresh: u32,
    /// The turns of those that were woken.
    woken: BinaryHeap<Reverse<Turn>>,
    /// The turn of the one that is looked at.
    now: Turn,
}

impl Waiting {
    /// So many numbers and places.
    pub(crate) fn new(alloc: Global, numbers: usize, places: usize) -> Result<Waiting, AllocError> {
        Ok(Waiting {
            lasts: vec![in alloc; NONE; places]?,
            nexts: vec![in alloc; NONE; numbers]?,
            fresh: 0,
            woken: BinaryHeap::new(alloc),
            now: Turn {
                round: 0,
                number: 0,
            },
        })
    }

    /// Takes off the number that is to be looked at next.
    pub(crate) fn pop(&mut self) -> Option<u32> {
        if (self.fresh as usize) < self.nexts.len() {
            self.now.number = self.fresh;
            self.fresh = self.fresh.saturating_add(1);
            return Some(self.now.number);
        }
        let Reverse(turn) = self.woken.pop()?;
        self.now = turn;
        Some(turn.number)
    }

    /// Lets a number wait for a place.
    pub(crate) fn wait(&mut self, number: u32, place: u32) {
        let last = self.last(place);
        let first = if last == NONE {
            number
        } else {
            self.next(last)
        };
        self.set_next(number, first);
        self.set_next(last, number);
        self.set_last(place, number);
    }

    /// Lets a number be looked at again.
    pub(crate) fn wake(&mut self, number: u32) -> Result<(), AllocError> {
        let round = if number > self.now.number {
            self.now.round
        } else {
            self.now.round.saturating_add(1)
        };
        self.woken.push(Reverse(Turn { round, number }))?;
        Ok(())
    }

    /// Wakes those that wait for a place.
    pub(crate) fn wake_all(&mut self, place: u32) -> Result<(), AllocError> {
        let last = self.last(place);
        if last == NONE {
            return Ok(());
        }
        self.set_last(place, NONE);
        let mut number = last;
        for _ in 0..self.nexts.len() {
            number = self.next(number);
            self.wake(number)?;
            if number == last {
                return Ok(());
            }
        }
        Ok(())
    }

    /// Lets those that wait for one place wait for another.
    pub(crate) fn move_all(&mut self, from: u32, into: u32) {
        let last = self.last(from);
        if last == NONE {
            return;
        }
        self.set_last(from, NONE);
        let behind = self.last(into);
        if behind != NONE {
            let first = self.next(last);
            self.set_next(last, self.next(behind));
            self.set_next(behind, first);
        }
        self.set_last(into, last);
    }

    /// The last of those that wait for a place.
    fn last(&self, place: u32) -> u32 {
        self.lasts.get(place as usize).copied().unwrap_or(NONE)
    }

    /// Lets a number be the last of those that wait for a place.
    fn set_last(&mut self, place: u32, number: u32) {
        if let Some(last) = self.lasts.get_mut(place as usize) {
            *last = number;
        }
    }

    /// The number after another.
    fn next(&self, number: u32) -> u32 {
        self.nexts.get(number as usize).copied().unwrap_or(number)
    }

    /// Lets a number come after another.
    fn set_next(&mut self, number: u32, next: u32) {
        if let Some(own) = self.nexts.get_mut(number as usize) {
            *own = next;
        }
    }
}
