//! Where a lock on a class or on a global comes into bodies: at each entry the same lock.

use asl_code::Lock;
use std::alloc::{AllocError, Global};

/// The number of the point at which something may first happen to the lock in a body, and how many instructions are on the way to it
/// from the body's start.
#[derive(Clone, Copy)]
pub(crate) struct Gate {
    pub(crate) number: usize,
    pub(crate) instructions: u32,
}

/// What is known of a body: of which lock, and its gate, if the body needs the lock.
#[derive(Clone, Copy)]
struct Known {
    turn: u32,
    gate: Option<Gate>,
}

/// The gates of one lock, by the places of the bodies.
#[derive(Drop)]
pub(crate) struct Gates {
    lock: Option<Lock>,
    /// How many locks there were; what is known of a body may be of an earlier one.
    turn: u32,
    bodies: Vec<Known>,
}

impl Gates {
    /// No gates.
    pub(crate) fn new(alloc: Global) -> Gates {
        Gates {
            lock: None,
            turn: 0,
            bodies: Vec::new(alloc),
        }
    }

    /// From now on the gates are those of this lock.
    pub(crate) fn turn_to(&mut self, lock: &Lock) -> Result<(), AllocError> {
        if let Some(own) = &self.lock {
            if own == lock {
                return Ok(());
            }
        }
        self.lock = Some(lock.clone()?);
        self.turn = self.turn.saturating_add(1);
        Ok(())
    }

    /// What is known of the body at a place: its gate, or that it has none.
    pub(crate) fn gate(&self, place: u16) -> Option<Option<Gate>> {
        match self.bodies.get(usize::from(place)) {
            Some(known) if known.turn == self.turn => Some(known.gate),
            _ => None,
        }
    }

    /// Notes the gate of the body at a place.
    pub(crate) fn note(&mut self, place: u16, gate: Option<Gate>) -> Result<(), AllocError> {
        for _ in self.bodies.len()..usize::from(place) + 1 {
            self.bodies.push(Known {
                turn: 0,
                gate: None,
            })?;
        }
        if let Some(known) = self.bodies.get_mut(usize::from(place)) {
            *known = Known {
                turn: self.turn,
                gate,
            };
        }
        Ok(())
    }
}
