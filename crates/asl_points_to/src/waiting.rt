//! The flows that wait until a register or the cells of a class point somewhere. It says only which flow is looked at next, and no proof
//! rests on that.

use crate::value_flow::Place;
use std::alloc::{AllocError, Global};

/// No flow.
const NONE: u32 = u32::MAX;

/// Flows that wait, by the numbers of the first and the last of them.
#[derive(Clone, Copy)]
struct Queue {
    first: u32,
    last: u32,
}

/// No flows.
const EMPTY: Queue = Queue {
    first: NONE,
    last: NONE,
};

/// What a flow waits for.
#[derive(Clone, Copy)]
pub enum Lacking {
    /// For nothing.
    Nothing,
    /// That this register points somewhere.
    Register(Place),
    /// That the cells of the class with this first member do.
    Cells(u32),
}

/// Flows by their numbers: those that are to be looked at, and those that wait, by what they wait for.
#[derive(Drop)]
pub struct Waiting {
    /// For each flow the next of those that wait as it does.
    next: Vec<u32>,
    /// For each register of each function the first flow that waits for it.
    registers: Vec<u32>,
    /// For each member those that wait for the cells of the class of which it is the first.
    cells: Vec<Queue>,
    /// The first that is to be looked at.
    ready: u32,
}

/// The place of a register among all.
fn place_of(place: Place) -> usize {
    usize::from(place.function) * 256 + usize::from(place.register)
}

/// Whether something is kept for the cells of a class with this first member.
fn is_filled(cells: &[Option<u32>], member: u32) -> bool {
    match cells.get(member as usize) {
        Some(cell) => cell.is_some(),
        None => false,
    }
}

impl Waiting {
    /// No flows, of which none is ever woken.
    pub fn none(alloc: Global) -> Waiting {
        Waiting {
            next: Vec::new(alloc),
            registers: Vec::new(alloc),
            cells: Vec::new(alloc),
            ready: NONE,
        }
    }

    /// So many flows of a program with so many functions and members. All are to be looked at, the first of them first.
    pub fn new(
        alloc: Global,
        flows: usize,
        functions: usize,
        members: usize,
    ) -> Result<Waiting, AllocError> {
        let mut next = Vec::with_capacity(alloc, flows)?;
        let mut following: u32 = 0;
        for _ in 0..flows {
            following = following.saturating_add(1);
            next.push(following)?;
        }
        Ok(Waiting {
            next,
            registers: vec![in alloc; NONE; functions.saturating_mul(256)]?,
            cells: vec![in alloc; EMPTY; members]?,
            ready: 0,
        })
    }

    /// Takes off the flow that is to be looked at next.
    pub fn pop(&mut self) -> Option<u32> {
        let number = self.ready;
        self.ready = *self.next.get(number as usize)?;
        Some(number)
    }

    /// Lets a flow wait.
    pub fn wait(&mut self, number: u32, lacking: Lacking) {
        match lacking {
            Lacking::Nothing => {}
            Lacking::Register(place) => {
                if let Some(first) = self.registers.get_mut(place_of(place)) {
                    let behind = *first;
                    *first = number;
                    self.set_next(number, behind);
                }
            }
            Lacking::Cells(member) => {
                if let Some(queue) = self.cells.get_mut(member as usize) {
                    let behind = queue.first;
                    queue.first = number;
                    if behind == NONE {
                        queue.last = number;
                    }
                    self.set_next(number, behind);
                }
            }
        }
    }

    /// Wakes the flows that wait for a register.
    pub fn pointed(&mut self, place: Place) {
        if let Some(waiting) = self.registers.get_mut(place_of(place)) {
            let first = *waiting;
            *waiting = NONE;
            self.wake(first);
        }
    }

    /// Wakes the flows that wait for the cells of the class with a first member.
    pub fn filled(&mut self, member: u32) {
        if let Some(queue) = self.cells.get_mut(member as usize) {
            let first = queue.first;
            *queue = EMPTY;
            self.wake(first);
        }
    }

    /// The class with the first member `gone` becomes one with that of `kept`. What is kept for their cells is still as it was.
    pub fn merged(&mut self, cells: &[Option<u32>], kept: u32, gone: u32) {
        if is_filled(cells, kept) || is_filled(cells, gone) {
            self.filled(kept);
            self.filled(gone);
        } else {
            self.move_all(gone, kept);
        }
    }

    /// Lets the flows that wait for the cells of one class wait for those of another.
    fn move_all(&mut self, gone: u32, kept: u32) {
        let Some(queue) = self.cells.get_mut(gone as usize) else {
            return;
        };
        let moved = *queue;
        *queue = EMPTY;
        if moved.first == NONE {
            return;
        }
        if let Some(queue) = self.cells.get_mut(kept as usize) {
            let behind = queue.first;
            queue.first = moved.first;
            if behind == NONE {
                queue.last = moved.last;
            }
            self.set_next(moved.last, behind);
        }
    }

    /// Lets the flow `next` come behind another.
    fn set_next(&mut self, number: u32, next: u32) {
        if let Some(own) = self.next.get_mut(number as usize) {
            *own = next;
        }
    }

    /// Lets the flows from this one on be looked at.
    fn wake(&mut self, first: u32) {
        let mut number = first;
        for _ in 0..self.next.len() {
            let Some(next) = self.next.get_mut(number as usize) else {
                return;
            };
            let following = *next;
            *next = self.ready;
            self.ready = number;
            number = following;
        }
    }
}
