//! How many statements were found, and the first of them, so that no more are kept than are named.

use crate::text::MAX_NAMED;
use std::alloc::{AllocError, Global};

/// Statements by their pcs.
#[derive(Drop)]
pub struct Statements {
    alloc: Global,
    /// How many they are.
    pub count: usize,
    /// The first of them in order: all, where they are few.
    pub first: Vec<u16>,
}

impl Statements {
    /// No statements.
    pub fn none(alloc: Global) -> Statements {
        Statements {
            alloc,
            count: 0,
            first: Vec::new(alloc),
        }
    }

    /// The statements at these pcs, which are in order, each once, perhaps without one of them.
    pub(crate) fn of(
        alloc: Global,
        pcs: &[u16],
        left_out: Option<u16>,
    ) -> Result<Statements, AllocError> {
        let mut statements = Statements::none(alloc);
        let mut last = left_out;
        for pc in pcs {
            if last != Some(*pc) && left_out != Some(*pc) {
                statements.add(*pc)?;
            }
            last = Some(*pc);
        }
        Ok(statements)
    }

    /// Adds a statement.
    pub fn add(&mut self, pc: u16) -> Result<(), AllocError> {
        self.count = self.count.saturating_add(1);
        let place = match self.first.binary_search(&pc) {
            Ok(place) | Err(place) => place,
        };
        if place < MAX_NAMED && place <= self.first.len() {
            self.first.insert(place, pc)?;
            self.first.truncate(MAX_NAMED);
        }
        Ok(())
    }

    /// Adds others of which it has none.
    pub fn join(&mut self, others: &Statements) -> Result<(), AllocError> {
        let count = self.count.saturating_add(others.count);
        for pc in &others.first {
            self.add(*pc)?;
        }
        self.count = count;
        Ok(())
    }

    /// The same statements.
    pub fn copied(&self) -> Result<Statements, AllocError> {
        Ok(Statements {
            alloc: self.alloc,
            count: self.count,
            first: Vec::from_slice(self.alloc, self.first.as_slice())?,
        })
    }
}
