//! Statements that need the locks under those of a section's list, of which no chain is kept.

use crate::search::statements::Statements;
use std::alloc::{AllocError, Global};

/// The statements of a section, by the lock of its list and the need under it.
#[derive(Drop)]
pub struct Others {
    /// The statements of each need.
    needs: Vec<Statements>,
    /// For each lock of the list the number of its first need.
    locks: Vec<usize>,
}

impl Others {
    /// No statements.
    pub(crate) fn new(alloc: Global) -> Others {
        Others {
            needs: Vec::new(alloc),
            locks: Vec::new(alloc),
        }
    }

    /// Forgets all.
    pub(crate) fn clear(&mut self) {
        self.needs.clear();
        self.locks.clear();
    }

    /// Begins with the next lock of the list.
    pub(crate) fn begin_lock(&mut self) -> Result<(), AllocError> {
        self.locks.push(self.needs.len())?;
        Ok(())
    }

    /// Adds the statements of the next need under the lock.
    pub(crate) fn add(&mut self, statements: Statements) -> Result<(), AllocError> {
        self.needs.push(statements)?;
        Ok(())
    }

    /// The statements of the first needs under a lock of the list, by its place.
    pub fn under(&self, place: usize) -> &[Statements] {
        let needs = self.needs.as_slice();
        let end = match self.locks.get(place.saturating_add(1)) {
            Some(next) => *next,
            None => needs.len(),
        };
        match self.locks.get(place) {
            Some(first) if *first <= end && end <= needs.len() => &needs[*first..end],
            _ => &[],
        }
    }
}
