//! The locks of a region by what a search asks of them.

use crate::events::has_star;
use crate::links::front_of;
use asl_backward_flow::{Flow, Region};
use asl_code::{Base, Lock, Op};
use asl_lock_expr::class_of;
use asl_points_to::Classes;
use std::alloc::{AllocError, Global};
use std::collections::HashMap;

/// A register and a class.
#[derive(PartialEq, Eq, Hash, Drop)]
struct OfClass {
    register: u8,
    class: u16,
}

/// The locks of a region, by their numbers.
#[derive(Drop)]
pub struct RegionTable {
    /// The region.
    pub region: Region,
    /// Its function.
    pub function: u16,
    /// For each lock the locks whose evaluation reads its cell, if it is an expression for reading.
    pub longer: Vec<Vec<u16>>,
    /// The expressions whose paths read a cell.
    pub starred: Vec<u16>,
    /// For each class its expressions.
    members: HashMap<u16, Vec<u16>>,
    /// For each register and each class the expressions whose paths are as long as they may be.
    full: HashMap<OfClass, Vec<u16>>,
}

/// The table of the region at a place of the flow, which is of a function.
pub fn make_table(
    alloc: Global,
    classes: &Classes,
    flow: &Flow,
    k_limit: u32,
    place: usize,
    region: Region,
    function: u16,
) -> Result<RegionTable, AllocError> {
    let locks = flow.locks(place);
    let mut table = RegionTable {
        region,
        function,
        longer: Vec::with_capacity(alloc, locks.len())?,
        starred: Vec::new(alloc),
        members: HashMap::new(alloc),
        full: HashMap::new(alloc),
    };
    for _ in 0..locks.len() {
        table.longer.push(Vec::new(alloc))?;
    }
    let mut number = 0;
    for lock in locks {
        table.add(alloc, classes, k_limit as usize, number, lock)?;
        table.add_fronts(flow, place, number, lock)?;
        number = number.saturating_add(1);
    }
    Ok(table)
}

impl RegionTable {
    /// The expressions of a class.
    pub fn members(&self, class: u16) -> &[u16] {
        match self.members.get(&class) {
            Some(numbers) => numbers.as_slice(),
            None => &[],
        }
    }

    /// Whether no lock's evaluation reads the cell of the lock of a number.
    pub fn is_evaluated_alone(&self, number: usize) -> bool {
        match self.longer.get(number) {
            Some(longer) => longer.len() == 0,
            None => true,
        }
    }

    /// The expressions of a class on a register whose paths are as long as they may be.
    pub fn full(&self, register: u8, class: u16) -> &[u16] {
        match self.full.get(&OfClass { register, class }) {
            Some(numbers) => numbers.as_slice(),
            None => &[],
        }
    }

    /// Adds a lock with its number, but for those that its evaluation reads.
    fn add(
        &mut self,
        alloc: Global,
        classes: &Classes,
        k_limit: usize,
        number: u16,
        lock: &Lock,
    ) -> Result<(), AllocError> {
        let Lock::Expr(expr, _) = lock else {
            return Ok(());
        };
        if has_star(lock) {
            self.starred.push(number)?;
        }
        let Some(class) = class_of(classes, self.function, expr) else {
            return Ok(());
        };
        let members = self.members.entry(class)?.or_insert(Vec::new(alloc));
        members.push(number)?;
        if let Base::Reg(register) = expr.base {
            if expr.path.len() >= k_limit {
                let of_class = OfClass { register, class };
                let full = self.full.entry(of_class)?.or_insert(Vec::new(alloc));
                full.push(number)?;
            }
        }
        Ok(())
    }

    /// Adds a lock to those whose evaluation reads the cells of its fronts.
    fn add_fronts(
        &mut self,
        flow: &Flow,
        place: usize,
        number: u16,
        lock: &Lock,
    ) -> Result<(), AllocError> {
        let Lock::Expr(expr, _) = lock else {
            return Ok(());
        };
        let ops = expr.path.as_slice();
        for (len, op) in ops.iter().enumerate() {
            if *op == Op::Deref {
                if let Some(front) = flow.number(place, &front_of(expr, len)) {
                    self.add_longer(front, number)?;
                }
            }
        }
        Ok(())
    }

    /// Adds a lock to those whose evaluation reads the cell of another.
    fn add_longer(&mut self, front: usize, number: u16) -> Result<(), AllocError> {
        if let Some(longer) = self.longer.get_mut(front) {
            longer.push(number)?;
        }
        Ok(())
    }
}
