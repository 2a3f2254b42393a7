//! The functions that store to each class, and those that call each function.
ghost use Rattle.std.specs.Prelude.{◌≡◌, ◌<◌, ◌≤◌, ◌⊎◌, ◌↔◌, ℕ, true, OnOk, IfOk, length};
ghost use Rattle.asl_lower.specs.OpenSections.{owner_of};
ghost use Rattle.asl_lock_expr.specs.Stores.{stores};
ghost use Rattle.asl_lock_expr.specs.Storing.{IsIn, row, stored_class, called, AreListed, ListsOneMore};

use asl_code::{Instr, Items};
use asl_lower::Lowering;
use asl_points_to::Classes;
use std::alloc::{AllocError, Global};

/// The stores and the calls of a program.
#[derive(Drop)]
pub(crate) struct StoreRows {
    /// For each class the functions with a store of their own to it.
    pub(crate) stores: Vec<Items<u16>>,
    /// For each function those that call it.
    pub(crate) callers: Vec<Items<u16>>,
}

impl StoreRows {
    /// Adds the stores and the calls of the body of a function, which lies from `start` to before `end`.
    fn add_body(
        &mut self,
        alloc: Global,
        lowering: &Lowering,
        classes: &Classes,
        function: u16,
        start: usize,
        end: usize,
    ) -> Result<(), AllocError>
        requires order { start ≤ end }
        requires there { end ≤ length lowering.now.code }
        requires body { (pc : ℕ) → start ≤ pc → pc < end → owner_of lowering.now.functions pc ≡ function }
        ensures stores { OnOk result (AreListed (stored_class classes.now) lowering.now start self.old.stores.items → AreListed (stored_class classes.now) lowering.now end self.new.stores.items) }
        ensures calls { OnOk result (AreListed (λ _. called) lowering.now start self.old.callers.items → AreListed (λ _. called) lowering.now end self.new.callers.items) }
        ensures few { OnOk result (length self.old.stores.items ≤ 65536 → length self.new.stores.items ≤ 65536) }
        ensures few_calls { OnOk result (length self.old.callers.items ≤ 65536 → length self.new.callers.items ≤ 65536) }
    {
        for pc in start..end {
            self.add(alloc, classes, function, lowering.code()[pc])?;
        }
        Ok(())
    }

    /// Adds what an instruction of the function stores to and calls.
    fn add(
        &mut self,
        alloc: Global,
        classes: &Classes,
        function: u16,
        instr: Instr,
    ) -> Result<(), AllocError>
        ensures stores { OnOk result (ListsOneMore (stored_class classes.now) function instr self.old.stores.items self.new.stores.items) }
        ensures calls { OnOk result (ListsOneMore (λ _. called) function instr self.old.callers.items self.new.callers.items) }
    {
        if let Some(class) = stored_class(classes, function, instr) {
            add_at(alloc, &mut self.stores, class, function)?;
        }
        if let Some(callee) = called(instr) {
            add_at(alloc, &mut self.callers, callee, function)?;
        }
        Ok(())
    }
}

/// The stores and the calls of the program, function by function.
pub(crate) fn rows_of(
    alloc: Global,
    lowering: &Lowering,
    classes: &Classes,
) -> Result<StoreRows, AllocError>
    ensures stores { IfOk result (λ rows. AreListed (stored_class classes.now) lowering.now (length lowering.now.code) rows.stores.items) }
    ensures calls { IfOk result (λ rows. AreListed (λ _. called) lowering.now (length lowering.now.code) rows.callers.items) }
    ensures few { IfOk result (λ rows. length rows.stores.items ≤ 65536) }
{
    let mut rows = StoreRows {
        stores: Vec::new(alloc),
        callers: Vec::new(alloc),
    };
    let mut end = 0;
    for (number, function) in lowering.functions().iter().enumerate() {
        let start = end;
        end += function.len as usize;
        rows.add_body(alloc, lowering, classes, number as u16, start, end)?;
    }
    Ok(rows)
}

/// The class to which the instruction of the function stores.
fn stored_class(classes: &Classes, function: u16, instr: Instr) -> Option<u16>
    ensures { result ≡ stored_class classes.now function instr }
{
    match instr {
        Instr::Store { address, .. } => classes.to(function, address),
        _ => None,
    }
}

/// The function that the instruction calls.
fn called(instr: Instr) -> Option<u16>
    ensures { result ≡ called instr }
{
    match instr {
        Instr::Call { function, .. } => Some(function),
        _ => None,
    }
}

/// Adds the number to the row at a place, unless it is the last there.
fn add_at(alloc: Global, rows: &mut Vec<Items<u16>>, at: u16, number: u16) -> Result<(), AllocError>
    ensures rows { OnOk result ((a n : ℕ) → IsIn (row rows.new.items a) n ↔ (IsIn (row rows.old.items a) n ⊎ ((a ≡ at) × (n ≡ number)))) }
    ensures few { OnOk result (length rows.old.items ≤ 65536 → length rows.new.items ≤ 65536) }
{
    let at = usize::from(at);
    grow(alloc, rows, at + 1)?;
    let row = &mut rows[at];
    if !ends_with(row.as_slice(), number) {
        row.push(number)?;
    }
    Ok(())
}

/// The row at a place, which is empty past the last.
pub(crate) fn row_at(rows: &[Items<u16>], at: u16) -> &[u16]
    ensures { result.now ≡ row rows.now at }
{
    match rows.get(usize::from(at)) {
        Some(row) => row.as_slice(),
        None => &[],
    }
}

/// Whether the number is the last of the row.
fn ends_with(row: &[u16], number: u16) -> bool
    ensures { result ≡ true → IsIn row.now number }
{
    match row.last() {
        Some(last) => *last == number,
        None => false,
    }
}

/// Adds empty rows until there are so many.
fn grow(alloc: Global, rows: &mut Vec<Items<u16>>, count: usize) -> Result<(), AllocError>
    requires { count ≤ 65536 }
    ensures rows { OnOk result ((a : ℕ) → row rows.new.items a ≡ row rows.old.items a) }
    ensures many { OnOk result (count ≤ length rows.new.items) }
    ensures few { OnOk result (length rows.old.items ≤ 65536 → length rows.new.items ≤ 65536) }
{
    for _ in rows.len()..count {
        rows.push(Items::new(alloc))?;
    }
    Ok(())
}
