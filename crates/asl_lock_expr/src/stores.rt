//! The classes that each function may store to, found by its stores and its calls.
ghost use Rattle.std.specs.Prelude.{◌≡◌, ◌<◌, ◌≤◌, ◌⊎◌, ◌↔◌, ℕ, true, false, slice_get, OnOk, IfOk, length, map, replicate, vec_len};
ghost use Rattle.asl_lane_sets.specs.NumberSet.{members_of};
ghost use Rattle.asl_lock_expr.specs.ClassOf.{TellsStores};
ghost use Rattle.asl_lock_expr.specs.Stores.{stores};
ghost use Rattle.asl_lock_expr.specs.Storing.{IsMarked, IsIn, AreOver, row, Reaches, MarksAll};

use crate::store_rows::{StoreRows, row_at, rows_of};
use crate::written::Writes;
use asl_code::Items;
use asl_lane_sets::Bits;
use asl_lower::Lowering;
use asl_points_to::Classes;
use std::alloc::{AllocError, Global};

/// The classes that each function of the program may store to: those of its own stores, and of the functions that it calls.
///
/// # Errors
///
/// An allocation failed.
pub fn writes(alloc: Global, lowering: &Lowering, classes: &Classes) -> Result<Writes, AllocError>
    ensures { IfOk result (λ w. TellsStores lowering.now classes.now (stores w)) }
{
    let StoreRows { stores, callers } = rows_of(alloc, lowering, classes)?;
    let count = lowering.functions().len();
    let mut sets = empty_sets(alloc, count, stores.len())?;
    for (class, stored) in stores.iter().enumerate() {
        let marks = storing(alloc, count, &callers, stored.as_slice())?;
        add_class(&mut sets, &marks, class);
    }
    Ok(Writes::from_sets(sets))
}

/// So many empty sets of numbers below a length.
fn empty_sets(alloc: Global, count: usize, len: usize) -> Result<Vec<Bits>, AllocError>
    ensures { IfOk result (λ sets. sets.items ≡ replicate count (replicate len false)) }
{
    let mut sets = Vec::new(alloc);
    for _ in 0..count {
        sets.push(Bits::with_len(alloc, len)?)?;
    }
    Ok(sets)
}

/// Marks the functions that are listed, and those that call them, directly or not.
fn storing(
    alloc: Global,
    count: usize,
    callers: &[Items<u16>],
    listed: &[u16],
) -> Result<Vec<bool>, AllocError>
    ensures marks { IfOk result (λ marks. (f : ℕ) → IsMarked marks.items f ↔ Reaches count callers.now listed.now f) }
    ensures count { IfOk result (λ marks. length marks.items ≡ count) }
{
    let mut search = StoreSearch {
        marks: no_marks(alloc, count)?,
        waiting: Vec::new(alloc),
    };
    search.mark_all(listed)?;
    while let Some(function) = search.waiting.pop() {
        search.mark_all(row_at(callers, function))?;
    }
    Ok(search.marks)
}

/// So many places without a mark.
fn no_marks(alloc: Global, count: usize) -> Result<Vec<bool>, AllocError>
    ensures { IfOk result (λ marks. marks.items ≡ replicate count false) }
{
    vec![in alloc; false; count]
}

/// Which functions have a mark, and those of them whose callers are still to be marked.
#[derive(Drop)]
struct StoreSearch {
    marks: Vec<bool>,
    waiting: Vec<u16>,
}

impl StoreSearch {
    /// Marks each of the functions; those that had no mark wait.
    fn mark_all(&mut self, functions: &[u16]) -> Result<(), AllocError>
        ensures { OnOk result (MarksAll functions.now self.old.marks.items self.new.marks.items
            self.old.waiting.items self.new.waiting.items) }
    {
        for function in functions {
            if is_free(&self.marks, *function) {
                self.waiting.push(*function)?;
                self.marks[usize::from(*function)] = true;
            }
        }
        Ok(())
    }
}

/// Whether the function is there and has no mark.
fn is_free(marks: &[bool], function: u16) -> bool
    ensures free { result ≡ true → slice_get marks.now function ≡ Some false }
    ensures taken { result ≡ false → function < length marks.now → IsMarked marks.now function }
{
    match marks.get(usize::from(function)) {
        Some(mark) => !*mark,
        None => false,
    }
}

/// Adds the class to the set of each function with a mark.
fn add_class(sets: &mut Vec<Bits>, marks: &[bool], class: usize)
    requires there { length marks.now ≤ vec_len sets.old }
    requires below { AreOver class (map length sets.old.items) }
    ensures lengths { map length sets.new.items ≡ map length sets.old.items }
    ensures classes { (f x : ℕ) → IsIn (row (map members_of sets.new.items) f) x ↔ (IsIn (row (map members_of sets.old.items) f) x ⊎ (IsMarked marks.now f × (x ≡ class))) }
{
    for (function, marked) in marks.iter().enumerate() {
        if *marked {
            add_to(sets, function, class);
        }
    }
}

/// Adds a class to the set of a function.
fn add_to(sets: &mut Vec<Bits>, function: usize, class: usize)
    requires there { function < vec_len sets.old }
    requires below { AreOver class (map length sets.old.items) }
    ensures lengths { map length sets.new.items ≡ map length sets.old.items }
    ensures classes { (f x : ℕ) → IsIn (row (map members_of sets.new.items) f) x ↔ (IsIn (row (map members_of sets.old.items) f) x ⊎ ((f ≡ function) × (x ≡ class))) }
{
    sets[function].add(class);
}
