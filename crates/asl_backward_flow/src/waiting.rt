//! The points whose needs are not followed yet.
ghost use Rattle.std.specs.Prelude.{◌≡◌, ◌∷◌, [], ◌+◌, ◌<◌, ◌⊎◌, Some, true, false, length, slice_get, vec_len, IfSome, IfNone, OnSome, OnOk, OnErr};
ghost use Rattle.std.specs.List.Sorted.{IsPermutation};
ghost use Rattle.std.specs.BinaryHeap.{heap_items, heap_len};
ghost use Rattle.asl_backward_flow.specs.Found.{AreLeft, IsAt, IsPut, IsTaken};

use std::alloc::{AllocError, Global};
use std::collections::BinaryHeap;
use std::marker::Model;

/// Points, each as the place of its region among the spans and its pc, of which the last is taken off first. Those that come in
/// rising order, as nearly all do, stand in a row, which ends with the last of them. The others are in a heap.
#[derive(Drop)]
pub struct Waiting {
    row: Vec<(u16, u16)>,
    others: BinaryHeap<(u16, u16)>,
}

impl Model for Waiting {
    ghost use Rattle.std.specs.Prelude.{◌++◌, ℕ, List};
    ghost use Rattle.std.specs.BinaryHeap.{heap_items};

    ghost Value = { List (ℕ × ℕ) };

    ghost view = { λ w. w.row.items ++ heap_items w.others };
}

impl Waiting {
    /// No point.
    pub fn new(alloc: Global) -> Waiting
        ensures { result ≡ [] }
    {
        Waiting {
            row: Vec::new(alloc),
            others: BinaryHeap::new(alloc),
        }
    }

    /// Adds a point, if something is new there.
    pub fn put(&mut self, is_new: bool, point: (u16, u16)) -> Result<(), AllocError>
        ensures ok { OnOk result (IsPut self.old self.new point is_new) }
        ensures err { OnErr result (self.new ≡ self.old) }
    {
        if !is_new || is_last(&self.row, point) {
            return Ok(());
        }
        if is_behind(&self.row, point) {
            self.row.push(point)?;
            return Ok(());
        }
        self.others.push(point)?;
        Ok(())
    }

    /// Takes the last point off, as often as it is there.
    pub fn pop(&mut self) -> Option<(u16, u16)>
        ensures taken { IfSome result (IsTaken self.old self.new) }
        ensures len { OnSome result (length self.new < length self.old) }
        ensures none { IfNone result (length self.old ≡ 0) }
        ensures unchanged { IfNone result (self.new ≡ self.old) }
    {
        let point = self.take()?;
        drop_same(&mut self.others, point);
        Some(point)
    }

    /// Takes the last point off once.
    fn take(&mut self) -> Option<(u16, u16)>
        ensures point { IfSome result (λ point. IsPermutation self.old (point ∷ self.new)) }
        ensures none { IfNone result (length self.old ≡ 0) }
        ensures unchanged { IfNone result (self.new ≡ self.old) }
    {
        if is_before(&self.row, &self.others) {
            return self.others.pop();
        }
        self.row.pop()
    }
}

/// Takes a point off a heap as long as it is the first there.
fn drop_same(others: &mut BinaryHeap<(u16, u16)>, point: (u16, u16))
    ensures { AreLeft (heap_items others.old) (heap_items others.new) point }
{
    while is_first(others, point) {
        others.pop();
    }
}

/// Whether the point is the first of a heap.
fn is_first(others: &BinaryHeap<(u16, u16)>, point: (u16, u16)) -> bool
    ensures { result ≡ true → slice_get (heap_items others.now) 0 ≡ Some point }
{
    match others.peek() {
        Some(first) => first.0 == point.0 && first.1 == point.1,
        None => false,
    }
}

/// Whether the point is the last of a row.
fn is_last(row: &[(u16, u16)], point: (u16, u16)) -> bool
    ensures { result ≡ true → IsAt row.now point }
{
    match row.last() {
        Some(last) => last.0 == point.0 && last.1 == point.1,
        None => false,
    }
}

/// Whether the point is behind the last of a row.
fn is_behind(row: &[(u16, u16)], point: (u16, u16)) -> bool {
    match row.last() {
        Some(last) => are_rising(*last, point),
        None => true,
    }
}

/// Whether the last of a row is before the first of a heap.
fn is_before(row: &Vec<(u16, u16)>, others: &BinaryHeap<(u16, u16)>) -> bool
    ensures some { result ≡ true → 0 < heap_len others.now }
    ensures none { result ≡ false → (0 < vec_len row.now) ⊎ (heap_len others.now ≡ 0) }
{
    let Some(first) = others.peek() else {
        return false;
    };
    match row.last() {
        Some(last) => are_rising(*last, *first),
        None => true,
    }
}

/// Whether the first point is before the second.
fn are_rising(first: (u16, u16), second: (u16, u16)) -> bool {
    first.0 < second.0 || first.0 == second.0 && first.1 < second.1
}
