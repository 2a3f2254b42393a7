//! The rows of the leaves that some thread holds, found by cell and class.
ghost use Rattle.std.specs.Prelude.{◌≡◌, ◌≢◌, ℕ, ◌<◌, ◌+◌, None, Some, slice_get, slice_set, IsTrue, ◌↔◌, IfOk, OnOk, MatchOption};
ghost use Rattle.asl_mode_lanes.specs.Row.{IsCode};
ghost use Rattle.asl_lock_forest.specs.Leaves.{Leaf, key_of_leaf, leaf_row, IsKept, HasRoom, SameLeaves, IsBare, zeros, width};

use crate::leaf_hash::LeafHasher;
use asl_code::NEWEST_LIMITS;
use indexmap::IndexMap;
use slab::Slab;
use std::alloc::{AllocError, Global};
use std::hash::BuildHasherDefault;

/// How many threads a row has a code for: as many as the newest version has.
const WIDTH: usize = NEWEST_LIMITS.threads as usize;

/// The codes of what each thread holds at one node.
pub type Row = [u8; WIDTH];

/// The row of a node that nobody holds.
pub const NOBODY: Row = [0; WIDTH];

/// The key of each leaf's row, by object, place and class.
pub type Index = IndexMap<(u16, u8, u16), usize, BuildHasherDefault<LeafHasher>>;

/// The rows of leaves: each row in a slab, under the key that the index has for the leaf.
///
/// A leaf that is not in the index has a row of zeros.
#[derive(Drop)]
pub struct Leaves {
    /// The rows, none of zeros alone.
    pub rows: Slab<Row>,
    /// The key of each leaf's row, by object, place and class.
    pub index: Index,
}

impl Leaves {
    /// No leaf is held.
    pub fn new(alloc: Global) -> Self
        ensures kept { IsKept result }
        ensures bare { IsBare result }
    {
        Leaves {
            rows: Slab::new(alloc),
            index: IndexMap::with_hasher(alloc, BuildHasherDefault::new()),
        }
    }

    /// The same rows, of the same leaves.
    pub fn try_copy(&self) -> Result<Self, AllocError>
        requires { IsKept self.now }
        ensures kept { IfOk result IsKept }
        ensures same { IfOk result (SameLeaves self.now) }
    {
        Ok(Leaves {
            rows: self.rows.clone()?,
            index: self.index.clone()?,
        })
    }

    /// Makes capacity for so many more rows.
    pub fn reserve(&mut self, more: usize) -> Result<(), AllocError>
        requires { IsKept self.old }
        ensures kept { IsKept self.new }
        ensures same { SameLeaves self.old self.new }
        ensures room { OnOk result (HasRoom self.new more) }
    {
        self.rows.reserve(more)?;
        self.index.reserve(more)
    }

    /// The key of the leaf's row. Where no leaf is held, none is looked for.
    #[inline(always)]
    fn key(&self, leaf: (u16, u8, u16)) -> Option<usize>
        ensures { result ≡ key_of_leaf self.now leaf }
    {
        if self.index.is_empty() {
            return None;
        }
        self.index.get(&leaf).copied()
    }

    /// Where in the index the leaf is, and the key of its row.
    #[inline(always)]
    fn place(&self, leaf: (u16, u8, u16)) -> Option<(usize, usize)>
        ensures { MatchOption result (key_of_leaf self.now leaf ≡ None)
            (λ place. (slice_get self.now.index.entries place.0 ≡ Some (leaf, place.1)) × (key_of_leaf self.now leaf ≡ Some place.1)) }
    {
        match self.index.get_full(&leaf) {
            Some((index, _stored, key)) => Some((index, *key)),
            None => None,
        }
    }

    /// The leaf's row.
    pub fn row(&self, leaf: (u16, u8, u16)) -> &Row
        requires { IsKept self.now }
        ensures { result.now ≡ leaf_row self.now leaf }
    {
        match self.key(leaf) {
            Some(key) => &self.rows[key],
            None => &NOBODY,
        }
    }

    /// Writes the thread's code at the leaf, in a new row where the leaf has none.
    pub fn set(&mut self, leaf: (u16, u8, u16), thread: usize, code: u8)
        requires kept { IsKept self.old }
        requires thread_there { thread < width }
        requires is_code { IsCode code }
        requires holds { code ≢ 0 }
        requires room { HasRoom self.old 1 }
        ensures kept { IsKept self.new }
        ensures changed { leaf_row self.new leaf ≡ slice_set (leaf_row self.old leaf) thread code }
        ensures others { (other : Leaf) → other ≢ leaf → leaf_row self.new other ≡ leaf_row self.old other }
        ensures room { (more : ℕ) → HasRoom self.old (more + 1) → HasRoom self.new more }
    {
        match self.key(leaf) {
            Some(key) => self.rows[key][thread] = code,
            None => {
                let mut row = NOBODY;
                row[thread] = code;
                let key = self.rows.insert_reserved(row);
                let _ = self.index.insert(leaf, key);
            }
        }
    }

    /// Takes the thread's code from the leaf, and the row away where no code is left in it.
    pub fn clear(&mut self, leaf: (u16, u8, u16), thread: usize)
        requires kept { IsKept self.old }
        requires thread_there { thread < width }
        ensures kept { IsKept self.new }
        ensures changed { leaf_row self.new leaf ≡ slice_set (leaf_row self.old leaf) thread 0 }
        ensures others { (other : Leaf) → other ≢ leaf → leaf_row self.new other ≡ leaf_row self.old other }
    {
        match self.place(leaf) {
            Some((index, key)) => {
                self.rows[key][thread] = 0;
                if is_idle(&self.rows[key]) {
                    self.rows.remove(key);
                    self.index.swap_remove_index(index);
                }
            }
            None => {}
        }
    }
}

/// Whether no thread holds anything by this row.
fn is_idle(row: &Row) -> bool
    ensures { IsTrue result ↔ (row.now ≡ zeros) }
{
    *row == NOBODY
}
