//! The rows of codes: what each thread holds at the root, at each class and at each leaf.
ghost use Rattle.std.specs.Prelude.{◌≡◌, ◌≢◌, ℕ, ◌<◌, ◌≤◌, ◌+◌, true, false, length, All, IsTrue, IfOk};
ghost use Rattle.asl_mode_lanes.specs.declared.mode.Mode.TheVariants.{NL};
ghost use Rattle.asl_mode_lanes.specs.Row.{IsCode, mode_at};
ghost use Rattle.asl_lock_forest.specs.declared.node.Node.{Node};
ghost use Rattle.asl_lock_forest.specs.Node.{IsThere};
ghost use Rattle.asl_lock_forest.specs.Holding.{asked};
ghost use Rattle.asl_lock_forest.specs.Request.{IsOfClasses, names_once, asks_modes};
ghost use Rattle.asl_lock_forest.specs.Leaves.{zeros, width, HasRoom};
ghost use Rattle.asl_lock_forest.specs.Rows.{row_of, AreKept, IsFree, Blocks, Sets, Grants, Clears};

use crate::Node;
use crate::leaves::{Leaves, NOBODY, Row};
use asl_mode_lanes::{Mode, conflicts};
use std::alloc::{AllocError, Global};

/// How many codes are read at a time.
const LANES: usize = 16;

/// A row of codes for each node, one code a thread.
#[derive(Drop)]
pub struct Rows {
    /// The root's row.
    pub root: Row,
    /// The rows of the classes, by their numbers.
    pub classes: Vec<Row>,
    /// The rows of the leaves that some thread holds.
    pub leaves: Leaves,
}

impl Rows {
    /// No thread holds anything.
    pub fn new(alloc: Global, classes: u32) -> Result<Self, AllocError>
        ensures kept { IfOk result AreKept }
        ensures zeros { IfOk result (λ rows. (node : Node) → row_of rows node ≡ zeros) }
        ensures classes { IfOk result (λ rows. length rows.classes.items ≡ classes) }
    {
        let mut rows = Vec::with_capacity(alloc, classes as usize)?;
        for made in 0..classes {
            rows.push(NOBODY)?;
        }
        Ok(Rows {
            root: NOBODY,
            classes: rows,
            leaves: Leaves::new(alloc),
        })
    }

    /// The same row for each node.
    pub fn try_copy(&self, alloc: Global) -> Result<Self, AllocError>
        requires { AreKept self.now }
        ensures kept { IfOk result AreKept }
        ensures same { IfOk result (λ rows. (node : Node) → row_of rows node ≡ row_of self.now node) }
        ensures classes { IfOk result (λ rows. length rows.classes.items ≡ length self.now.classes.items) }
    {
        let mut classes = Vec::with_capacity(alloc, self.classes.len())?;
        for row in &self.classes {
            classes.push(*row)?;
        }
        Ok(Rows {
            root: self.root,
            classes,
            leaves: self.leaves.try_copy()?,
        })
    }

    /// The node's row.
    #[inline(always)]
    pub fn row(&self, node: Node) -> &Row
        requires kept { AreKept self.now }
        requires there { IsThere (length self.now.classes.items) node }
        ensures { result.now ≡ row_of self.now node }
    {
        match node {
            Node::Root => &self.root,
            Node::Class(class) => &self.classes[class as usize],
            Node::Leaf(cell, class) => self.leaves.row((cell.object, cell.offset, class)),
        }
    }

    /// The mode in which the thread holds the node.
    pub fn mode(&self, thread: u32, node: Node) -> Mode
        requires kept { AreKept self.now }
        requires there { IsThere (length self.now.classes.items) node }
        requires thread_there { thread < width }
        ensures { result ≡ mode_at (row_of self.now node) thread }
    {
        let row = self.row(node);
        Mode::of_code(row[thread as usize]).unwrap_or(Mode::NL)
    }

    /// Whether no other thread keeps this one from the mode at the node, where only the first threads, so many, hold something.
    pub fn is_free(&self, thread: u32, node: Node, want: Mode, threads: u32) -> bool
        requires kept { AreKept self.now }
        requires there { IsThere (length self.now.classes.items) node }
        requires few { threads ≤ width }
        requires nobody { (other : ℕ) → threads ≤ other → mode_at (row_of self.now node) other ≡ NL }
        ensures free { result ≡ true → IsFree self.now thread node want }
        ensures blocked { result ≡ false → Blocks self.now thread node want }
    {
        let row = self.row(node);
        conflicts(&row[..codes_read(threads)], thread as usize, want) == 0
    }

    /// Whether no other thread keeps this one from anything that it asks, where only the first threads, so many, hold something.
    pub fn can_grant(&self, thread: u32, request: &[(Node, Mode)], threads: u32) -> bool
        requires kept { AreKept self.now }
        requires there { IsOfClasses (length self.now.classes.items) request.now }
        requires distinct { IsTrue (names_once request.now) }
        requires few { threads ≤ width }
        requires nobody { (other : ℕ) (node : Node) → threads ≤ other → mode_at (row_of self.now node) other ≡ NL }
        ensures free { result ≡ true → All (λ ask. IsFree self.now thread ask.0 ask.1) request.now }
        ensures blocked { result ≡ false → (node : Node) × Blocks self.now thread node (asked request.now node) }
    {
        for ask in request {
            if !self.is_free(thread, ask.0, ask.1, threads) {
                return false;
            }
        }
        true
    }

    /// Writes the thread's code at the node.
    fn set(&mut self, thread: u32, node: Node, code: u8)
        requires kept { AreKept self.old }
        requires there { IsThere (length self.old.classes.items) node }
        requires thread_there { thread < width }
        requires is_code { IsCode code }
        requires holds { code ≢ 0 }
        requires room { HasRoom self.old.leaves 1 }
        ensures sets { Sets self.old thread node code self.new }
        ensures room { (more : ℕ) → HasRoom self.old.leaves (more + 1) → HasRoom self.new.leaves more }
    {
        match node {
            Node::Root => self.root[thread as usize] = code,
            Node::Class(class) => self.classes[class as usize][thread as usize] = code,
            Node::Leaf(cell, class) => {
                self.leaves
                    .set((cell.object, cell.offset, class), thread as usize, code)
            }
        }
    }

    /// Takes the thread's mode from the node.
    fn clear(&mut self, thread: u32, node: Node)
        requires kept { AreKept self.old }
        requires there { IsThere (length self.old.classes.items) node }
        requires thread_there { thread < width }
        ensures { Sets self.old thread node 0 self.new }
    {
        match node {
            Node::Root => self.root[thread as usize] = 0,
            Node::Class(class) => self.classes[class as usize][thread as usize] = 0,
            Node::Leaf(cell, class) => {
                self.leaves
                    .clear((cell.object, cell.offset, class), thread as usize)
            }
        }
    }

    /// Writes what the thread asks.
    pub fn grant(&mut self, thread: u32, request: &[(Node, Mode)])
        requires kept { AreKept self.old }
        requires there { IsOfClasses (length self.old.classes.items) request.now }
        requires thread_there { thread < width }
        requires distinct { IsTrue (names_once request.now) }
        requires modes { IsTrue (asks_modes request.now) }
        requires room { HasRoom self.old.leaves (length request.now) }
        ensures { Grants self.old thread request.now self.new }
    {
        for ask in request {
            self.set(thread, ask.0, ask.1.code());
        }
    }

    /// Takes away what the thread holds at these nodes.
    pub fn release(&mut self, thread: u32, held: &[(Node, Mode)])
        requires kept { AreKept self.old }
        requires there { IsOfClasses (length self.old.classes.items) held.now }
        requires thread_there { thread < width }
        ensures { Clears self.old thread held.now self.new }
    {
        for ask in held {
            self.clear(thread, ask.0);
        }
    }
}

/// How many codes are read of a row where only the first threads, so many, hold something.
fn codes_read(threads: u32) -> usize
    requires { threads ≤ width }
    ensures all { threads ≤ result }
    ensures there { result ≤ width }
{
    (threads as usize).div_ceil(LANES) * LANES
}
