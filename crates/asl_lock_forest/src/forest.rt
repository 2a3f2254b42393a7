//! The forest: who holds which node in which mode, with all that is asked granted at once or nothing of it.
ghost use Rattle.std.specs.Prelude.{◌≡◌, ◌≢◌, ℕ, ◌↔◌, ◌<◌, ◌≤◌, false, IsTrue, IfOk, OnOk, OnErr, if◌then◌else◌, map, length};
ghost use Rattle.asl_code.specs.Versions.{newest_threads};
ghost use Rattle.asl_mode_lanes.specs.Mode.{is_at_most};
ghost use Rattle.asl_lock_forest.specs.Node.{IsThere};
ghost use Rattle.asl_lock_forest.specs.Holding.{asked, held, no_holding, HoldsNothing, grant, release, CanGrant, covering_mode, Covers};
ghost use Rattle.asl_lock_forest.specs.Request.{names_once, asks_modes, asks_parents, IsOfClasses, IsRefusedRequest, GoesWithOthers, IsKeptFrom};

use crate::Node;
use crate::held_lists::{forget, listed, no_lists, note, same_lists};
use crate::rows::Rows;
use asl_code::{Cell, Effect};
use asl_mode_lanes::Mode;
use std::alloc::{AllocError, Global};
use std::marker::Model;

/// Where a thread holds at most so many nodes, its own list is read in place of the rows.
const FEW: usize = 8;

/// The lock tree over a number of classes, and what a number of threads hold in it.
///
/// What is held is lawful: modes of different threads at one node go together, and each node's parent is held
/// as its mode wants.
#[derive(Drop)]
pub struct Forest {
    classes: u32,
    threads: u32,
    rows: Rows,
    held: Vec<Vec<(Node, Mode)>>,
}

impl Model for Forest {
    ghost use Rattle.asl_lock_forest.specs.Held.{Held, coded_held};
    ghost use Rattle.std.specs.Prelude.{map};
    ghost use Rattle.asl_lock_forest.specs.Lists.{holding_of};
    ghost use Rattle.asl_lock_forest.specs.Sound.{IsSound};

    ghost Value = { Held };

    ghost coded = { coded_held };

    ghost view = { λ f. record { classes = f.classes; threads = f.threads; holding = holding_of (map (λ v. v.items) f.held.items) } };

    ghost invariant = { λ f. IsSound f.classes f.threads f.rows (map (λ v. v.items) f.held.items) };
}

impl Forest {
    ghost use Rattle.asl_lock_forest.specs.Held.{IsForest};
    ghost use Rattle.asl_lock_forest.specs.declared.node.Node.{Node};

    /// The forest over classes 0 to `classes - 1` in which none of the threads holds anything.
    ///
    /// # Errors
    ///
    /// An allocation failed.
    pub fn new(alloc: Global, classes: u32, threads: u32) -> Result<Self, AllocError>
        requires some_threads { 1 ≤ threads }
        requires few_threads { threads ≤ newest_threads }
        ensures classes { IfOk result (λ forest. forest.classes ≡ classes) }
        ensures threads { IfOk result (λ forest. forest.threads ≡ threads) }
        ensures holding { IfOk result (λ forest. forest.holding ≡ no_holding) }
        ensures nothing { IfOk result (λ forest. (thread : ℕ) → HoldsNothing forest.holding thread) }
        ensures lawful { IfOk result IsForest }
    {
        Ok(Forest {
            classes,
            threads,
            rows: Rows::new(alloc, classes)?,
            held: no_lists(alloc, threads)?,
        })
    }

    /// A forest over the same classes and threads, in which the same is held.
    ///
    /// # Errors
    ///
    /// An allocation failed.
    pub fn try_copy(&self, alloc: Global) -> Result<Self, AllocError>
        ensures { IfOk result (λ forest. forest ≡ self.now) }
    {
        Ok(Forest {
            classes: self.classes,
            threads: self.threads,
            rows: self.rows.try_copy(alloc)?,
            held: same_lists(alloc, self.held.as_slice())?,
        })
    }

    /// Grants all that is asked, and answers `true`; or grants nothing, where another thread is in the way.
    ///
    /// # Errors
    ///
    /// An allocation failed, something is asked, and no other thread is in the way. Then nothing is granted.
    pub fn try_acquire(&mut self, thread: u32, request: &[(Node, Mode)]) -> Result<bool, AllocError>
        requires thread_there { thread < self.old.threads }
        requires nothing_held { HoldsNothing self.old.holding thread }
        requires distinct { IsTrue (names_once request.now) }
        requires modes { IsTrue (asks_modes request.now) }
        requires parents { IsTrue (asks_parents request.now) }
        requires classes_there { IsOfClasses self.old.classes request.now }
        ensures granted { IfOk result (λ all. IsTrue all ↔ CanGrant self.old.holding thread request.now) }
        ensures refused { IfOk result (λ all. all ≡ false → IsRefusedRequest self.old.holding thread request.now) }
        ensures holding { IfOk result (λ all.
            self.new.holding ≡ (if all then grant self.old.holding thread request.now else self.old.holding)) }
        ensures classes { self.new.classes ≡ self.old.classes }
        ensures threads { self.new.threads ≡ self.old.threads }
        ensures unchanged { IfOk result (λ all. all ≡ false → self.new ≡ self.old) }
        ensures memory { OnErr result (CanGrant self.old.holding thread request.now) }
        ensures asks { OnErr result (0 < length request.now) }
        ensures err { OnErr result (self.new ≡ self.old) }
        ensures others { (other : ℕ) → other ≢ thread → HoldsNothing self.old.holding other → HoldsNothing self.new.holding other }
        ensures lawful { IsForest self.new }
    {
        if !self.rows.can_grant(thread, request, self.threads) {
            return Ok(false);
        }
        self.grant(thread, request)?;
        Ok(true)
    }

    /// Whether no other thread keeps this one from the mode at the node.
    pub fn is_free(&self, thread: u32, node: Node, want: Mode) -> bool
        requires class_there { IsThere self.now.classes node }
        ensures free { IsTrue result → GoesWithOthers self.now.holding thread node want }
        ensures refused { result ≡ false → IsKeptFrom self.now.holding thread node want }
    {
        self.rows.is_free(thread, node, want, self.threads)
    }

    /// Grants all that is asked, where no other thread is in the way.
    ///
    /// # Errors
    ///
    /// An allocation failed, and something is asked. Then nothing is granted.
    pub fn grant(&mut self, thread: u32, request: &[(Node, Mode)]) -> Result<(), AllocError>
        requires thread_there { thread < self.old.threads }
        requires nothing_held { HoldsNothing self.old.holding thread }
        requires distinct { IsTrue (names_once request.now) }
        requires modes { IsTrue (asks_modes request.now) }
        requires parents { IsTrue (asks_parents request.now) }
        requires classes_there { IsOfClasses self.old.classes request.now }
        requires free { CanGrant self.old.holding thread request.now }
        ensures holding { OnOk result (self.new.holding ≡ grant self.old.holding thread request.now) }
        ensures asks { OnErr result (0 < length request.now) }
        ensures classes { self.new.classes ≡ self.old.classes }
        ensures threads { self.new.threads ≡ self.old.threads }
        ensures err { OnErr result (self.new ≡ self.old) }
        ensures others { (other : ℕ) → other ≢ thread → HoldsNothing self.old.holding other → HoldsNothing self.new.holding other }
        ensures lawful { IsForest self.new }
    {
        let rows = &mut self.rows;
        if request.is_empty() {
            return Ok(());
        }
        rows.leaves.reserve(request.len())?;
        note(&mut self.held, thread, request)?;
        rows.grant(thread, request);
        Ok(())
    }

    /// Takes away all that the thread holds.
    pub fn release(&mut self, thread: u32)
        requires { thread < self.old.threads }
        ensures holding { self.new.holding ≡ release self.old.holding thread }
        ensures nothing { HoldsNothing self.new.holding thread }
        ensures others { (other : ℕ) → HoldsNothing self.old.holding other → HoldsNothing self.new.holding other }
        ensures classes { self.new.classes ≡ self.old.classes }
        ensures threads { self.new.threads ≡ self.old.threads }
        ensures lawful { IsForest self.new }
    {
        self.rows
            .release(thread, self.held[thread as usize].as_slice());
        forget(&mut self.held, thread);
    }

    /// The mode in which the thread holds the node.
    #[inline(always)]
    pub fn mode(&self, thread: u32, node: Node) -> Mode
        requires thread_there { thread < self.now.threads }
        requires class_there { IsThere self.now.classes node }
        ensures value { result ≡ held self.now.holding thread node }
        ensures lawful { IsForest self.now }
    {
        let own = self.held[thread as usize].as_slice();
        if own.len() <= FEW {
            listed(own, node)
        } else {
            self.rows.mode(thread, node)
        }
    }

    /// What the thread holds: the nodes, each with its mode, and no other node.
    pub fn held_nodes(&self, thread: u32) -> &[(Node, Mode)]
        requires { thread < self.now.threads }
        ensures { (node : Node) → asked result.now node ≡ held self.now.holding thread node }
    {
        self.held[thread as usize].as_slice()
    }

    /// Whether the thread covers the cell, of an object of the class, for the effect: by what it holds at the
    /// cell's leaf, at the class or at the root.
    pub fn covers(&self, thread: u32, cell: Cell, class: u16, effect: Effect) -> bool
        requires thread_there { thread < self.now.threads }
        requires class_there { class < self.now.classes }
        ensures covered { IsTrue result ↔ Covers self.now.holding thread cell class effect }
        ensures lawful { IsForest self.now }
    {
        self.reaches(thread, Node::Leaf(cell, class), effect)
            || self.reaches(thread, Node::Class(class), effect)
            || self.reaches(thread, Node::Root, effect)
    }

    /// Whether what the thread holds at the node covers what is below it for the effect.
    #[inline(always)]
    fn reaches(&self, thread: u32, node: Node, effect: Effect) -> bool
        requires thread_there { thread < self.now.threads }
        requires class_there { IsThere self.now.classes node }
        ensures told { result ≡ is_at_most (covering_mode effect) (held self.now.holding thread node) }
        ensures lawful { IsForest self.now }
    {
        allows(self.mode(thread, node), effect)
    }
}

/// Whether who holds a node in this mode covers what is below it for the effect.
fn allows(mode: Mode, effect: Effect) -> bool
    ensures { result ≡ is_at_most (covering_mode effect) mode }
{
    match effect {
        Effect::Read => matches!(mode, Mode::S | Mode::SIX | Mode::X),
        Effect::Write => matches!(mode, Mode::X),
    }
}
