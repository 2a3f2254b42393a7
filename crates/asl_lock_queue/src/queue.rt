//! The queue: who holds what, and who waits for what.
ghost use Rattle.std.specs.Prelude.{◌≡◌, ◌≢◌, ℕ, ◌<◌, ◌≤◌, ◌↔◌, [], ◌∷◌, ◌++◌, IsTrue, false, All, IfOk, OnOk, OnErr, length, take, drop, vec_capacity, nat_lt, if◌then◌else◌};
ghost use Rattle.asl_code.specs.Versions.{newest_threads};
ghost use Rattle.asl_mode_lanes.specs.Mode.{is_at_most};
ghost use Rattle.asl_lock_forest.specs.Holding.{held, asked, no_holding, HoldsNothing, grant, covering_mode, Covers};
ghost use Rattle.asl_lock_queue.specs.Waiting.{MayGo, IsKept, IsAbsent, is_absent};
ghost use Rattle.asl_lock_queue.specs.QueueState.{IsAskable, IsQueue};
ghost use Rattle.asl_lock_queue.specs.Served.{IsServed};

use crate::seats::{Seats, no_lists, widen};
use asl_code::{Cell, Effect};
use asl_lock_forest::Node;
use asl_mode_lanes::Mode;
use std::alloc::{AllocError, Global};
use std::marker::Model;

/// A lock forest over a number of classes, in which a number of threads hold nodes, or wait for them in a queue.
///
/// Whoever waits has somebody in its way: a thread that holds what clashes, or one that came earlier and waits for what clashes.
#[derive(Drop)]
pub struct Queue {
    seats: Seats,
}

impl Model for Queue {
    ghost use Rattle.asl_lock_forest.specs.Lists.{holding_of};
    ghost use Rattle.asl_lock_queue.specs.QueueState.{QueueState, coded_queue};
    ghost use Rattle.asl_lock_queue.specs.Lines.{held_of, waiters_of, IsSound};

    ghost Value = { QueueState };

    ghost coded = { coded_queue };

    ghost view = { λ q. record { classes = q.seats.classes; threads = q.seats.threads; room = q.seats.room; holding = holding_of (held_of q.seats); waiting = waiters_of q.seats } };

    ghost invariant = { λ q. IsSound q.seats };
}

impl Queue {
    /// The queue over classes 0 to `classes - 1` in which none of the threads holds anything, or waits.
    ///
    /// # Errors
    ///
    /// An allocation failed.
    pub fn new(alloc: Global, classes: u32, threads: u32) -> Result<Self, AllocError>
        ensures classes { IfOk result (λ queue. queue.classes ≡ classes) }
        ensures threads { IfOk result (λ queue. queue.threads ≡ threads) }
        ensures room { IfOk result (λ queue. queue.room ≡ 0) }
        ensures holding { IfOk result (λ queue. queue.holding ≡ no_holding) }
        ensures waiting { IfOk result (λ queue. queue.waiting ≡ []) }
        ensures queue { IfOk result IsQueue }
    {
        let held = no_lists(alloc, threads)?;
        let wanted = no_lists(alloc, threads)?;
        let line = Vec::with_capacity(alloc, threads as usize)?;
        Ok(Queue {
            seats: Seats {
                classes,
                threads,
                room: 0,
                held,
                wanted,
                line,
            },
        })
    }

    /// Makes room: from then on a request of at most so many nodes needs no memory.
    ///
    /// # Errors
    ///
    /// An allocation failed, and there was less room. Then there is as much room as before.
    pub fn reserve(&mut self, nodes: usize) -> Result<(), AllocError>
        ensures room { OnOk result (self.new.room ≡ (if nat_lt self.old.room nodes then nodes else self.old.room)) }
        ensures less { OnErr result (self.old.room < nodes) }
        ensures err { OnErr result (self.new ≡ self.old) }
        ensures classes { self.new.classes ≡ self.old.classes }
        ensures threads { self.new.threads ≡ self.old.threads }
        ensures holding { self.new.holding ≡ self.old.holding }
        ensures waiting { self.new.waiting ≡ self.old.waiting }
    {
        if self.seats.room < nodes {
            widen(&mut self.seats.held, nodes)?;
            widen(&mut self.seats.wanted, nodes)?;
            self.seats.room = nodes;
        }
        Ok(())
    }

    /// Grants all that is asked where nobody is in the way, and answers `true`; else the thread waits behind all others.
    ///
    /// The request is taken out of the vector, which has as much room as the queue afterwards.
    pub fn acquire(&mut self, thread: u32, request: &mut Vec<(Node, Mode)>) -> bool
        requires thread_there { thread < self.old.threads }
        requires nothing_held { HoldsNothing self.old.holding thread }
        requires not_waiting { IsAbsent thread self.old.waiting }
        requires askable { IsAskable self.old.classes request.old.items }
        requires room { self.old.room ≤ vec_capacity request.old }
        ensures granted { IsTrue result ↔ MayGo self.old.holding self.old.waiting thread request.old.items }
        ensures kept { result ≡ false → IsKept self.old.holding self.old.waiting thread request.old.items }
        ensures holding { self.new.holding ≡ (if result then grant self.old.holding thread request.old.items else self.old.holding) }
        ensures waiting { self.new.waiting ≡ (if result then self.old.waiting else self.old.waiting ++ (thread, request.old.items) ∷ []) }
        ensures classes { self.new.classes ≡ self.old.classes }
        ensures threads { self.new.threads ≡ self.old.threads }
        ensures room { self.new.room ≡ self.old.room }
        ensures taken { request.new.items ≡ [] }
        ensures wide { self.old.room ≤ vec_capacity request.new }
        ensures queue { IsQueue self.new }
    {
        let ahead = self.seats.line.len();
        let goes = self.seats.may_go(ahead, thread, request.as_slice());
        if goes {
            self.seats.take(thread, request);
        } else {
            self.seats.join(thread, request);
        }
        goes
    }

    /// Takes away all that the thread holds, and its place in the queue; then everybody goes on in whose way nobody is, first
    /// come first. Writes the numbers of those who go on: how many they are.
    pub fn release(&mut self, thread: u32, named: &mut [u32]) -> usize
        requires thread_there { thread < self.old.threads }
        requires room { self.old.threads ≤ length named.old }
        ensures served { IsServed self.old thread (take result named.new) self.new }
        ensures few { result ≤ length named.new }
        ensures rest { drop result named.new ≡ drop result named.old }
        ensures classes { self.new.classes ≡ self.old.classes }
        ensures threads { self.new.threads ≡ self.old.threads }
        ensures room { self.new.room ≡ self.old.room }
        ensures queue { IsQueue self.new }
    {
        self.seats.leave(thread);
        self.seats.serve(named)
    }

    /// How many classes there are.
    pub fn classes(&self) -> u32
        ensures { result ≡ self.now.classes }
    {
        self.seats.classes
    }

    /// How many threads there are.
    pub fn threads(&self) -> u32
        ensures { result ≡ self.now.threads }
    {
        self.seats.threads
    }

    /// How many nodes a request may name with no need of memory.
    pub fn room(&self) -> usize
        ensures { result ≡ self.now.room }
    {
        self.seats.room
    }

    /// Whether the thread does not wait.
    pub fn is_absent(&self, thread: u32) -> bool
        ensures value { result ≡ is_absent thread self.now.waiting }
        ensures told { IsTrue result → IsAbsent thread self.now.waiting }
    {
        self.seats.is_out(thread)
    }

    /// Whether the thread holds nothing.
    pub fn holds_nothing(&self, thread: u32) -> bool
        requires { thread < self.now.threads }
        ensures { IsTrue result ↔ HoldsNothing self.now.holding thread }
    {
        self.seats.held[thread as usize].is_empty()
    }

    /// The mode in which the thread holds the node.
    pub fn mode(&self, thread: u32, node: Node) -> Mode
        requires { thread < self.now.threads }
        ensures value { result ≡ held self.now.holding thread node }
        ensures queue { IsQueue self.now }
    {
        listed(self.seats.held[thread as usize].as_slice(), node)
    }

    /// Whether the thread covers the cell, of an object of the class, for the effect: by what it holds at the
    /// cell's leaf, at the class or at the root.
    pub fn covers(&self, thread: u32, cell: Cell, class: u16, effect: Effect) -> bool
        requires { thread < self.now.threads }
        ensures { IsTrue result ↔ Covers self.now.holding thread cell class effect }
    {
        allows(self.mode(thread, Node::Leaf(cell, class)), effect)
            || allows(self.mode(thread, Node::Class(class)), effect)
            || allows(self.mode(thread, Node::Root), effect)
    }
}

/// The mode that the list has at the node.
fn listed(own: &[(Node, Mode)], node: Node) -> Mode
    ensures { result ≡ asked own.now node }
{
    for ask in own {
        if ask.0.is_same(node) {
            return ask.1;
        }
    }
    Mode::NL
}

/// Whether who holds a node in this mode covers what is below it for the effect.
fn allows(mode: Mode, effect: Effect) -> bool
    ensures { result ≡ is_at_most (covering_mode effect) mode }
{
    match effect {
        Effect::Read => matches!(mode, Mode::S | Mode::SIX | Mode::X),
        Effect::Write => matches!(mode, Mode::X),
    }
}
