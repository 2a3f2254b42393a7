//! A queue for C, and a vector in which the request of a call is made.
ghost use Rattle.std.specs.Prelude.{◌≡◌, ◌≢◌, ◌<◌, ◌≤◌, ◌++◌, [], ◌∷◌, true, false, IsTrue, IfOk, OnOk, OnErr, length, map, take, drop, nat_lt, vec_capacity, if◌then◌else◌};
ghost use Rattle.asl_mode_lanes.specs.Row.{mode_of};
ghost use Rattle.asl_lock_forest.specs.Holding.{no_holding, grant, HoldsNothing};
ghost use Rattle.asl_lock_queue.specs.Waiting.{MayGo, IsKept, IsAbsent};
ghost use Rattle.asl_lock_queue.specs.QueueState.{IsQueue, IsAskable};
ghost use Rattle.asl_lock_queue.specs.Served.{IsServed};
ghost use Rattle.asl_lock_queue.specs.Asks.{ask_of};
ghost use Rattle.asl_c_forest.specs.QueueStatus.{queue_fault};

use crate::c_request::read_into;
use crate::queue_fits::{queue_fault, reads_well};
use asl_lock_forest::Node;
use asl_lock_queue::{Ask, Queue};
use asl_mode_lanes::Mode;
use std::alloc::{AllocError, Global};
use std::marker::Model;

/// A queue, and a vector with as much room as its lists, in which nothing stands between two calls.
#[derive(Drop)]
pub struct Desk {
    queue: Queue,
    asks: Vec<(Node, Mode)>,
}

impl Model for Desk {
    ghost use Rattle.std.specs.Prelude.{◌≡◌, ◌≤◌, [], vec_capacity};
    ghost use Rattle.asl_lock_queue.specs.QueueState.{QueueState, coded_queue};

    ghost Value = { QueueState };

    ghost coded = { coded_queue };

    ghost view = { λ d. d.queue };

    ghost invariant = { λ d. (d.asks.items ≡ []) × (d.queue.room ≤ vec_capacity d.asks) };
}

impl Desk {
    /// A queue in which nobody holds anything, or waits.
    ///
    /// # Errors
    ///
    /// An allocation failed.
    pub fn new(alloc: Global, classes: u32, threads: u32) -> Result<Self, AllocError>
        ensures classes { IfOk result (λ desk. desk.classes ≡ classes) }
        ensures threads { IfOk result (λ desk. desk.threads ≡ threads) }
        ensures room { IfOk result (λ desk. desk.room ≡ 0) }
        ensures holding { IfOk result (λ desk. desk.holding ≡ no_holding) }
        ensures waiting { IfOk result (λ desk. desk.waiting ≡ []) }
    {
        let queue = Queue::new(alloc, classes, threads)?;
        Ok(Desk {
            queue,
            asks: Vec::new(alloc),
        })
    }

    /// The queue.
    pub fn queue(&self) -> &Queue
        ensures { result.now ≡ self.now }
    {
        &self.queue
    }

    /// Makes room: from then on a request of at most so many nodes needs no memory.
    ///
    /// # Errors
    ///
    /// An allocation failed, and there was less room. Then nothing has changed.
    pub fn reserve(&mut self, nodes: usize) -> Result<(), AllocError>
        ensures room { OnOk result (self.new.room ≡ (if nat_lt self.old.room nodes then nodes else self.old.room)) }
        ensures less { OnErr result (self.old.room < nodes) }
        ensures err { OnErr result (self.new ≡ self.old) }
        ensures classes { self.new.classes ≡ self.old.classes }
        ensures threads { self.new.threads ≡ self.old.threads }
        ensures holding { self.new.holding ≡ self.old.holding }
        ensures waiting { self.new.waiting ≡ self.old.waiting }
    {
        if self.queue.room() < nodes {
            self.asks.reserve(nodes)?;
        }
        self.queue.reserve(nodes)
    }

    /// Makes the request, grants it or lets the thread wait for it: 0 or 1, or the status of the first thing that is wrong.
    pub fn acquire(&mut self, thread: u32, asks: &[Ask]) -> u32
        ensures fault { queue_fault self.old thread asks.now ≢ 0 → result ≡ queue_fault self.old thread asks.now }
        ensures done { queue_fault self.old thread asks.now ≡ 0 → result ≤ 2 }
        ensures other { result ≢ 3 }
        ensures memory { result ≡ 2 → self.old.room < length asks.now }
        ensures may { result ≡ 0 → MayGo self.old.holding self.old.waiting thread (map ask_of asks.now) }
        ensures granted { result ≡ 0 → self.new.holding ≡ grant self.old.holding thread (map ask_of asks.now) }
        ensures stay { result ≡ 0 → self.new.waiting ≡ self.old.waiting }
        ensures waits { result ≡ 1 → IsKept self.old.holding self.old.waiting thread (map ask_of asks.now) }
        ensures last { result ≡ 1 → self.new.waiting ≡ self.old.waiting ++ (thread, map ask_of asks.now) ∷ [] }
        ensures held { result ≡ 1 → self.new.holding ≡ self.old.holding }
        ensures unchanged { 1 < result → self.new ≡ self.old }
        ensures classes { self.new.classes ≡ self.old.classes }
        ensures threads { self.new.threads ≡ self.old.threads }
        ensures room { self.new.room ≡ self.old.room }
    {
        let status = if asks.len() <= self.queue.room() {
            take_in(&self.queue, &mut self.asks, thread, asks)
        } else {
            make_room(&self.queue, &mut self.asks, thread, asks)
        };
        if status != 0 {
            return status;
        }
        u32::from(!self.queue.acquire(thread, &mut self.asks))
    }

    /// Takes away all that the thread holds and its place in the queue, and writes who goes on: how many they are.
    pub fn release(&mut self, thread: u32, named: &mut [u32]) -> usize
        requires thread_there { thread < self.old.threads }
        requires room { self.old.threads ≤ length named.old }
        ensures served { IsServed self.old thread (take result named.new) self.new }
        ensures rest { drop result named.new ≡ drop result named.old }
        ensures classes { self.new.classes ≡ self.old.classes }
        ensures threads { self.new.threads ≡ self.old.threads }
        ensures room { self.new.room ≡ self.old.room }
    {
        self.queue.release(thread, named)
    }
}

/// Reads what is asked, for which there is room, and answers 0; or why the thread cannot ask it: the status of the first thing that is wrong.
/// What can be asked is judged as it is read; what is wrong of the rest is looked for then.
fn take_in(queue: &Queue, request: &mut Vec<(Node, Mode)>, thread: u32, asks: &[Ask]) -> u32
    requires empty { request.old.items ≡ [] }
    requires fits { length asks.now ≤ vec_capacity request.old }
    ensures fault { queue_fault queue.now thread asks.now ≢ 0 → result ≡ queue_fault queue.now thread asks.now }
    ensures done { queue_fault queue.now thread asks.now ≡ 0 → result ≤ 2 }
    ensures other { (result ≢ 1) × (result ≢ 3) }
    ensures memory { result ≡ 2 → vec_capacity request.old < length asks.now }
    ensures there { result ≡ 0 → thread < queue.now.threads }
    ensures askable { result ≡ 0 → IsAskable queue.now.classes (map ask_of asks.now) }
    ensures nothing { result ≡ 0 → HoldsNothing queue.now.holding thread }
    ensures absent { result ≡ 0 → IsAbsent thread queue.now.waiting }
    ensures read { result ≡ 0 → request.new.items ≡ map ask_of asks.now }
    ensures empty { result ≢ 0 → request.new.items ≡ [] }
    ensures room { vec_capacity request.old ≤ vec_capacity request.new }
{
    if reads_well(queue, thread, asks, request) {
        return 0;
    }
    request.clear();
    make_room(queue, request, thread, asks)
}

/// Judges what is asked before it makes room for it, so that nobody gets memory for what he cannot ask; answers as the one above, and 2 where
/// memory is refused.
fn make_room(queue: &Queue, request: &mut Vec<(Node, Mode)>, thread: u32, asks: &[Ask]) -> u32
    requires empty { request.old.items ≡ [] }
    ensures fault { queue_fault queue.now thread asks.now ≢ 0 → result ≡ queue_fault queue.now thread asks.now }
    ensures done { queue_fault queue.now thread asks.now ≡ 0 → result ≤ 2 }
    ensures other { (result ≢ 1) × (result ≢ 3) }
    ensures memory { result ≡ 2 → vec_capacity request.old < length asks.now }
    ensures there { result ≡ 0 → thread < queue.now.threads }
    ensures askable { result ≡ 0 → IsAskable queue.now.classes (map ask_of asks.now) }
    ensures nothing { result ≡ 0 → HoldsNothing queue.now.holding thread }
    ensures absent { result ≡ 0 → IsAbsent thread queue.now.waiting }
    ensures read { result ≡ 0 → request.new.items ≡ map ask_of asks.now }
    ensures empty { result ≢ 0 → request.new.items ≡ [] }
    ensures room { vec_capacity request.old ≤ vec_capacity request.new }
{
    let fault = queue_fault(queue, thread, asks);
    if fault != 0 {
        return fault;
    }
    if read_into(request, asks).is_err() {
        request.clear();
        return 2;
    }
    0
}
