//! The lists of the threads, by their numbers: what each holds and what each wants; and the line of those who wait.
ghost use Rattle.std.specs.Prelude.{◌≡◌, ℕ, ◌<◌, ◌≤◌, ◌+◌, ◌==◌, not, [], ◌∷◌, ◌++◌, IsTrue, false, All, Any, IfOk, OnOk, OnErr, length, map, filter, take, drop, replicate, slice_index_or, slice_set, vec_capacity};
ghost use Rattle.std.specs.List.{list_all};
ghost use Rattle.asl_lock_forest.specs.Holding.{CanGrant};
ghost use Rattle.asl_lock_forest.specs.Request.{IsRefusedRequest};
ghost use Rattle.asl_lock_forest.specs.Lists.{holding_of};
ghost use Rattle.asl_lock_queue.specs.Order.{is_rising};
ghost use Rattle.asl_lock_queue.specs.Waiting.{GoTogether, Clash, MayGo, IsKept};
ghost use Rattle.asl_lock_queue.specs.Lines.{waiting_of, held_of, wanted_of, waiters_of, IsLined, HasRoom};
ghost use Rattle.asl_lock_queue.specs.Serving.{IsLineServed};

use crate::together::go_together;
use asl_lock_forest::Node;
use asl_mode_lanes::Mode;
use std::alloc::{AllocError, Global};

/// The nodes and modes of each thread, by its number.
pub type Lists = Vec<Vec<(Node, Mode)>>;

/// What each thread holds or wants, and who waits, first come first.
#[derive(Drop)]
pub struct Seats {
    pub classes: u32,
    pub threads: u32,
    /// How many nodes each list has room for.
    pub room: usize,
    pub held: Lists,
    pub wanted: Lists,
    pub line: Vec<u32>,
}

/// A list for each thread, with nothing in it.
pub fn no_lists(alloc: Global, threads: u32) -> Result<Lists, AllocError>
    ensures { IfOk result (λ lists. map (λ v. v.items) lists.items ≡ replicate threads []) }
{
    let mut lists = Vec::with_capacity(alloc, threads as usize)?;
    for made in 0..threads {
        lists.push(Vec::new(alloc))?;
    }
    Ok(lists)
}

/// Makes capacity in each list for so many nodes.
pub fn widen(lists: &mut Lists, nodes: usize) -> Result<(), AllocError>
    ensures same { map (λ v. v.items) lists.new.items ≡ map (λ v. v.items) lists.old.items }
    ensures wide { OnOk result (All (λ v. nodes ≤ vec_capacity v) lists.new.items) }
    ensures kept { (room : ℕ) → All (λ v. room ≤ vec_capacity v) lists.old.items → All (λ v. room ≤ vec_capacity v) lists.new.items }
{
    for at in 0..lists.len() {
        lists[at].reserve(nodes)?;
    }
    Ok(())
}

impl Seats {
    /// Whether the thread is not in the line.
    pub fn is_out(&self, thread: u32) -> bool
        ensures { result ≡ list_all (λ u. not (u == thread)) self.now.line.items }
    {
        for other in self.line.as_slice() {
            if *other == thread {
                return false;
            }
        }
        true
    }

    /// Whether what the thread asks goes with what all others hold.
    fn goes_with_holders(&self, thread: u32, request: &[(Node, Mode)]) -> bool
        requires rising { All (λ r. IsTrue (is_rising r)) (held_of self.now) }
        requires rises { IsTrue (is_rising request.now) }
        ensures free { IsTrue result → CanGrant (holding_of (held_of self.now)) thread request.now }
        ensures refused { result ≡ false → IsRefusedRequest (holding_of (held_of self.now)) thread request.now }
    {
        for other in 0..self.held.len() {
            if other != thread as usize && !go_together(request, self.held[other].as_slice()) {
                return false;
            }
        }
        true
    }

    /// Whether what is asked goes with what each of the first in the line wants, so many.
    fn goes_with_waiters(&self, ahead: usize, request: &[(Node, Mode)]) -> bool
        requires ahead { ahead ≤ length self.now.line.items }
        requires there { All (λ t. t < length self.now.wanted.items) self.now.line.items }
        requires rising { All (λ t. IsTrue (is_rising (slice_index_or (wanted_of self.now) t []))) self.now.line.items }
        requires rises { IsTrue (is_rising request.now) }
        ensures together { IsTrue result → All (λ w. GoTogether request.now w.1) (waiting_of (wanted_of self.now) (take ahead self.now.line.items)) }
        ensures clash { result ≡ false → Any (λ w. Clash request.now w.1) (waiting_of (wanted_of self.now) (take ahead self.now.line.items)) }
    {
        for place in 0..ahead {
            let other = self.line[place] as usize;
            if !go_together(request, self.wanted[other].as_slice()) {
                return false;
            }
        }
        true
    }

    /// Whether nobody is in the way of the thread behind the first in the line, so many.
    pub fn may_go(&self, ahead: usize, thread: u32, request: &[(Node, Mode)]) -> bool
        requires lined { IsLined self.now }
        requires ahead { ahead ≤ length self.now.line.items }
        requires rises { IsTrue (is_rising request.now) }
        ensures goes { IsTrue result → MayGo (holding_of (held_of self.now)) (waiting_of (wanted_of self.now) (take ahead self.now.line.items)) thread request.now }
        ensures kept { result ≡ false → IsKept (holding_of (held_of self.now)) (waiting_of (wanted_of self.now) (take ahead self.now.line.items)) thread request.now }
    {
        self.goes_with_holders(thread, request) && self.goes_with_waiters(ahead, request)
    }

    /// The thread, which holds nothing, gets what it asks.
    pub fn take(&mut self, thread: u32, request: &mut Vec<(Node, Mode)>)
        requires there { thread < length self.old.held.items }
        requires nothing { slice_index_or (held_of self.old) thread [] ≡ [] }
        requires room { self.old.room ≤ vec_capacity request.old }
        ensures held { held_of self.new ≡ slice_set (held_of self.old) thread request.old.items }
        ensures wanted { wanted_of self.new ≡ wanted_of self.old }
        ensures line { self.new.line.items ≡ self.old.line.items }
        ensures classes { self.new.classes ≡ self.old.classes }
        ensures threads { self.new.threads ≡ self.old.threads }
        ensures room { self.new.room ≡ self.old.room }
        ensures taken { request.new.items ≡ [] }
        ensures wide { HasRoom self.old → HasRoom self.new }
        ensures request { HasRoom self.old → self.old.room ≤ vec_capacity request.new }
    {
        std::mem::swap(&mut self.held[thread as usize], request);
    }

    /// The thread, which wants nothing yet, waits behind all others for what it asks.
    pub fn join(&mut self, thread: u32, request: &mut Vec<(Node, Mode)>)
        requires there { thread < length self.old.wanted.items }
        requires nothing { slice_index_or (wanted_of self.old) thread [] ≡ [] }
        requires room { self.old.room ≤ vec_capacity request.old }
        requires place { length self.old.line.items < vec_capacity self.old.line }
        ensures held { held_of self.new ≡ held_of self.old }
        ensures wanted { wanted_of self.new ≡ slice_set (wanted_of self.old) thread request.old.items }
        ensures line { self.new.line.items ≡ self.old.line.items ++ thread ∷ [] }
        ensures classes { self.new.classes ≡ self.old.classes }
        ensures threads { self.new.threads ≡ self.old.threads }
        ensures room { self.new.room ≡ self.old.room }
        ensures taken { request.new.items ≡ [] }
        ensures wide { HasRoom self.old → HasRoom self.new }
        ensures request { HasRoom self.old → self.old.room ≤ vec_capacity request.new }
    {
        std::mem::swap(&mut self.wanted[thread as usize], request);
        self.line.push_reserved(thread);
    }

    /// The thread gives back what it holds, what it wants and its place in the line.
    pub fn leave(&mut self, thread: u32)
        requires held { thread < length self.old.held.items }
        requires wanted { thread < length self.old.wanted.items }
        ensures held { held_of self.new ≡ slice_set (held_of self.old) thread [] }
        ensures wanted { wanted_of self.new ≡ slice_set (wanted_of self.old) thread [] }
        ensures line { self.new.line.items ≡ filter (λ u. not (u == thread)) self.old.line.items }
        ensures classes { self.new.classes ≡ self.old.classes }
        ensures threads { self.new.threads ≡ self.old.threads }
        ensures room { self.new.room ≡ self.old.room }
        ensures wide { HasRoom self.old → HasRoom self.new }
    {
        self.held[thread as usize].clear();
        self.wanted[thread as usize].clear();
        self.line.retain(|other| *other != thread);
    }

    /// The thread gets what it wants, and stands no more at this place of the line.
    fn let_go(&mut self, place: usize, thread: u32)
        requires place { place < length self.old.line.items }
        requires held { thread < length self.old.held.items }
        requires wanted { thread < length self.old.wanted.items }
        requires nothing { slice_index_or (held_of self.old) thread [] ≡ [] }
        ensures held { held_of self.new ≡ slice_set (held_of self.old) thread (slice_index_or (wanted_of self.old) thread []) }
        ensures wanted { wanted_of self.new ≡ slice_set (wanted_of self.old) thread [] }
        ensures line { self.new.line.items ≡ take place self.old.line.items ++ drop (place + 1) self.old.line.items }
        ensures classes { self.new.classes ≡ self.old.classes }
        ensures threads { self.new.threads ≡ self.old.threads }
        ensures room { self.new.room ≡ self.old.room }
        ensures wide { HasRoom self.old → HasRoom self.new }
    {
        let seat = thread as usize;
        std::mem::swap(&mut self.held[seat], &mut self.wanted[seat]);
        self.line.remove(place);
    }

    /// Lets everybody go on in whose way nobody is, first come first, and writes their numbers: how many they are.
    pub fn serve(&mut self, named: &mut [u32]) -> usize
        requires lined { IsLined self.old }
        requires room { self.old.threads ≤ length named.old }
        ensures served { IsLineServed self.old.classes self.old.threads (holding_of (held_of self.old)) (waiters_of self.old)
            (held_of self.new) (wanted_of self.new) self.new.line.items (take result named.new) }
        ensures few { result ≤ length named.new }
        ensures rest { drop result named.new ≡ drop result named.old }
        ensures classes { self.new.classes ≡ self.old.classes }
        ensures threads { self.new.threads ≡ self.old.threads }
        ensures room { self.new.room ≡ self.old.room }
        ensures wide { HasRoom self.old → HasRoom self.new }
    {
        let mut place = 0;
        let mut count = 0;
        while place < self.line.len() {
            let thread = self.line[place];
            if self.may_go(place, thread, self.wanted[thread as usize].as_slice()) {
                self.let_go(place, thread);
                named[count] = thread;
                count += 1;
            } else {
                place += 1;
            }
        }
        count
    }
}
