//! Lanes of which the first four lie in the value itself, so that a set of few numbers needs no allocation.
ghost use Rattle.std.specs.Prelude.{◌≡◌, ◌<◌, ◌≤◌, ◌+◌, ◌-◌, ◌%◌, ◌++◌, ◌↔◌, IsTrue, IfOk, OnOk, OnErr, length, replicate, slice_index, slice_set};
ghost use Rattle.asl_lane_sets.specs.Packed.{AreLanes, AreJoined, AreCleared, Differ};

use crate::lanes::{LANES_OF_BLOCK, are_within, clear_lanes, merge_lanes};
use std::alloc::{AllocError, Global};
use std::marker::Model;

/// The first four lanes, and whole blocks of four after them. Contracts see the list of all.
#[derive(Drop)]
pub(crate) struct LaneVec {
    first: [u64; LANES_OF_BLOCK],
    more: Vec<u64>,
}

impl Model for LaneVec {
    ghost use Rattle.std.specs.Prelude.{◌++◌, ℕ, List};
    ghost use Rattle.asl_lane_sets.specs.Packed.{AreWholeBlocks};

    ghost Value = { List ℕ };

    ghost view = { λ v. v.first ++ v.more.items };

    ghost invariant = { λ v. AreWholeBlocks v.first v.more.items };
}

impl LaneVec {
    /// The first four lanes, without bits.
    pub(crate) fn new(alloc: Global) -> LaneVec
        ensures { result ≡ replicate 4 0 }
    {
        LaneVec {
            first: [0; LANES_OF_BLOCK],
            more: Vec::new(alloc),
        }
    }

    /// The first four lanes and so many more, all without bits.
    pub(crate) fn zeros(alloc: Global, more: usize) -> Result<LaneVec, AllocError>
        requires { more % 4 ≡ 0 }
        ensures { IfOk result (λ lanes. lanes ≡ replicate (4 + more) 0) }
    {
        let more = vec![in alloc; 0; more]?;
        Ok(LaneVec {
            first: [0; LANES_OF_BLOCK],
            more,
        })
    }

    /// How many lanes there are.
    pub(crate) fn len(&self) -> usize
        ensures { result ≡ length self.now }
    {
        LANES_OF_BLOCK + self.more.len()
    }

    /// The lane at a place.
    #[inline]
    pub(crate) fn lane(&self, place: usize) -> u64
        requires { place < length self.now }
        ensures { result ≡ slice_index self.now place }
    {
        if place < LANES_OF_BLOCK {
            return self.first[place];
        }
        self.more[place - LANES_OF_BLOCK]
    }

    /// Puts a lane in the place of another.
    #[inline]
    pub(crate) fn put(&mut self, place: usize, lane: u64)
        requires { place < length self.old }
        ensures { self.new ≡ slice_set self.old place lane }
    {
        if place < LANES_OF_BLOCK {
            self.first[place] = lane;
            return;
        }
        self.more[place - LANES_OF_BLOCK] = lane;
    }

    /// Adds lanes without bits, so that there are so many after the first four.
    pub(crate) fn grow(&mut self, more: usize) -> Result<(), AllocError>
        requires long { length self.old ≤ 4 + more }
        requires blocks { more % 4 ≡ 0 }
        ensures ok { OnOk result (self.new ≡ self.old ++ replicate (4 + more - length self.old) 0) }
        ensures err { OnErr result (self.new ≡ self.old) }
    {
        self.more.resize(more, 0)?;
        Ok(())
    }

    /// Joins the lanes of another list, which is no longer, to those at the same places, and tells whether one changed.
    #[inline]
    pub(crate) fn merge(&mut self, other: &LaneVec) -> bool
        requires { length other.now ≤ length self.old }
        ensures joined { AreJoined self.old other.now self.new }
        ensures grew { IsTrue result ↔ Differ self.old self.new }
        ensures lanes { AreLanes self.old × AreLanes other.now }
    {
        let first_grew = merge_lanes(&mut self.first, &other.first);
        let more_grew = merge_lanes(&mut self.more, &other.more);
        first_grew || more_grew
    }

    /// Takes the bits of the lanes of another list away from those at the same places.
    #[inline]
    pub(crate) fn clear(&mut self, other: &LaneVec)
        ensures { AreCleared self.old other.now self.new }
    {
        clear_lanes(&mut self.first, &other.first);
        clear_lanes(&mut self.more, &other.more);
    }

    /// Whether each bit of the lanes is one of another list that is as long.
    #[inline]
    pub(crate) fn is_within(&self, other: &LaneVec) -> bool
        requires { length self.now ≡ length other.now }
        ensures within { IsTrue result ↔ AreJoined other.now self.now other.now }
        ensures lanes { AreLanes self.now × AreLanes other.now }
    {
        let first_is = are_within(&self.first, &other.first);
        let more_is = are_within(&self.more, &other.more);
        first_is && more_is
    }

    /// The same lanes.
    pub(crate) fn copy(&self) -> Result<LaneVec, AllocError>
        ensures { IfOk result (λ lanes. lanes ≡ self.now) }
    {
        Ok(LaneVec {
            first: self.first,
            more: self.more.clone()?,
        })
    }

    /// Makes the lanes the same as others. Where an allocation failed there are four without bits.
    #[inline]
    pub(crate) fn copy_from(&mut self, other: &LaneVec) -> Result<(), AllocError>
        ensures ok { OnOk result (self.new ≡ other.now) }
        ensures err { OnErr result (self.new ≡ replicate 4 0) }
    {
        self.first = [0; LANES_OF_BLOCK];
        self.more.clear();
        self.more.extend_from_slice(&other.more)?;
        self.first = other.first;
        Ok(())
    }
}
