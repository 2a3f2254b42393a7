//! Words of 64 bits, four at a time.
ghost use Rattle.std.specs.Prelude.{◌≡◌, ◌≤◌, ◌+◌, ◌%◌, ◌↔◌, IsTrue, length};
ghost use Rattle.asl_lane_sets.specs.Packed.{AreLanes, AreJoined, AreCleared, Differ, JoinsAt};

use std::simd::prelude::*;

/// The bits of a lane.
pub const LANE: usize = 64;

/// The lanes that are worked on at a time.
pub const LANES_OF_BLOCK: usize = 4;

/// The bits of so many lanes.
pub const BLOCK: usize = 256;

/// Joins each lane of `from`, which has no more lanes than `into`, to the lane at its place there, and tells whether one
/// changed.
#[inline]
pub fn merge_lanes(into: &mut [u64], from: &[u64]) -> bool
    requires no_longer { length from.now ≤ length into.old }
    requires blocks { length from.now % 4 ≡ 0 }
    ensures joined { AreJoined into.old from.now into.new }
    ensures grew { IsTrue result ↔ Differ into.old into.new }
    ensures lanes { AreLanes into.old × AreLanes from.now }
{
    let mut grew = false;
    for block in 0..from.len() / LANES_OF_BLOCK {
        if merge_block(into, from, block * LANES_OF_BLOCK) {
            grew = true;
        }
    }
    grew
}

/// Takes the bits of `from` away from the lane at the same place, wherever there is one.
#[inline]
pub fn clear_lanes(lanes: &mut [u64], from: &[u64])
    ensures { AreCleared lanes.old from.now lanes.new }
{
    for place in 0..lanes.len().min(from.len()) {
        lanes[place] &= !from[place];
    }
}

/// Whether each bit of `low` is one of `high`.
#[inline]
pub fn are_within(low: &[u64], high: &[u64]) -> bool
    requires same_length { length low.now ≡ length high.now }
    requires blocks { length low.now % 4 ≡ 0 }
    ensures within { IsTrue result ↔ AreJoined high.now low.now high.now }
    ensures lanes { AreLanes low.now × AreLanes high.now }
{
    for block in 0..low.len() / LANES_OF_BLOCK {
        let at = block * LANES_OF_BLOCK;
        let above = u64x4::from_slice(&high[at..]);
        if differ(above, joined(above, u64x4::from_slice(&low[at..]))) {
            return false;
        }
    }
    true
}

/// Joins the lanes of `from` from a place on to those of `into`, and tells whether one changed.
#[inline]
fn merge_block(into: &mut [u64], from: &[u64], at: usize) -> bool
    requires into_long { at + 4 ≤ length into.old }
    requires from_long { at + 4 ≤ length from.now }
    ensures joined { JoinsAt at into.old from.now into.new }
    ensures grew { IsTrue result ↔ Differ into.old into.new }
{
    let before = u64x4::from_slice(&into[at..]);
    let after = joined(before, u64x4::from_slice(&from[at..]));
    after.copy_to_slice(&mut into[at..]);
    differ(before, after)
}

/// The bits of either.
fn joined(a: u64x4, b: u64x4) -> u64x4
    ensures { AreJoined a b result }
{
    a | b
}

/// Whether the lanes differ somewhere.
fn differ(a: u64x4, b: u64x4) -> bool
    ensures { IsTrue result ↔ Differ a b }
{
    a.simd_ne(b).to_bitmask() != 0
}
