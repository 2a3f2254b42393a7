//! Rows of codes, one a thread, read and written 16 at a time.
ghost use Rattle.std.specs.Prelude.{◌≡◌, ◌≢◌, ◌↔◌, ◌≤◌, ◌<◌, ◌+◌, ◌&&◌, nat_le, nat_lt, map, ℕ, length, slice_index, bit_or, IsBitSet, if◌then◌else◌};
ghost use Rattle.std.specs.Simd.Lanes.{chunk, mask_l};
ghost use Rattle.asl_mode_lanes.specs.Mode.{join_of};
ghost use Rattle.asl_mode_lanes.specs.Row.{IsRow, mode_at, IsConflict};
ghost use Rattle.asl_mode_lanes.specs.Clash.{against, clashes};

use crate::mode::Mode;
use std::simd::prelude::*;

/// How many codes are read and written at a time.
const LANES: usize = 16;

/// Joins each mode of the row `from` to the mode at its place in `into`.
pub fn join_rows(into: &mut [u8], from: &[u8])
    requires same_length { length into.old ≡ length from.now }
    requires into_codes { IsRow into.old }
    requires from_codes { IsRow from.now }
    ensures codes { IsRow into.new }
    ensures joined { (t : ℕ) → mode_at into.new t ≡ join_of (mode_at into.old t) (mode_at from.now t) }
    ensures len { length into.new ≡ length into.old }
{
    let whole = into.len() / LANES;
    for k in 0..whole {
        join_lanes(into, from, k * LANES);
    }
    for t in whole * LANES..into.len() {
        into[t] |= from[t];
    }
}

/// The threads, as a mask with bit t for thread t, whose mode in `row` keeps the thread `own` from `want`.
///
/// An `own` past the end of the row names none of its threads.
pub fn conflicts(row: &[u8], own: usize, want: Mode) -> u128
    requires fits { length row.now ≤ 128 }
    requires codes { IsRow row.now }
    ensures { (t : ℕ) → IsBitSet result t ↔ IsConflict row.now own want t }
{
    let bits = clashing_bits(want);
    let whole = row.len() / LANES;
    let mut mask = 0u128;
    for k in 0..whole {
        mask += u128::from(clashing_lanes(row, k * LANES, bits)) << (k * LANES);
    }
    for t in whole * LANES..row.len() {
        if row[t] & bits != 0 {
            mask += 1 << t;
        }
    }
    without(mask, own)
}

/// Joins the 16 modes of `from` that begin at `at` to those at their places in `into`.
fn join_lanes(into: &mut [u8], from: &[u8], at: usize)
    requires into_there { at + 16 ≤ length into.old }
    requires from_there { at + 16 ≤ length from.now }
    ensures joined { (t : ℕ) → slice_index into.new t
        ≡ (if nat_le at t && nat_lt t (at + 16) then bit_or (slice_index into.old t) (slice_index from.now t) else slice_index into.old t) }
    ensures len { length into.new ≡ length into.old }
{
    let joined = u8x16::from_slice(&into[at..]) | u8x16::from_slice(&from[at..]);
    joined.copy_to_slice(&mut into[at..]);
}

/// Which of the 16 codes that begin at `at` have one of these bits, as a mask.
fn clashing_lanes(row: &[u8], at: usize, bits: u8) -> u64
    requires { at + 16 ≤ length row.now }
    ensures { result ≡ mask_l (map (clashes bits) (chunk at 16 row.now)) }
{
    let found = u8x16::from_slice(&row[at..]) & u8x16::splat(bits);
    found.simd_ne(u8x16::splat(0)).to_bitmask()
}

/// The bits of which a code has one exactly where its mode keeps other threads from `want`.
fn clashing_bits(want: Mode) -> u8
    ensures { result ≡ against want }
{
    match want {
        Mode::NL => 0,
        Mode::IS => 8,
        Mode::IX => 12,
        Mode::S => 10,
        Mode::SIX => 14,
        Mode::X => 15,
    }
}

/// The mask without the bit of thread `own`, if it has one.
fn without(mask: u128, own: usize) -> u128
    ensures { (t : ℕ) → IsBitSet result t ↔ (IsBitSet mask t × (t ≢ own)) }
{
    if own < 128 { mask & !(1 << own) } else { mask }
}
