//! Sets of numbers below a length, kept as bits that are merged and compared by lanes.
#![tactic(auto)]

mod bits;
mod lane_vec;
mod lanes;

pub use bits::Bits;
