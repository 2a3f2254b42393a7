//! What the libraries for C have in common: a box in parts that a handle of C can keep, and a buffer of the caller.
#![tactic(auto)]

mod buffer;
mod open_box;

pub use buffer::put_front;
pub use open_box::OpenBox;
