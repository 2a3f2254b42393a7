//! For C: each command of the program as one call over memory. `include/asl.h` declares it.
#![tactic(auto)]

mod call;
mod call_words;

pub use call::Answer;
