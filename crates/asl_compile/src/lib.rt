//! From a source to a program that never faults for a missing lock.
#![tactic(auto)]

mod compiled;
mod fault;

pub use compiled::compile;
pub use fault::CompileFault;
