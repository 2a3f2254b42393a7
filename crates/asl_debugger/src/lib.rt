//! A debugger over a journal: the machine at any position of the run, steps to and fro, and breakpoints.
#![tactic(auto)]

mod breakpoints;
mod checkpoints;
mod debugger;
mod fault;
mod stops;
mod trail;

pub use debugger::{Debugger, PausedDebugger};
pub use fault::{DebugFault, StepFault};
