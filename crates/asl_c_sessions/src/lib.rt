//! Sessions for C: a program and a debugger over it that records, in a handle that C keeps. `include/asl.h` declares the functions.
#![tactic(auto)]

mod kept;
mod opening;
mod pages;
mod session;
mod session_answers;
mod session_exports;
mod session_handle;
mod session_slot;
mod status;

pub use session_answers::Place;
pub use session_handle::Handle;
