//! Whether lock lists that were made by other means are enough for a program.
#![tactic(auto)]

mod bare_locks;
mod bare_reads;
mod check_analysis;
mod checked;
mod code_difference;
mod coded;
mod covered;
mod covers;
mod fault;
mod lacking;
mod lacks;
pub mod laws;
mod locks;
mod missing_locks;

pub use checked::check;
pub use code_difference::CodeDifference;
pub use fault::CheckFault;
pub use missing_locks::missing;
