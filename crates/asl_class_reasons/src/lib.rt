//! Why members of a program share a class: steps, each an instance of a condition on legal classes, and chains of them.
#![tactic(auto)]

mod chains;
mod draft;
mod flow;
mod flows;
mod following;
mod join_numbers;
mod laws;
mod parting;
mod place;
mod reasons;
mod replay;
mod search;
mod settle;
mod step_ends;
mod straight;
mod waiting;
mod waking;
mod ways;

pub use chains::Chains;
pub use following::Following;
pub use laws::{chains_put_together, straight_chains_put_together};
pub use parting::parts;
pub use place::{Cause, Link, Place, Step};
pub use reasons::{Reasons, reasons_of};
pub use straight::StraightChain;
