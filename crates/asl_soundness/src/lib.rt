//! Soundness of inferred locks: a program whose lists cover the locks that it needs never faults for a missing lock.
//! Nothing is computed here; the laws are functions that do nothing.
#![tactic(auto)]

pub mod laws;
pub mod structure_laws;
