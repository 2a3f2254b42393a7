//! Atomicity: unless a section runs out of objects, a run of an image whose entries are guarded ends as one whose sections do not
//! interleave. Which entries are guarded, `docs/ATOMICITY.md` says ("The statement").
#![tactic(auto)]

pub mod laws;
