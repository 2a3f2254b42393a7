//! Refused memory in the inference: each call that may want memory goes through one harness, `asl_refused_memory`.
#![tactic(auto)]

#[cfg(test)]
mod analysis;
#[cfg(test)]
mod lists;
