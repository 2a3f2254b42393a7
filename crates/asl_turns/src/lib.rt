//! Tickets: numbers that threads draw from one shared word, each number once. `rule` says how that word may change.
#![tactic(auto)]

mod rule;
mod turns;

pub use turns::{TurnFault, TurnSeat, Turns};
