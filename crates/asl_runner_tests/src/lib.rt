//! Tests of tickets and of running workers, over their public calls. Eight workers in eight threads wait for one another and come to 64
//! events and a counter at 8; workers one after the other would never do so.
#![tactic(auto)]

#[cfg(test)]
mod memory;
#[cfg(test)]
mod runs;
#[cfg(test)]
mod turns;
