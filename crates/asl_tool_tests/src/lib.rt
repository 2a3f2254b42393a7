//! Tests of the program `asl` over its public calls.
#![tactic(auto)]

#[cfg(test)]
mod cases;
#[cfg(test)]
mod commands;
#[cfg(test)]
mod compiled;
#[cfg(test)]
mod fakes;
#[cfg(test)]
mod outcomes;
#[cfg(test)]
mod recorded;
#[cfg(test)]
mod streams;
#[cfg(test)]
mod words;
#[cfg(test)]
mod workers;
