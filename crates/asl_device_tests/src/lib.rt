//! Readers and writers that fail, that take nothing, that take a byte at a time or that never end, under each command of
//! the program.
//!
//! A reader that fails or is interrupted at its call n, for each n: `asl: Read`, and nothing is written. A reader without end:
//! `asl: TooLong`. A writer that fails, is interrupted or takes nothing at its call n, for each n: `asl: Write`, and a first part of the
//! output is written. What standard error does changes no status.
#![tactic(auto)]

#[cfg(test)]
mod commands;
#[cfg(test)]
mod devices;
#[cfg(test)]
mod outcome;
#[cfg(test)]
mod reading;
#[cfg(test)]
mod workers;
#[cfg(test)]
mod writing;
