//! What C calls, with pointers that are not null: `include/asl.h` tests that first.

mod names;
mod openings;
mod readers;
mod requests;
