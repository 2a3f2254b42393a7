//! The events of a journal, and what writing one down answers.

use asl_machine::Reply;
use std::mem::size_of;

/// One step of a run: the thread that stepped, and what the step replied (`docs/JOURNAL.md`, "What a journal is").
#[derive(Clone, Copy, Debug, PartialEq, Eq)]
pub struct Event {
    /// The number of the thread.
    pub thread: u8,
    /// The reply to its step.
    pub reply: Reply,
}

/// A journal of 16,777,216 events has at most 16 bytes for each.
const _: () = prove!(size_of::<Event>() <= 16);

/// What a step that was written down answers (`docs/JOURNAL.md`, "A machine that writes it down").
#[derive(Clone, Copy, Debug, PartialEq, Eq)]
pub struct Receipt {
    /// The place of its event in the journal, from 0.
    pub index: u32,
    /// The number of the thread.
    pub thread: u8,
    /// Whether the thread has ended after this step. It stands beside the other field of one byte, so that less pads a receipt.
    pub ended: bool,
    /// The reply to its step.
    pub reply: Reply,
}
