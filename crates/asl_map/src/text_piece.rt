//! Pieces of a text. Places are bytes from 0; `to` is the place after the last one.

use asl_syntax::Name;

/// What a piece of a text is.
#[derive(Clone, Copy, Debug, PartialEq, Eq)]
pub enum Kind {
    /// A statement without blocks, with its semicolon.
    Line,
    /// `if x {`, or the brace that closes its first block.
    If,
    /// `while x {`, or the brace that closes its block.
    While,
    /// `atomic {`, or the brace that closes its block.
    Atomic,
    /// `return x;`
    Return,
}

/// The piece of the text that an instruction is of.
#[derive(Clone, Copy, Debug, PartialEq, Eq)]
pub struct Piece {
    /// The place of its first byte.
    pub from: usize,
    /// The place after its last byte.
    pub to: usize,
    /// What it is.
    pub kind: Kind,
}

/// Where a section or a site stands.
#[derive(Clone, Copy, Debug, PartialEq, Eq)]
pub struct Area {
    /// The number of its function.
    pub function: u16,
    /// The place of its first byte.
    pub from: usize,
    /// The place after its last byte.
    pub to: usize,
}

/// A function with its name.
#[derive(Drop)]
pub struct Named {
    /// Its name.
    pub name: Name,
    /// The place of its `fn`.
    pub from: usize,
    /// The place after its last brace.
    pub to: usize,
}
