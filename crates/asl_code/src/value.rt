//! Values, cells, and the effects of accesses on cells.

/// A value of a register or of a cell.
#[derive(Clone, Copy, Debug, PartialEq, Eq)]
pub enum Value {
    /// A 32-bit integer in two's complement.
    Int(i32),
    /// The address of no cell.
    Null,
    /// The address of a cell: the object's number, and the cell's place in the object from 0.
    Addr(u16, u8),
}

/// A cell of the heap: the object's number, and the place in the object from 0.
#[derive(Clone, Copy, Debug, PartialEq, Eq)]
pub struct Cell {
    /// The object's number, globals first.
    pub object: u16,
    /// The place in the object.
    pub offset: u8,
}

/// What an access does to a cell, and what a lock is asked for.
#[derive(Clone, Copy, Debug, PartialEq, Eq, PartialOrd, Ord, Hash)]
pub enum Effect {
    /// The cell is read.
    Read,
    /// The cell is written.
    Write,
}
