//! What C gets of the tables of a program.

/// How many there are of each part.
#[derive(Clone, Copy, Drop)]
#[repr(C)]
pub struct Counts {
    /// The version of the format.
    pub version: u32,
    /// How many classes there are.
    pub classes: u32,
    /// How many globals.
    pub globals: u32,
    /// How many functions.
    pub functions: u32,
    /// The number of the function that threads start in.
    pub start: u32,
    /// How many instructions.
    pub instructions: u32,
    /// How many sections: one for each `acq`.
    pub sections: u32,
    /// How many lists.
    pub lists: u32,
    /// Whether some list has a lock on the root.
    pub names_root: bool,
    /// Whether the program was opened from a source.
    pub has_source: bool,
}

/// A function.
#[derive(Clone, Copy, Drop)]
#[repr(C)]
pub struct FunctionEntry {
    /// How many parameters it has; they are its first registers.
    pub parameters: u8,
    /// How many registers a frame of it has.
    pub registers: u8,
    /// The place of its first instruction in the code.
    pub first: u32,
    /// How many instructions it has.
    pub instructions: u32,
}

/// A section.
#[derive(Clone, Copy, Drop)]
#[repr(C)]
pub struct SectionEntry {
    /// The number of its function.
    pub function: u16,
    /// The number of its list.
    pub list: u16,
    /// The place of its `acq` in the code.
    pub place: u32,
}

/// A list.
#[derive(Clone, Copy, Drop)]
#[repr(C)]
pub struct ListEntry {
    /// How many locks it has.
    pub locks: usize,
    /// Whether its evaluation reads cells.
    pub reads_cells: bool,
    /// Whether some lock of it is for writing.
    pub writes: bool,
}

/// A lock.
#[derive(Clone, Copy, Drop)]
#[repr(C)]
pub struct LockEntry {
    /// 0: the root; 1: a class; 2: the cell of an expression.
    pub kind: u8,
    /// Whether it is for writing.
    pub writes: bool,
    /// Whether its expression begins at a global, and not at a register.
    pub from_global: bool,
    /// How many operations its expression has.
    pub operations: u8,
    /// The number of the register or of the global.
    pub base: u16,
    /// The class, or 65535.
    pub class: u16,
    /// The operations: 256 follows the address in the cell, a number below goes so many cells on.
    pub path: [u16; 8],
}

/// The request of a list, or what must be told to know it.
#[derive(Clone, Copy, Drop)]
#[repr(C)]
pub struct RequestEntry {
    /// How many nodes it asks for.
    pub count: usize,
    /// Of a cell that must be told the place of its object among those that are shown.
    pub object: u16,
    /// Its place in the object.
    pub offset: u8,
}
