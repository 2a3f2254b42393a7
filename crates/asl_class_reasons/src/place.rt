//! What points to a class, and the steps from one such place to another.

/// What points to a class, if to any.
#[derive(Clone, Copy, PartialEq, Eq)]
pub enum Place {
    /// The address of a member: a global by its number, or a site by its number after all globals. It points to the member's
    /// class.
    Member(u32),
    /// A register of a function.
    Register { function: u16, register: u8 },
    /// The cells of the class of a member.
    Cells(u32),
}

/// By what a step is due.
#[derive(Clone, Copy)]
pub enum Cause {
    /// By the instruction at a pc.
    Instruction(u16),
    /// By two members that share a class: what their cells hold is one, too.
    SameClass,
}

/// A step: where one place points, the other points too.
#[derive(Clone, Copy)]
pub struct Step {
    pub cause: Cause,
    pub from: Place,
    pub into: Place,
}

/// A link of a chain: by the step of a number, either way, to a place.
#[derive(Clone, Copy)]
pub struct Link {
    pub step: usize,
    pub into: Place,
}
