//! Sections, by the places of their first and last instructions.

/// A section: the code of an `atomic` statement, with the places of its first and its last instruction.
#[derive(Clone, Copy, Debug, PartialEq, Eq)]
pub struct Section {
    /// The number of the function in which it stands.
    pub function: u16,
    /// The place of its `acq`.
    pub acquire: u16,
    /// The place of its `rel`.
    pub release: u16,
}
