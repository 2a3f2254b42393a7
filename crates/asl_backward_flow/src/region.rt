//! Regions: the bodies of inner functions, and the sections.

use std::fmt;

/// A region, by the number of its function or of its section.
#[derive(Clone, Copy, Debug, PartialEq, Eq)]
pub enum Region {
    /// The body of an inner function.
    Body(u16),
    /// A section, from after its `acq` up to its `rel`.
    Section(u16),
}

impl fmt::Display for Region {
    /// As `Body(3)` or `Section(0)`.
    fn fmt<W: fmt::Write>(&self, f: &mut fmt::Formatter<W>) -> fmt::Result {
        match self {
            Region::Body(function) => write!(f, "Body({function})"),
            Region::Section(section) => write!(f, "Section({section})"),
        }
    }
}
