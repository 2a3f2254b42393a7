//! What classes owe to instructions, between places.

use crate::place::Place;

/// What is owed between places.
#[derive(Clone, Copy)]
pub enum Flow {
    /// Where one place points, another points too.
    Copy { from: Place, into: Place },
    /// Where the cells of the address's class point, a place points too.
    Load { address: Place, into: Place },
    /// Where a place points, the cells of the address's class point too.
    Store { address: Place, from: Place },
}

/// What is owed to the instruction at a pc.
#[derive(Clone, Copy)]
pub struct Owed {
    pub pc: u16,
    pub flow: Flow,
}
