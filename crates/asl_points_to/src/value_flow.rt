//! What classes owe to instructions, as flows between registers.

/// A register of a function.
#[derive(Clone, Copy)]
pub struct Place {
    pub function: u16,
    pub register: u8,
}

/// A flow: what one instruction, or one argument of a call, is owed.
#[derive(Clone, Copy)]
pub enum Flow {
    /// A register points to the class of a member.
    Member { member: u32, into: Place },
    /// Where one register points, another points too.
    Copy { from: Place, into: Place },
    /// Where the cells of the address's class point, a register points too.
    Load { address: Place, into: Place },
    /// Where a register points, the cells of the address's class point too.
    Store { address: Place, from: Place },
}
