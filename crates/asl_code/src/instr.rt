//! The instructions of the machine.

/// An instruction, a variant for each row of the instruction table (`docs/INSTRUCTIONS.md`).
///
/// Registers are numbered from 0 in their function's frame. Jump targets are places in the whole code from 0.
#[derive(Clone, Copy, PartialEq, Eq)]
pub enum Instr {
    /// `int`: `to` becomes the integer `value`.
    SetInt { to: u8, value: i32 },
    /// `null`: `to` becomes null.
    SetNull { to: u8 },
    /// `mov`: `to` becomes the value of `from`.
    Move { to: u8, from: u8 },
    /// `add`: `to` becomes the sum, which wraps at 32 bits.
    Add { to: u8, left: u8, right: u8 },
    /// `sub`: `to` becomes the difference, which wraps at 32 bits.
    Subtract { to: u8, left: u8, right: u8 },
    /// `lt`: `to` becomes 1 where `left` is below `right`, else 0.
    LessThan { to: u8, left: u8, right: u8 },
    /// `eq`: `to` becomes 1 where both are the same value, else 0.
    Equals { to: u8, left: u8, right: u8 },
    /// `glob`: `to` becomes the address of the one cell of a global.
    GlobalAddress { to: u8, global: u16 },
    /// `field`: `to` becomes the address in `from`, moved by `offset` cells.
    FieldAddress { to: u8, from: u8, offset: u8 },
    /// `load`: `to` becomes the value of the cell whose address is in `address`.
    Load { to: u8, address: u8 },
    /// `store`: the cell whose address is in `address` becomes the value of `from`.
    Store { address: u8, from: u8 },
    /// `new`: makes an object of `cells` cells and of class `class`; `to` becomes its address.
    New { to: u8, cells: u8, class: u16 },
    /// `jmp`: continues at `target`.
    Jump { target: u16 },
    /// `jz`: continues at `target` where `test` is the integer 0 or null.
    JumpIfZero { test: u8, target: u16 },
    /// `call`: calls `function` with the registers from `first` on; its result will go to `to`.
    Call { to: u8, first: u8, function: u16 },
    /// `ret`: ends the function with the value of `from`.
    Return { from: u8 },
    /// `out`: shows the value of `from`.
    Output { from: u8 },
    /// `acq`: enters a section, with the locks of the list `list`.
    Acquire { list: u16 },
    /// `rel`: leaves a section.
    Release,
}
