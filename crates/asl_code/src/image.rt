//! Images: what a text or a file says of a program, not judged yet.

use crate::instr::Instr;
use crate::items::Items;
use crate::lock::Lock;

/// A function of an image. Its body follows the bodies of the functions before it.
#[derive(Clone, Copy, PartialEq, Eq)]
pub struct Function {
    /// How many parameters it has; they are its first registers.
    pub params: u8,
    /// How many registers a frame of it has.
    pub regs: u8,
    /// How many instructions its body has.
    pub len: u32,
}

/// What a text or a file says, before anything of it is judged.
#[derive(Drop)]
pub struct Image {
    /// The version of the format.
    pub version: u32,
    /// How many classes there are.
    pub classes: u32,
    /// The class of each global.
    pub globals: Items<u16>,
    /// The functions; their bodies lie one after the other in `code`.
    pub functions: Items<Function>,
    /// The number of the entry function.
    pub start: u16,
    /// All instructions.
    pub code: Items<Instr>,
    /// The lock lists that `acq` names.
    pub lists: Items<Items<Lock>>,
}
