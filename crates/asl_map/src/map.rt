//! The map of a source.

use crate::text_piece::{Area, Named, Piece};
use asl_lower::Marks;
use asl_syntax::Name;

/// What the numbers of a source's code stand for, and where in the text it comes from.
#[derive(Drop)]
pub struct Map {
    /// The functions.
    pub functions: Vec<Named>,
    /// Whether `main` calls each function, itself or through others; `main` is one of them.
    pub reached: Marks,
    /// The locals of each function in the order of their registers.
    pub registers: Vec<Vec<Name>>,
    /// The globals.
    pub globals: Vec<Name>,
    /// How many classes there are.
    pub classes: u16,
    /// The class of each global.
    pub global_classes: Vec<u16>,
    /// The class of each site.
    pub site_classes: Vec<u16>,
    /// Where each section stands.
    pub sections: Vec<Area>,
    /// Where each site stands.
    pub sites: Vec<Area>,
    /// The piece of the text of each instruction.
    pub pieces: Vec<Piece>,
}

impl Map {
    ghost use Rattle.std.specs.Prelude.{◌≡◌, slice_get};
    ghost use Rattle.std.specs.Option.{option_copied};
    ghost use Rattle.asl_map.specs.Names.{function_name, register_name};

    /// The piece of the text that the instruction at a pc is of.
    pub fn place(&self, pc: u16) -> Option<Piece>
        ensures { result ≡ slice_get self.now.pieces.items pc }
    {
        self.pieces.get(usize::from(pc)).copied()
    }

    /// The name of a function.
    pub fn function_name(&self, function: u16) -> Option<&Name>
        ensures { option_copied result ≡ function_name self.now function }
    {
        let function = self.functions.get(usize::from(function))?;
        Some(&function.name)
    }

    /// The name of a local, by its register.
    pub fn register_name(&self, function: u16, register: u8) -> Option<&Name>
        ensures { option_copied result ≡ register_name self.now function register }
    {
        let names = self.registers.get(usize::from(function))?;
        names.get(usize::from(register))
    }

    /// The name of a global.
    pub fn global_name(&self, global: u16) -> Option<&Name>
        ensures { option_copied result ≡ slice_get self.now.globals.items global }
    {
        self.globals.get(usize::from(global))
    }
}
