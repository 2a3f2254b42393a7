//! The code that has been emitted so far.

ghost use Rattle.std.specs.Prelude.{◌≡◌, ◌<◌, ◌≤◌, [], ◌∷◌, ◌++◌, length, slice_set, vec_len, IfOk};

use crate::section::Section;
use asl_code::Instr;
use asl_code::image_limits::CODE;
use std::alloc::{AllocError, Global};

/// The code and the sections so far, and how many sites they have.
#[derive(Drop)]
pub struct Output {
    pub code: Vec<Instr>,
    pub sites: u16,
    pub sections: Vec<Section>,
    ghost fits: { vec_len code ≤ 65535 },
    ghost sites_counted: { sites ≤ vec_len code },
    ghost sections_counted: { vec_len sections ≤ vec_len code },
}

impl Output {
    ghost use Rattle.asl_lower.specs.Place.{next, created, entered};
    ghost use Rattle.asl_lower.specs.OutputView.{Adds, place_of};

    /// The most instructions that a program has.
    pub const MAX_LEN: usize = CODE;

    /// Nothing yet.
    pub fn new(alloc: Global) -> Output
        ensures code { result.code.items ≡ [] }
        ensures sections { result.sections.items ≡ [] }
        ensures sites { result.sites ≡ 0 }
    {
        Output {
            code: Vec::new(alloc),
            sites: 0,
            sections: Vec::new(alloc),
        }
    }

    /// The pc of the next instruction.
    pub fn here(&self) -> u16
        ensures { result ≡ length self.now.code.items }
    {
        self.code.len() as u16
    }

    /// Emits an instruction.
    pub fn push(&mut self, instr: Instr) -> Result<(), AllocError>
        requires { (next (place_of self.old)).pc ≤ 65535 }
        ensures { IfOk result (λ _. Adds self.old self.new (instr ∷ []) [] (next (place_of self.old))) }
    {
        self.code.push(instr)?;
        Ok(())
    }

    /// Puts an instruction in the place of another.
    pub fn patch(&mut self, at: usize, instr: Instr)
        requires { at < vec_len self.old.code }
        ensures code { self.new.code.items ≡ slice_set self.old.code.items at instr }
        ensures sections { self.new.sections.items ≡ self.old.sections.items }
        ensures sites { self.new.sites ≡ self.old.sites }
    {
        self.code[at] = instr;
    }

    /// Emits a `new` of the next site.
    pub fn create(&mut self, to: u8, cells: u8) -> Result<(), AllocError>
        requires { (created (place_of self.old)).pc ≤ 65535 }
        ensures { IfOk result (λ _. Adds self.old self.new (Instr.New to cells self.old.sites ∷ []) [] (created (place_of self.old))) }
    {
        let class = self.sites;
        self.push(Instr::New { to, cells, class })?;
        self.sites += 1;
        Ok(())
    }

    /// Emits the `acq` of the next section, whose `rel` is not known yet.
    pub fn enter(&mut self, function: u16) -> Result<(), AllocError>
        requires { (entered (place_of self.old)).pc ≤ 65535 }
        ensures { IfOk result (λ _. Adds self.old self.new (Instr.Acquire (length self.old.sections.items) ∷ []) (record { function = function; acquire = length self.old.code.items; release = 0 } ∷ []) (entered (place_of self.old))) }
    {
        let list = self.sections.len() as u16;
        let acquire = self.here();
        self.push(Instr::Acquire { list })?;
        self.sections.push(Section {
            function,
            acquire,
            release: 0,
        })?;
        Ok(())
    }

    /// Emits the `rel` of a section.
    pub fn leave(&mut self, number: usize, function: u16, acquire: u16) -> Result<(), AllocError>
        requires there { number < vec_len self.old.sections }
        requires room { (next (place_of self.old)).pc ≤ 65535 }
        ensures code { IfOk result (λ _. self.new.code.items ≡ self.old.code.items ++ Instr.Release ∷ []) }
        ensures sections { IfOk result (λ _. self.new.sections.items ≡ slice_set self.old.sections.items number (record { function = function; acquire = acquire; release = length self.old.code.items })) }
        ensures sites { IfOk result (λ _. self.new.sites ≡ self.old.sites) }
    {
        let release = self.here();
        self.push(Instr::Release)?;
        self.sections[number] = Section {
            function,
            acquire,
            release,
        };
        Ok(())
    }
}
