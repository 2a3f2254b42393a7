//! Classes of the objects of a program, and where registers and cells point.

ghost use Rattle.std.specs.Prelude.{◌≡◌, ◌<◌, ◌≤◌, IfOk, length, Some, slice_get};
ghost use Rattle.asl_points_to.specs.Classes.{to, inside};
ghost use Rattle.asl_points_to.specs.Numbers.{AreNumbers};
ghost use Rattle.asl_points_to.specs.Found.{IsSettled, IsNumbering};

use crate::class_draft::ClassDraft;
use crate::class_numbers::{ClassNumbers, narrowed, numbered_cells, numbered_rows};
use asl_lower::Lowering;
use std::alloc::{AllocError, Global};
use std::marker::Model;

/// The classes of a program (`docs/ANALYSIS.md`, "Classes"). They are numbered from 0 by their first members, globals
/// before sites.
#[derive(Drop)]
pub struct Classes {
    count: u16,
    globals: Vec<u16>,
    sites: Vec<u16>,
    registers: Vec<Vec<Option<u16>>>,
    cells: Vec<Option<u16>>,
}

impl Model for Classes {
    ghost use Rattle.std.specs.Prelude.{map};
    ghost use Rattle.asl_points_to.specs.Classes.{Classed};

    ghost Value = { Classed };

    ghost view = { λ c. record { count = c.count; globals = c.globals.items; sites = c.sites.items; registers = map (λ r. r.items) c.registers.items; cells = c.cells.items } };
}

impl Classes {
    /// The classes of a settled draft, with numbers for them.
    pub(crate) fn numbered(
        alloc: Global,
        lowering: &Lowering,
        draft: &ClassDraft,
        numbers: &ClassNumbers,
    ) -> Result<Classes, AllocError>
        requires draft { IsSettled lowering.now draft.now }
        requires numbers { AreNumbers draft.now.sets numbers.now.of.items numbers.now.firsts.items }
        requires few { length numbers.now.firsts.items ≤ 1024 }
        ensures { IfOk result (IsNumbering lowering.now draft.now numbers.now.of.items numbers.now.firsts.items) }
    {
        let (globals, sites) = numbers.of.split_at(usize::from(lowering.globals()));
        Ok(Classes {
            count: numbers.firsts.len() as u16,
            globals: narrowed(alloc, globals)?,
            sites: narrowed(alloc, sites)?,
            registers: numbered_rows(alloc, lowering.functions(), &numbers.of, &draft.registers)?,
            cells: numbered_cells(alloc, &numbers.of, &draft.cells, &numbers.firsts)?,
        })
    }

    /// How many classes there are.
    pub fn count(&self) -> u16
        ensures { result ≡ self.now.count }
    {
        self.count
    }

    /// The class of a global.
    pub fn of_global(&self, global: u16) -> u16
        requires { global < length self.now.globals }
        ensures { slice_get self.now.globals global ≡ Some result }
    {
        self.globals[usize::from(global)]
    }

    /// The classes of all globals, in their order.
    pub fn globals(&self) -> &[u16]
        ensures { result.now ≡ self.now.globals }
    {
        self.globals.as_slice()
    }

    /// The class of the objects that are made at a site.
    pub fn of_site(&self, site: u16) -> u16
        requires { site < length self.now.sites }
        ensures { slice_get self.now.sites site ≡ Some result }
    {
        self.sites[usize::from(site)]
    }

    /// The class that a register of a function points to, if it points to any.
    pub fn to(&self, function: u16, register: u8) -> Option<u16>
        ensures { result ≡ to self.now function register }
    {
        let registers = self.registers.get(usize::from(function))?;
        *registers.get(usize::from(register))?
    }

    /// The class that the cells of a class point to, if they point to any.
    pub fn inside(&self, class: u16) -> Option<u16>
        ensures { result ≡ inside self.now class }
    {
        *self.cells.get(usize::from(class))?
    }
}
