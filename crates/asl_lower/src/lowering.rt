//! What a program is lowered to.

ghost use Rattle.std.specs.Prelude.{◌≡◌, ℕ, ◌<◌, ◌↔◌, true, Some, length, slice_get};
ghost use Rattle.std.specs.List.{Contains};
ghost use Rattle.asl_code.specs.declared.instr.Instr.{Instr};
ghost use Rattle.asl_lower.specs.OpenSections.{start_of, owner_of, returned, InBody, IsInner, FlowsTo, successors};
ghost use Rattle.asl_lower.specs.LegalLowering.{IsLegalLowering, lowered_of};

use crate::code_draft::CodeDraft;
use crate::section::Section;
use crate::section_reach::{Marks, inner_functions};
use arrayvec::ArrayVec;
use asl_code::{Function, Instr};
use std::marker::Model;

/// The code of a program, with its functions and its sections. Only `lower` makes one. A `new` has the number of its
/// site as its class, an `acq` the number of its section as its list.
#[derive(Drop)]
pub struct Lowering {
    draft: CodeDraft,
}

impl Model for Lowering {
    ghost use Rattle.asl_lower.specs.Lowered.{Lowered};

    ghost Value = { Lowered };

    ghost use Rattle.asl_lower.specs.LegalLowering.{IsLegalLowering, lowered_of};

    ghost view = { λ l. lowered_of l.draft };

    ghost invariant = { λ l. IsLegalLowering (lowered_of l.draft) };
}

impl Lowering {
    /// What has been emitted for a program.
    pub(crate) fn new(draft: CodeDraft) -> Lowering
        requires { IsLegalLowering (lowered_of draft) }
        ensures { result ≡ lowered_of draft }
    {
        Lowering { draft }
    }

    /// How many globals the program has.
    pub fn globals(&self) -> u16
        ensures globals { result ≡ self.now.globals }
        ensures kept { IsLegalLowering self.now }
    {
        self.draft.globals
    }

    /// The functions in the order of the text; their bodies lie one after the other in the code.
    pub fn functions(&self) -> &[Function]
        ensures functions { result.now ≡ self.now.functions }
        ensures kept { IsLegalLowering self.now }
    {
        self.draft.functions.as_slice()
    }

    /// The number of the function `main`.
    pub fn main(&self) -> u16
        ensures main { result ≡ self.now.main }
        ensures kept { IsLegalLowering self.now }
    {
        self.draft.main
    }

    /// The instructions.
    pub fn code(&self) -> &[Instr]
        ensures code { result.now ≡ self.now.code }
        ensures kept { IsLegalLowering self.now }
    {
        self.draft.out.code.as_slice()
    }

    /// How many `new` there are.
    pub fn sites(&self) -> u16
        ensures sites { result ≡ self.now.sites }
        ensures kept { IsLegalLowering self.now }
    {
        self.draft.out.sites
    }

    /// The sections in the order of their `acq`.
    pub fn sections(&self) -> &[Section]
        ensures sections { result.now ≡ self.now.sections }
        ensures kept { IsLegalLowering self.now }
    {
        self.draft.out.sections.as_slice()
    }

    /// The first pc of a function.
    pub fn start(&self, function: u16) -> u16
        requires { function < length self.now.functions }
        ensures { result ≡ start_of self.now.functions function }
    {
        self.draft.start(usize::from(function)) as u16
    }

    /// The function in whose body a pc is.
    pub fn owner(&self, pc: u16) -> u16
        requires { pc < length self.now.code }
        ensures owner { result ≡ owner_of self.now.functions pc }
        ensures body { InBody self.now result pc }
    {
        let mut number = 0;
        let mut left = u32::from(pc);
        for function in &self.draft.functions {
            if left < function.len {
                return number;
            }
            left -= function.len;
            number += 1;
        }
        number
    }

    /// The register that a function returns.
    pub fn returned(&self, function: u16) -> u8
        requires { function < length self.now.functions }
        ensures returned { result ≡ returned self.now function }
        ensures each { (pc from : ℕ) → InBody self.now function pc → slice_get self.now.code pc ≡ Some (Instr.Return from) → from ≡ result }
    {
        let number = usize::from(function);
        let end = self.draft.start(number) + self.draft.functions[number].len as usize;
        match self.draft.out.code[end - 1] {
            Instr::Return { from } => from,
            _ => unreachable!(),
        }
    }

    /// Where control may continue from a pc, in the same body.
    pub fn successors(&self, pc: u16) -> ArrayVec<u16, 2>
        requires { pc < length self.now.code }
        ensures goes_on { (i : Instr) → slice_get self.now.code pc ≡ Some i → (to : ℕ) → Contains result.items to ↔ FlowsTo i pc to }
        ensures listed { (i : Instr) → slice_get self.now.code pc ≡ Some i → result.items ≡ successors i pc }
    {
        successors(&self.draft.out.code[usize::from(pc)], pc)
    }

    /// Which functions are inner, by their numbers.
    pub fn inner(&self) -> Marks
        ensures { (function : ℕ) → (slice_get result function ≡ Some true) ↔ IsInner self.now function }
    {
        inner_functions(&self.draft)
    }
}

/// Where control may continue from an instruction at a pc, in the same body.
fn successors(instr: &Instr, pc: u16) -> ArrayVec<u16, 2>
    requires { pc < 65535 }
    ensures { result.items ≡ successors instr.now pc }
{
    let mut next = ArrayVec::new();
    match instr {
        Instr::Jump { target } => next.push(*target),
        Instr::JumpIfZero { target, .. } => {
            next.push(*target);
            next.push(pc + 1);
        }
        Instr::Return { .. } => {}
        _ => next.push(pc + 1),
    }
    next
}
