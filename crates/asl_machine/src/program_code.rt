//! A program as a machine steps through it: where each function begins is found at once.
ghost use Rattle.std.specs.Prelude.{◌≡◌, ◌<◌, ◌^◌, IfOk, IsSome, Some, length, slice_get};
ghost use Rattle.asl_code.specs.Bodies.{first_of, total_len};
ghost use Rattle.asl_machine.specs.Calls.{function_of};
ghost use Rattle.asl_machine.specs.Ready.{firsts_from};

use asl_code::{Function, Instr, Program};
use std::alloc::{AllocError, Global};
use std::marker::Model;

/// A program, and the place of each function's first instruction.
#[derive(Drop)]
pub struct Code<'p> {
    program: &'p Program,
    firsts: Vec<u16>,
}

impl<'p> Model for Code<'p> {
    ghost use Rattle.std.specs.Prelude.{◌≡◌};
    ghost use Rattle.asl_code.specs.declared.image.Image.{Image};
    ghost use Rattle.asl_machine.specs.Ready.{firsts_from};

    ghost Value = { Image };

    ghost view = { λ c. c.program.now };

    ghost invariant = { λ c. c.firsts.items ≡ firsts_from 0 c.program.now.functions };
}

impl<'p> Code<'p> {
    /// The program's.
    pub fn of(alloc: Global, program: &'p Program) -> Result<Code<'p>, AllocError>
        ensures { IfOk result (λ code. code ≡ program.now) }
    {
        let firsts = firsts(alloc, program.functions())?;
        Ok(Code { program, firsts })
    }

    /// The same program's.
    pub fn try_copy(&self, alloc: Global) -> Result<Code<'p>, AllocError>
        ensures { IfOk result (λ code. code ≡ self.now) }
    {
        Ok(Code {
            program: self.program,
            firsts: self.firsts.as_slice().to_vec(alloc)?,
        })
    }

    /// Where the functions begin, without the program.
    pub fn into_firsts(self) -> Vec<u16>
        ensures { result.items ≡ firsts_from 0 self.entry.functions }
    {
        let Code { program: _, firsts } = self;
        firsts
    }

    /// The program's again, with where its functions begin.
    pub fn from_firsts(program: &'p Program, firsts: Vec<u16>) -> Code<'p>
        requires { firsts.items ≡ firsts_from 0 program.now.functions }
        ensures { result ≡ program.now }
    {
        Code { program, firsts }
    }

    /// The program.
    pub fn program(&self) -> &'p Program
        ensures { result.now ≡ self.now }
    {
        self.program
    }

    /// The instruction at the place.
    pub fn fetch(&self, pc: u16) -> Instr
        requires { IsSome (slice_get self.now.code pc) }
        ensures { slice_get self.now.code pc ≡ Some result }
    {
        self.program.code()[usize::from(pc)]
    }

    /// The function of this number.
    pub fn function(&self, number: u16) -> Function
        requires { number < length self.now.functions }
        ensures { result ≡ function_of self.now number }
    {
        self.program.functions()[usize::from(number)]
    }

    /// Where the function of this number begins.
    pub fn first(&self, number: u16) -> u16
        requires { number < length self.now.functions }
        ensures { result ≡ first_of self.now.functions number }
    {
        self.firsts[usize::from(number)]
    }
}

/// Where each of the functions begins.
fn firsts(alloc: Global, functions: &[Function]) -> Result<Vec<u16>, AllocError>
    requires { total_len functions.now < 2 ^ 16 }
    ensures { IfOk result (λ firsts. firsts.items ≡ firsts_from 0 functions.now) }
{
    let mut firsts = Vec::new(alloc);
    let mut first = 0;
    for function in functions {
        firsts.push(first)?;
        first += function.len as u16;
    }
    Ok(firsts)
}
