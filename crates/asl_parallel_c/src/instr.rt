//! The lines of instructions.
ghost use Rattle.std.specs.Prelude.{◌≡◌, [], ◌∷◌, ◌++◌, OnErr, OnOk};
ghost use Rattle.asl_parallel_c.specs.Instrs.{instr_text};
ghost use Rattle.asl_parallel_c.specs.Template.{filled};

use crate::call::{put_call, put_enter, put_integer};
use crate::growth::Growth;
use crate::lines;
use crate::options::Options;
use crate::template::fill;
use asl_code::{Instr, Program};
use std::alloc::AllocError;

/// Adds the template with one number.
fn one<G: Growth>(growth: G, text: &mut Vec<u8>, template: &[u8], a: u16) -> Result<(), AllocError>
    ensures written { OnOk result (text.new.items ≡ text.old.items ++ filled template.now (a ∷ [])) }
    ensures growth { OnErr result (G.refused growth) }
{
    fill(growth, text, template, &[u32::from(a)])
}

/// Adds the template with two numbers.
fn two<G: Growth>(
    growth: G,
    text: &mut Vec<u8>,
    template: &[u8],
    a: u8,
    b: u16,
) -> Result<(), AllocError>
    ensures written { OnOk result (text.new.items ≡ text.old.items ++ filled template.now (a ∷ b ∷ [])) }
    ensures growth { OnErr result (G.refused growth) }
{
    fill(growth, text, template, &[u32::from(a), u32::from(b)])
}

/// Adds the template with three numbers.
fn three<G: Growth>(
    growth: G,
    text: &mut Vec<u8>,
    template: &[u8],
    a: u8,
    b: u8,
    c: u16,
) -> Result<(), AllocError>
    ensures written { OnOk result (text.new.items ≡ text.old.items ++ filled template.now (a ∷ b ∷ c ∷ [])) }
    ensures growth { OnErr result (G.refused growth) }
{
    fill(
        growth,
        text,
        template,
        &[u32::from(a), u32::from(b), u32::from(c)],
    )
}

/// Adds the line of an instruction.
pub(crate) fn put_instr<G: Growth>(
    growth: G,
    text: &mut Vec<u8>,
    program: &Program,
    options: &Options,
    regs: u8,
    instr: &Instr,
) -> Result<(), AllocError>
    ensures written { OnOk result (text.new.items ≡ text.old.items ++ instr_text program.now options.now regs instr.now) }
    ensures growth { OnErr result (G.refused growth) }
{
    match *instr {
        Instr::SetInt { to, value } => put_integer(growth, text, to, value),
        Instr::SetNull { to } => one(growth, text, lines::NULL, to.into()),
        Instr::Move { to, from } => two(growth, text, lines::MOVE, to, from.into()),
        Instr::Add { to, left, right } => three(growth, text, lines::ADD, to, left, right.into()),
        Instr::Subtract { to, left, right } => {
            three(growth, text, lines::SUBTRACT, to, left, right.into())
        }
        Instr::LessThan { to, left, right } => {
            three(growth, text, lines::LESS, to, left, right.into())
        }
        Instr::Equals { to, left, right } => {
            three(growth, text, lines::EQUALS, to, left, right.into())
        }
        Instr::GlobalAddress { to, global } => two(growth, text, lines::GLOBAL, to, global),
        Instr::FieldAddress { to, from, offset } => {
            three(growth, text, lines::FIELD, to, from, offset.into())
        }
        Instr::Load { to, address } => two(growth, text, lines::LOAD, to, address.into()),
        Instr::Store { address, from } => two(growth, text, lines::STORE, address, from.into()),
        Instr::New { to, cells, class } => three(growth, text, lines::NEW, to, cells, class),
        Instr::Jump { target } => one(growth, text, lines::JUMP, target),
        Instr::JumpIfZero { test, target } => two(growth, text, lines::JUMP_IF_ZERO, test, target),
        Instr::Call {
            to,
            first,
            function,
        } => put_call(growth, text, program, options, to, first, function),
        Instr::Return { from } => one(growth, text, lines::RETURN, from.into()),
        Instr::Output { from } => one(growth, text, lines::OUTPUT, from.into()),
        Instr::Acquire { list } => put_enter(growth, text, regs, list),
        Instr::Release => fill(growth, text, lines::LEAVE, &[]),
    }
}
