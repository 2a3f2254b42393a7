//! The text of functions.
ghost use Rattle.std.specs.Prelude.{◌≡◌, ◌+◌, ◌<◌, ◌≤◌, ◌^◌, ◌++◌, length, OnErr, OnOk};
ghost use Rattle.asl_parallel_c.specs.Functions.{function_text, functions_from, line_text, lines_from};

use crate::growth::Growth;
use crate::head::put_head;
use crate::instr::put_instr;
use crate::names::extern_name;
use crate::options::Options;
use crate::template::fill;
use asl_code::{Function, Instr, Program};
use std::alloc::AllocError;

/// Adds the line of the instruction at this place of the code.
fn put_line<G: Growth>(
    growth: G,
    text: &mut Vec<u8>,
    program: &Program,
    options: &Options,
    regs: u8,
    place: u32,
    instr: &Instr,
) -> Result<(), AllocError>
    ensures written { OnOk result (text.new.items ≡ text.old.items ++ line_text program.now options.now regs place instr.now) }
    ensures growth { OnErr result (G.refused growth) }
{
    fill(growth, text, b"L@: ", &[place])?;
    put_instr(growth, text, program, options, regs, instr)
}

/// Adds the lines of instructions, of which the first is at this place.
fn put_lines<G: Growth>(
    growth: G,
    text: &mut Vec<u8>,
    program: &Program,
    options: &Options,
    regs: u8,
    place: u32,
    code: &[Instr],
) -> Result<(), AllocError>
    requires { place + length code.now < 2 ^ 32 }
    ensures written { OnOk result (text.new.items ≡ text.old.items ++ lines_from program.now options.now regs place code.now) }
    ensures growth { OnErr result (G.refused growth) }
{
    let mut at = place;
    for instr in code {
        put_line(growth, text, program, options, regs, at, instr)?;
        at += 1;
    }
    Ok(())
}

/// Adds the function of this number, whose body begins at this place, where no C function stands for it.
fn put_function<G: Growth>(
    growth: G,
    text: &mut Vec<u8>,
    program: &Program,
    options: &Options,
    number: u16,
    function: &Function,
    place: u32,
    body: &[Instr],
) -> Result<(), AllocError>
    requires { place + length body.now < 2 ^ 32 }
    ensures written { OnOk result (text.new.items ≡ text.old.items ++ function_text program.now options.now number function.now place body.now) }
    ensures growth { OnErr result (G.refused growth) }
{
    match extern_name(options.externs.as_slice(), number) {
        Some(_) => Ok(()),
        None => {
            put_head(growth, text, options, number, function)?;
            put_lines(growth, text, program, options, function.regs, place, body)?;
            growth.append(text, b"}\n\n")
        }
    }
}

/// Adds the functions: their bodies lie one after the other in the code.
pub(crate) fn put_functions<G: Growth>(
    growth: G,
    text: &mut Vec<u8>,
    program: &Program,
    options: &Options,
    functions: &[Function],
    code: &[Instr],
) -> Result<(), AllocError>
    requires few { length functions.now ≤ 256 }
    requires short { length code.now ≤ 65535 }
    ensures written { OnOk result (text.new.items ≡ text.old.items ++ functions_from program.now options.now 0 functions.now 0 code.now) }
    ensures growth { OnErr result (G.refused growth) }
{
    let mut rest = code;
    let mut place = 0;
    for (number, function) in functions.iter().enumerate() {
        let len = (function.len as usize).min(rest.len());
        let (body, after) = rest.split_at(len);
        put_function(
            growth,
            text,
            program,
            options,
            number as u16,
            function,
            place,
            body,
        )?;
        rest = after;
        place += len as u32;
    }
    Ok(())
}
