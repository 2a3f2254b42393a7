//! The lines of integers, of calls and of the entries of sections.
ghost use Rattle.std.specs.Prelude.{◌≡◌, ◌++◌, OnErr, OnOk};
ghost use Rattle.asl_parallel_c.specs.Instrs.{call_text, enter_text, integer_text, params_of};

use crate::growth::Growth;
use crate::names::put_callee;
use crate::options::Options;
use crate::template::{fill, repeat};
use asl_code::{Function, Program};
use itoa::Buffer;
use std::alloc::AllocError;

/// How many parameters the function has.
fn params_of(functions: &[Function], function: u16) -> u8
    ensures { result ≡ params_of functions.now function }
{
    match functions.get(usize::from(function)) {
        Some(function) => function.params,
        None => 0,
    }
}

/// Adds the line of an integer.
pub(crate) fn put_integer<G: Growth>(
    growth: G,
    text: &mut Vec<u8>,
    to: u8,
    value: i32,
) -> Result<(), AllocError>
    ensures written { OnOk result (text.new.items ≡ text.old.items ++ integer_text to value) }
    ensures growth { OnErr result (G.refused growth) }
{
    let mut digits = Buffer::new();
    fill(growth, text, b"r@ = aslr_int(", &[u32::from(to)])?;
    growth.append(text, digits.format(value).as_bytes())?;
    growth.append(text, b");\n")
}

/// Adds the line of a call.
pub(crate) fn put_call<G: Growth>(
    growth: G,
    text: &mut Vec<u8>,
    program: &Program,
    options: &Options,
    to: u8,
    first: u8,
    function: u16,
) -> Result<(), AllocError>
    ensures written { OnOk result (text.new.items ≡ text.old.items ++ call_text program.now options.now to first function) }
    ensures growth { OnErr result (G.refused growth) }
{
    let params = params_of(program.functions(), function);
    fill(growth, text, b"aslr_call(t); r@ = ", &[u32::from(to)])?;
    put_callee(growth, text, options, function)?;
    growth.append(text, b"(t")?;
    repeat(growth, text, b", r@", u32::from(first), u32::from(params))?;
    growth.append(text, b"); aslr_return(t);\n")
}

/// Adds the line of the entry of a section.
pub(crate) fn put_enter<G: Growth>(
    growth: G,
    text: &mut Vec<u8>,
    regs: u8,
    list: u16,
) -> Result<(), AllocError>
    ensures written { OnOk result (text.new.items ≡ text.old.items ++ enter_text regs list) }
    ensures growth { OnErr result (G.refused growth) }
{
    fill(
        growth,
        text,
        b"{ aslr_enter(t, @, (const aslr_value[]){",
        &[u32::from(list)],
    )?;
    repeat(growth, text, b"r@, ", 0, u32::from(regs))?;
    growth.append(text, b"0}); }\n")
}
