//! The heads of functions, and their prototypes.
ghost use Rattle.std.specs.Prelude.{◌≡◌, ◌≤◌, ◌+◌, ◌<◌, ◌^◌, ◌++◌, length, codes, OnErr, OnOk};
ghost use Rattle.asl_parallel_c.specs.Functions.{declared, head_text, local_text, locals_from, params_text, prototype_text, prototypes_from, registers_text};
ghost use Rattle.asl_parallel_c.specs.Names.{name_of};

use crate::growth::Growth;
use crate::names::{own_name, put_comment, put_local_comment};
use crate::options::Options;
use crate::template::{fill, repeat};
use asl_code::Function;
use std::alloc::AllocError;

/// Adds the parameters of a function.
fn put_params<G: Growth>(growth: G, text: &mut Vec<u8>, params: u8) -> Result<(), AllocError>
    ensures written { OnOk result (text.new.items ≡ text.old.items ++ params_text params) }
    ensures growth { OnErr result (G.refused growth) }
{
    repeat(growth, text, b", aslr_value r@", 0, u32::from(params))
}

/// Adds how the prototype of a C function of this name begins.
fn put_external<G: Growth>(growth: G, text: &mut Vec<u8>, name: &[u8]) -> Result<(), AllocError>
    ensures written { OnOk result (text.new.items ≡ text.old.items ++ (codes "aslr_value " ++ (name.now ++ codes "(aslr_thread *t"))) }
    ensures growth { OnErr result (G.refused growth) }
{
    growth.append(text, b"aslr_value ")?;
    growth.append(text, name)?;
    growth.append(text, b"(aslr_thread *t")
}

/// Adds how the prototype of the function of this number begins.
fn put_declared<G: Growth>(
    growth: G,
    text: &mut Vec<u8>,
    options: &Options,
    number: u16,
) -> Result<(), AllocError>
    ensures written { OnOk result (text.new.items ≡ text.old.items ++ declared (name_of options.now number) number) }
    ensures growth { OnErr result (G.refused growth) }
{
    match own_name(options, number) {
        Some(name) => put_external(growth, text, name.as_bytes()),
        None => fill(
            growth,
            text,
            b"static aslr_value aslr_f@(aslr_thread *t",
            &[u32::from(number)],
        ),
    }
}

/// Adds the prototype of the function of this number.
fn put_prototype<G: Growth>(
    growth: G,
    text: &mut Vec<u8>,
    options: &Options,
    number: u16,
    function: &Function,
) -> Result<(), AllocError>
    ensures written { OnOk result (text.new.items ≡ text.old.items ++ prototype_text options.now number function.now) }
    ensures growth { OnErr result (G.refused growth) }
{
    put_declared(growth, text, options, number)?;
    put_params(growth, text, function.params)?;
    growth.append(text, b");\n")
}

/// Adds the prototypes of the functions.
pub(crate) fn put_prototypes<G: Growth>(
    growth: G,
    text: &mut Vec<u8>,
    options: &Options,
    functions: &[Function],
) -> Result<(), AllocError>
    requires { length functions.now ≤ 256 }
    ensures written { OnOk result (text.new.items ≡ text.old.items ++ prototypes_from options.now 0 functions.now) }
    ensures growth { OnErr result (G.refused growth) }
{
    for (number, function) in functions.iter().enumerate() {
        put_prototype(growth, text, options, number as u16, function)?;
    }
    Ok(())
}

/// Adds the line of a local.
fn put_local<G: Growth>(
    growth: G,
    text: &mut Vec<u8>,
    options: &Options,
    number: u16,
    template: &[u8],
    register: u32,
) -> Result<(), AllocError>
    ensures written { OnOk result (text.new.items ≡ text.old.items ++ local_text options.now number template.now register) }
    ensures growth { OnErr result (G.refused growth) }
{
    fill(growth, text, template, &[register, register])?;
    put_local_comment(growth, text, options, number, register)?;
    growth.append(text, b"\n")
}

/// Adds the lines of so many locals, from the first on.
fn put_locals<G: Growth>(
    growth: G,
    text: &mut Vec<u8>,
    options: &Options,
    number: u16,
    template: &[u8],
    first: u32,
    count: u32,
) -> Result<(), AllocError>
    requires { first + count < 2 ^ 32 }
    ensures written { OnOk result (text.new.items ≡ text.old.items ++ locals_from options.now number template.now first count) }
    ensures growth { OnErr result (G.refused growth) }
{
    for register in first..first + count {
        put_local(growth, text, options, number, template, register)?;
    }
    Ok(())
}

/// Adds the registers of the function of this number.
fn put_registers<G: Growth>(
    growth: G,
    text: &mut Vec<u8>,
    options: &Options,
    number: u16,
    function: &Function,
) -> Result<(), AllocError>
    ensures written { OnOk result (text.new.items ≡ text.old.items ++ registers_text options.now number function.now) }
    ensures growth { OnErr result (G.refused growth) }
{
    let params = u32::from(function.params);
    let regs = u32::from(function.regs);
    let others = regs.saturating_sub(params);
    put_locals(growth, text, options, number, b"  (void)r@;", 0, params)?;
    put_locals(
        growth,
        text,
        options,
        number,
        b"  aslr_value r@ = 0; (void)r@;",
        params,
        others,
    )
}

/// Adds the head of the function of this number.
pub(crate) fn put_head<G: Growth>(
    growth: G,
    text: &mut Vec<u8>,
    options: &Options,
    number: u16,
    function: &Function,
) -> Result<(), AllocError>
    ensures written { OnOk result (text.new.items ≡ text.old.items ++ head_text options.now number function.now) }
    ensures growth { OnErr result (G.refused growth) }
{
    put_declared(growth, text, options, number)?;
    put_params(growth, text, function.params)?;
    growth.append(text, b") {")?;
    put_comment(growth, text, options, number)?;
    growth.append(text, b"\n  (void)t;\n")?;
    put_registers(growth, text, options, number, function)
}
