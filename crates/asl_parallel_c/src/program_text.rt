//! The C program of a program.
ghost use Rattle.std.specs.Prelude.{◌≡◌, ◌++◌, OnErr, OnOk};
ghost use Rattle.asl_parallel_c.specs.Text.{c_text, checks_text, data_text, front_text, main_text, this_text};

use crate::functions::put_functions;
use crate::growth::Growth;
use crate::head::put_prototypes;
use crate::lists::{put_classes, put_lists, put_table};
use crate::names::put_callee;
use crate::options::Options;
use crate::template::fill;
use asl_code::Program;
use std::alloc::AllocError;

/// Adds the C program of the program to the text: a C function for each of its functions, a line for each instruction, its lock lists as
/// data, over `runtime/asl_runtime.h` (`docs/PARALLEL.md`).
///
/// # Errors
///
/// The growth was refused. Nothing is said of the text then.
pub fn put_program<G: Growth>(
    growth: G,
    text: &mut Vec<u8>,
    program: &Program,
    options: &Options,
) -> Result<(), AllocError>
    ensures written { OnOk result (text.new.items ≡ text.old.items ++ c_text program.now options.now) }
    ensures growth { OnErr result (G.refused growth) }
{
    put_front(growth, text, options)?;
    put_data(growth, text, program)?;
    put_prototypes(growth, text, options, program.functions())?;
    growth.append(text, b"\n")?;
    put_this(growth, text, program, options)?;
    put_functions(
        growth,
        text,
        program,
        options,
        program.functions(),
        program.code(),
    )?;
    put_main(growth, text)
}

/// Adds the end of the text: `main`, or, where C brings its own, the program's name.
fn put_main<G: Growth>(growth: G, text: &mut Vec<u8>) -> Result<(), AllocError>
    ensures written { OnOk result (text.new.items ≡ text.old.items ++ main_text) }
    ensures growth { OnErr result (G.refused growth) }
{
    growth.append(
        text,
        b"#ifdef ASLR_NO_MAIN\nconst aslr_program *const aslr_printed = &aslr_this;\n#else\n",
    )?;
    growth.append(
        text,
        b"int main(int argc, char **argv) {\n  return aslr_main(&aslr_this, argc, argv);\n}\n#endif\n",
    )
}

/// Adds the line that asks the runtime to look at each access, where it is wanted.
fn put_checks<G: Growth>(growth: G, text: &mut Vec<u8>, checks: bool) -> Result<(), AllocError>
    ensures written { OnOk result (text.new.items ≡ text.old.items ++ checks_text checks) }
    ensures growth { OnErr result (G.refused growth) }
{
    if checks {
        return growth.append(text, b"#define ASLR_CHECKS\n");
    }
    Ok(())
}

/// Adds the front of the text.
fn put_front<G: Growth>(growth: G, text: &mut Vec<u8>, options: &Options) -> Result<(), AllocError>
    ensures written { OnOk result (text.new.items ≡ text.old.items ++ front_text options.now) }
    ensures growth { OnErr result (G.refused growth) }
{
    growth.append(
        text,
        b"/* Printed by `asl c`: a program over asl_runtime.h. */\n#define ASLR_EMITTED\n",
    )?;
    put_checks(growth, text, options.checks)?;
    growth.append(text, b"#include \"asl_runtime.h\"\n\n")
}

/// Adds the data of the program.
fn put_data<G: Growth>(growth: G, text: &mut Vec<u8>, program: &Program) -> Result<(), AllocError>
    ensures written { OnOk result (text.new.items ≡ text.old.items ++ data_text program.now) }
    ensures growth { OnErr result (G.refused growth) }
{
    put_classes(growth, text, program.globals())?;
    put_lists(growth, text, program.lists())?;
    put_table(growth, text, program.lists().len())
}

/// Adds the program as a value.
fn put_this<G: Growth>(
    growth: G,
    text: &mut Vec<u8>,
    program: &Program,
    options: &Options,
) -> Result<(), AllocError>
    ensures written { OnOk result (text.new.items ≡ text.old.items ++ this_text program.now options.now) }
    ensures growth { OnErr result (G.refused growth) }
{
    let globals = program.globals().len() as u32;
    fill(
        growth,
        text,
        b"static const aslr_program aslr_this = {@, @, aslr_classes, aslr_lists, ",
        &[program.classes(), globals],
    )?;
    put_callee(growth, text, options, program.start())?;
    growth.append(text, b"};\n\n")
}
