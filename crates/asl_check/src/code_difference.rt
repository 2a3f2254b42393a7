//! Where the code of a program is not that of its tree, and what both have there.
ghost use Rattle.std.specs.Prelude.{◌≡◌, map, slice_get};
ghost use Rattle.asl_lower.specs.OpenSections.{owner_of};
ghost use Rattle.asl_soundness.specs.Coded.{classed};
ghost use Rattle.asl_emitter.specs.BuiltImage.{HasSites};
ghost use Rattle.asl_points_to.specs.Classes.{AreClasses};
ghost use Rattle.asl_check.specs.Checked.{owner_there};

use asl_code::{Function, Instr, Program};
use asl_emitter::classed;
use asl_lower::Lowering;
use asl_points_to::Classes;

/// Where a program is not its tree's, its lists aside. Where both have an instruction there, it is the first that is another's. Where one of
/// them has none, its code ends there, and is the same before. Where none of them has one, the code is the same, and the version or a table
/// is not.
#[derive(Clone, Copy)]
pub struct CodeDifference {
    /// The place in the code, from 0.
    pub pc: usize,
    /// The function in whose body the place is: of the tree's functions, or of the program's where the tree has no instruction there.
    pub function: usize,
    /// The instruction that the tree has there, with its class.
    pub source: Option<Instr>,
    /// The instruction that the program has there.
    pub program: Option<Instr>,
}

/// The number of the function in whose body a place is, where the bodies lie one after the other.
fn owner_in(functions: &[Function], pc: usize) -> usize
    ensures { result ≡ owner_of functions.now pc }
{
    let mut number = 0;
    let mut left = pc;
    for function in functions {
        if left < function.len as usize {
            return number;
        }
        left -= function.len as usize;
        number += 1;
    }
    number
}

/// The instruction of the lowered code at a place, with its class.
fn classed_at(lowered: &[Instr], classes: &Classes, pc: usize) -> Option<Instr>
    requires { HasSites lowered.now classes.now }
    ensures { result ≡ slice_get (map (classed classes.now) lowered.now) pc }
{
    match lowered.get(pc) {
        Some(own) => Some(classed(own, classes)),
        None => None,
    }
}

/// The instruction of a code at a place.
fn instr_at(code: &[Instr], pc: usize) -> Option<Instr>
    ensures { result ≡ slice_get code.now pc }
{
    match code.get(pc) {
        Some(instr) => Some(*instr),
        None => None,
    }
}

/// What the tree and the program have at a place.
pub(crate) fn difference_at(
    program: &Program,
    lowering: &Lowering,
    classes: &Classes,
    pc: usize,
) -> CodeDifference
    requires { AreClasses lowering.now classes.now }
    ensures place { result.pc ≡ pc }
    ensures function { result.function ≡ owner_there lowering.now program.now result.source pc }
    ensures source { result.source ≡ slice_get (map (classed classes.now) lowering.now.code) pc }
    ensures program { result.program ≡ slice_get program.now.code pc }
{
    let source = classed_at(lowering.code(), classes, pc);
    let function = match source {
        Some(_) => owner_in(lowering.functions(), pc),
        None => owner_in(program.functions(), pc),
    };
    CodeDifference {
        pc,
        function,
        source,
        program: instr_at(program.code(), pc),
    }
}
