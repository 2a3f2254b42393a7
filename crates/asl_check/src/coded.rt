//! Whether a program is the image of a lowering with classes.
ghost use Rattle.std.specs.Prelude.{◌≡◌, ◌↔◌, IsTrue, MatchOption, Some, length, map, slice_get};
ghost use Rattle.asl_soundness.specs.Coded.{classed};
ghost use Rattle.asl_emitter.specs.BuiltImage.{HasSites};
ghost use Rattle.asl_points_to.specs.Classes.{AreClasses};
ghost use Rattle.asl_check.specs.Checked.{HasTables, IsCodeOf, IsFirstOther, IsOtherCode, IsOtherPlace};

use crate::code_difference::{CodeDifference, difference_at};
use asl_code::{Function, Instr, NEWEST, Program};
use asl_emitter::classed;
use asl_lower::Lowering;
use asl_points_to::Classes;

/// Whether both are the same instruction.
fn are_same(instr: &Instr, other: &Instr) -> bool
    ensures { IsTrue result ↔ (instr.now ≡ other.now) }
{
    instr == other
}

/// Whether the lowered code has the instruction at a place, with its class.
fn has_at(lowered: &[Instr], classes: &Classes, pc: usize, instr: &Instr) -> bool
    requires { HasSites lowered.now classes.now }
    ensures { IsTrue result ↔ (slice_get (map (classed classes.now) lowered.now) pc ≡ Some instr.now) }
{
    match lowered.get(pc) {
        Some(own) => are_same(&classed(own, classes), instr),
        None => false,
    }
}

/// The place of the first instruction of the code that is not the lowered one with its class, or that only one of both has.
fn first_other(code: &[Instr], lowered: &[Instr], classes: &Classes) -> Option<usize>
    requires { HasSites lowered.now classes.now }
    ensures { MatchOption result (code.now ≡ map (classed classes.now) lowered.now) (IsFirstOther code.now (map (classed classes.now) lowered.now)) }
{
    for (pc, instr) in code.iter().enumerate() {
        if !has_at(lowered, classes, pc, instr) {
            return Some(pc);
        }
    }
    if code.len() < lowered.len() {
        return Some(code.len());
    }
    None
}

/// Whether both lists have the same classes.
fn are_same_globals(globals: &[u16], others: &[u16]) -> bool
    ensures { IsTrue result ↔ (globals.now ≡ others.now) }
{
    globals == others
}

/// Whether both lists have the same functions.
fn are_same_functions(functions: &[Function], others: &[Function]) -> bool
    ensures { IsTrue result ↔ (functions.now ≡ others.now) }
{
    functions == others
}

/// Whether a program has the tables of a lowering with classes: all but its code, and its lists but for their number.
fn has_tables(program: &Program, lowering: &Lowering, classes: &Classes) -> bool
    ensures { IsTrue result ↔ HasTables lowering.now classes.now program.now }
{
    if program.version() != NEWEST {
        return false;
    }
    if program.classes() != u32::from(classes.count()) {
        return false;
    }
    if !are_same_globals(program.globals(), classes.globals()) {
        return false;
    }
    if !are_same_functions(program.functions(), lowering.functions()) {
        return false;
    }
    if program.start() != lowering.main() {
        return false;
    }
    program.lists().len() == lowering.sections().len()
}

/// Where a program is not that of a lowering with classes, its lists aside: the first instruction that is another's, or the number
/// of its instructions where the tables differ.
fn other_place(program: &Program, lowering: &Lowering, classes: &Classes) -> Option<usize>
    requires { AreClasses lowering.now classes.now }
    ensures { MatchOption result (IsCodeOf lowering.now classes.now program.now) (IsOtherPlace lowering.now classes.now program.now) }
{
    if let Some(pc) = first_other(program.code(), lowering.code(), classes) {
        return Some(pc);
    }
    if has_tables(program, lowering, classes) {
        None
    } else {
        Some(program.code().len())
    }
}

/// Why a program is not that of a lowering with classes, its lists aside: where it differs first, and what both have there.
pub fn other_code(
    program: &Program,
    lowering: &Lowering,
    classes: &Classes,
) -> Option<CodeDifference>
    requires { AreClasses lowering.now classes.now }
    ensures { MatchOption result (IsCodeOf lowering.now classes.now program.now) (IsOtherCode lowering.now classes.now program.now) }
{
    match other_place(program, lowering, classes) {
        Some(pc) => Some(difference_at(program, lowering, classes, pc)),
        None => None,
    }
}
