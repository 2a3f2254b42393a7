//! Of which kind the condition of a step is, by an instruction.
ghost use Rattle.std.specs.Prelude.{◌≡◌, slice_get};
ghost use Rattle.asl_class_text.specs.Kinds.{is_argument, call_kind, kind_at, kind_of, start_of, end_of};

use crate::facts::Facts;
use crate::told::ToldStep;
use crate::words::parameters_of;
use asl_class_reasons::{Place, Step};
use asl_code::Instr;

/// The kinds of conditions on classes.
#[derive(Clone, Copy, PartialEq, Eq)]
pub enum Kind {
    /// A register is set to the address of a global.
    Address,
    /// A register is set to the address of a new object.
    Made,
    /// A register is copied.
    Copied,
    /// A register is moved by some cells.
    Field,
    /// A cell is read.
    Loaded,
    /// A cell is written.
    Stored,
    /// An argument is passed to a parameter.
    Passed,
    /// The result of a call is set.
    Returned,
}

/// Whether a step leads from the argument of a call to its parameter, of which the callee has so many: from the register `first`,
/// and as many more as the number of the parameter.
fn is_argument(step: &Step, first: u8, callee: u16, parameters: u8) -> bool
    ensures { result ≡ is_argument step.now first callee parameters }
{
    match (step.from, step.into) {
        (Place::Register { register: from, .. }, Place::Register { function, register }) => {
            function == callee
                && register < parameters
                && u16::from(from) == u16::from(first) + u16::from(register)
        }
        _ => false,
    }
}

/// The kind of a step by a call.
fn call_kind(facts: &Facts<'_>, step: &Step, first: u8, callee: u16) -> Kind
    ensures { result ≡ call_kind facts.now step.now first callee }
{
    if is_argument(step, first, callee, parameters_of(facts, callee)) {
        Kind::Passed
    } else {
        Kind::Returned
    }
}

/// The kind of a step by an instruction.
fn kind_at(facts: &Facts<'_>, instr: Instr, step: &Step) -> Kind
    ensures { result ≡ kind_at facts.now instr step.now }
{
    match instr {
        Instr::GlobalAddress { .. } => Kind::Address,
        Instr::New { .. } => Kind::Made,
        Instr::FieldAddress { .. } => Kind::Field,
        Instr::Load { .. } => Kind::Loaded,
        Instr::Store { .. } => Kind::Stored,
        Instr::Call {
            first,
            function,
            ..
        } => call_kind(facts, step, first, function),
        _ => Kind::Copied,
    }
}

/// The kind of a step by the instruction at a pc.
pub(crate) fn kind_of(facts: &Facts<'_>, pc: u16, step: &Step) -> Kind
    ensures { result ≡ kind_of facts.now pc step.now }
{
    match facts.lowering.code().get(usize::from(pc)) {
        Some(instr) => kind_at(facts, *instr, step),
        None => Kind::Copied,
    }
}

/// The place from which the chain goes over a step.
pub(crate) fn start_of(told: ToldStep) -> Place
    ensures { result ≡ start_of told }
{
    if told.back {
        told.step.into
    } else {
        told.step.from
    }
}

/// The place to which the chain goes over a step.
pub(crate) fn end_of(told: ToldStep) -> Place
    ensures { result ≡ end_of told }
{
    if told.back {
        told.step.from
    } else {
        told.step.into
    }
}
