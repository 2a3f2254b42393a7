//! What classes owe to the instructions of a program.

ghost use Rattle.std.specs.Prelude.{◌≡◌, ◌+◌, ◌<◌, ◌++◌, ◌∷◌, [], IfOk, IfSome, Some, None, length, slice_get};
ghost use Rattle.asl_lower.specs.LegalLowering.{IsLegalLowering};
ghost use Rattle.asl_lower.specs.OpenSections.{InBody};
ghost use Rattle.asl_class_reasons.specs.Draft.{plain_flow, passed, returned_one, AreOwed, AreOwedAt};

use crate::flow::{Flow, Owed};
use crate::place::Place;
use asl_code::Instr;
use asl_lower::Lowering;
use std::alloc::{AllocError, Global};

/// All that is owed to the instructions of a program.
pub(crate) fn program_owed(alloc: Global, lowering: &Lowering) -> Result<Vec<Owed>, AllocError>
    ensures { IfOk result (λ v. AreOwed lowering.now (length lowering.now.code) v.items) }
{
    let code = lowering.code();
    let mut owed = Vec::new(alloc);
    let mut start = 0;
    for (number, function) in lowering.functions().iter().enumerate() {
        let end = start + function.len as usize;
        for pc in start..end {
            push_owed(&mut owed, lowering, number as u16, pc as u16, code[pc])?;
        }
        start = end;
    }
    Ok(owed)
}

/// Adds what is owed to the instruction at a pc, in the body of a function.
fn push_owed(
    owed: &mut Vec<Owed>,
    lowering: &Lowering,
    function: u16,
    pc: u16,
    instr: Instr,
) -> Result<(), AllocError>
    requires kept { IsLegalLowering lowering.now }
    requires body { InBody lowering.now function pc }
    requires there { slice_get lowering.now.code pc ≡ Some instr }
    ensures { IfOk result (λ _. AreOwed lowering.now pc owed.old.items → AreOwed lowering.now (pc + 1) owed.new.items) }
{
    if let Instr::Call {
        to,
        first,
        function: callee,
    } = instr
    {
        let parameters = lowering.functions()[usize::from(callee)].params;
        push_passed(owed, pc, function, first, callee, parameters)?;
        let from = Place::Register {
            function: callee,
            register: lowering.returned(callee),
        };
        let into = Place::Register {
            function,
            register: to,
        };
        owed.push(Owed {
            pc,
            flow: Flow::Copy { from, into },
        })?;
    } else if let Some(flow) = plain_flow(lowering.globals(), function, instr) {
        owed.push(Owed { pc, flow })?;
    }
    Ok(())
}

/// Adds what is owed for so many arguments of a call: from each argument register to its parameter.
fn push_passed(
    owed: &mut Vec<Owed>,
    pc: u16,
    function: u16,
    first: u8,
    callee: u16,
    parameters: u8,
) -> Result<(), AllocError>
    requires { first + parameters < 256 }
    ensures { IfOk result (λ _. owed.new.items ≡ owed.old.items ++ passed pc function first callee parameters) }
{
    for n in 0..parameters {
        let from = Place::Register {
            function,
            register: first + n,
        };
        let into = Place::Register {
            function: callee,
            register: n,
        };
        owed.push(Owed {
            pc,
            flow: Flow::Copy { from, into },
        })?;
    }
    Ok(())
}

/// What is owed to an instruction of a function that is no call.
fn plain_flow(globals: u16, function: u16, instr: Instr) -> Option<Flow>
    ensures { result ≡ plain_flow globals function instr }
{
    let register = |register: u8| Place::Register { function, register };
    match instr {
        Instr::Move { to, from } | Instr::FieldAddress { to, from, .. } => Some(Flow::Copy {
            from: register(from),
            into: register(to),
        }),
        Instr::GlobalAddress { to, global } => Some(Flow::Copy {
            from: Place::Member(u32::from(global)),
            into: register(to),
        }),
        Instr::New { to, class, .. } => Some(Flow::Copy {
            from: Place::Member(u32::from(globals) + u32::from(class)),
            into: register(to),
        }),
        Instr::Load { to, address } => Some(Flow::Load {
            address: register(address),
            into: register(to),
        }),
        Instr::Store { address, from } => Some(Flow::Store {
            address: register(address),
            from: register(from),
        }),
        _ => None,
    }
}
