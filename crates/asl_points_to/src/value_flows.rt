//! The flows of a program: what classes owe to each instruction.

ghost use Rattle.std.specs.Prelude.{◌≡◌, ◌+◌, ◌-◌, ◌<◌, ◌++◌, ℕ, IfOk, length, slice_get};
ghost use Rattle.asl_lower.specs.OpenSections.{returned, returned_by};
ghost use Rattle.asl_points_to.specs.Flows.{plain_flow, call_flows, Stands, AddsFlows, AreFlows};

use crate::value_flow::{Flow, Place};
use asl_code::Instr;
use asl_lower::Lowering;
use std::alloc::{AllocError, Global};

/// The flows of a program: classes owe them what they owe to all instructions of all bodies.
pub fn program_flows(alloc: Global, lowering: &Lowering) -> Result<Vec<Flow>, AllocError>
    ensures { IfOk result (λ flows. AreFlows lowering.now (length lowering.now.code) flows.items) }
{
    let results = returned_registers(alloc, lowering)?;
    let code = lowering.code();
    let mut flows = Vec::new(alloc);
    let mut start = 0;
    for (number, function) in lowering.functions().iter().enumerate() {
        let end = start + function.len as usize;
        for pc in start..end {
            push_flows(&mut flows, lowering, &results, number as u16, &code[pc])?;
        }
        start = end;
    }
    Ok(flows)
}

/// The register that each function returns.
fn returned_registers(alloc: Global, lowering: &Lowering) -> Result<Vec<u8>, AllocError>
    ensures { IfOk result (λ v. (g : ℕ) → g < length lowering.now.functions → slice_get v.items g ≡ Some (returned lowering.now g)) }
{
    let code = lowering.code();
    let mut registers = Vec::new(alloc);
    let mut end = 0;
    for function in lowering.functions() {
        end += function.len as usize;
        registers.push(returned_before(code, end))?;
    }
    Ok(registers)
}

/// The register that the instruction before a place returns, or 0.
fn returned_before(code: &[Instr], end: usize) -> u8
    ensures { result ≡ returned_by (slice_get code.now (end - 1)) }
{
    match code.get(end.saturating_sub(1)) {
        Some(Instr::Return { from }) => *from,
        _ => 0,
    }
}

/// Adds the flows of an instruction of a function.
fn push_flows(
    flows: &mut Vec<Flow>,
    lowering: &Lowering,
    results: &[u8],
    function: u16,
    instr: &Instr,
) -> Result<(), AllocError>
    requires stands { Stands lowering.now function instr.now }
    requires results { (g : ℕ) → g < length lowering.now.functions → slice_get results.now g ≡ Some (returned lowering.now g) }
    ensures { IfOk result (λ _. AddsFlows lowering.now function instr.now flows.old.items flows.new.items) }
{
    if let Instr::Call {
        to,
        first,
        function: callee,
    } = *instr
    {
        let parameters = lowering.functions()[usize::from(callee)].params;
        let register = results[usize::from(callee)];
        let to = Place {
            function,
            register: to,
        };
        let returned = Place {
            function: callee,
            register,
        };
        return push_call(flows, to, first, parameters, returned);
    }
    if let Some(flow) = plain_flow(lowering.globals(), function, instr) {
        flows.push(flow)?;
    }
    Ok(())
}

/// Adds the flows of a call: from the argument registers to so many parameters, and from what is returned.
fn push_call(
    flows: &mut Vec<Flow>,
    to: Place,
    first: u8,
    parameters: u8,
    returned: Place,
) -> Result<(), AllocError>
    requires { first + parameters < 256 }
    ensures { IfOk result (λ _. flows.new.items ≡ flows.old.items ++ call_flows to.function to.register first returned.function parameters returned.register) }
{
    for n in 0..parameters {
        let from = Place {
            function: to.function,
            register: first + n,
        };
        let into = Place {
            function: returned.function,
            register: n,
        };
        flows.push(Flow::Copy { from, into })?;
    }
    flows.push(Flow::Copy {
        from: returned,
        into: to,
    })?;
    Ok(())
}

/// The flow of an instruction of a function that is no call, if classes owe it anything.
fn plain_flow(globals: u16, function: u16, instr: &Instr) -> Option<Flow>
    ensures { result ≡ plain_flow globals function instr.now }
{
    let place = |register: u8| Place { function, register };
    match *instr {
        Instr::Move { to, from } | Instr::FieldAddress { to, from, .. } => Some(Flow::Copy {
            from: place(from),
            into: place(to),
        }),
        Instr::GlobalAddress { to, global } => Some(Flow::Member {
            member: u32::from(global),
            into: place(to),
        }),
        Instr::New { to, class, .. } => Some(Flow::Member {
            member: u32::from(globals) + u32::from(class),
            into: place(to),
        }),
        Instr::Load { to, address } => Some(Flow::Load {
            address: place(address),
            into: place(to),
        }),
        Instr::Store { address, from } => Some(Flow::Store {
            address: place(address),
            from: place(from),
        }),
        _ => None,
    }
}
