//! A frame of a function that a thread runs.
ghost use Rattle.std.specs.Prelude.{◌≡◌, ◌<◌, ◌≤◌, ◌+◌, ◌^◌, IfOk, IfSome, OnOk, Some, length, slice_get, pos, ◌∷◌, []};
ghost use Rattle.asl_code.specs.Fits.{FitsImage};
ghost use Rattle.asl_code.specs.Versions.{newest_threads};
ghost use Rattle.asl_machine.specs.Calls.{function_of, first_registers};

use crate::packed_value::PackedValue;
use crate::program_code::Code;
use asl_code::Value;
use std::alloc::{AllocError, Global};
use std::marker::Model;

/// A frame of a function: the place of its next instruction, its registers, and the register of the frame below that
/// awaits its value.
#[derive(Drop)]
pub struct Frame {
    function: u16,
    pc: u16,
    regs: Vec<PackedValue>,
    result: Option<u8>,
}

impl Model for Frame {
    ghost use Rattle.asl_machine.specs.State.{Frame};

    ghost Value = { Frame };

    ghost view = { λ f. record { function = f.function; pc = f.pc; regs = f.regs.items; result = f.result } };
}

impl Frame {
    ghost use Rattle.std.specs.Prelude.{◌∷◌, [], None};
    ghost use Rattle.asl_code.specs.Fits.{FitsImage};
    ghost use Rattle.asl_code.specs.declared.value.Value.TheVariants.{Int};
    ghost use Rattle.asl_machine.specs.Calls.{first_frame, values_from, with_result};
    ghost use Rattle.asl_machine.specs.Step.{placed_at, advanced, advanced_with};

    /// The frame in which thread t starts: the entry function's, with the thread's number as the parameter.
    pub fn entry(alloc: Global, code: &Code<'_>, t: u32) -> Result<Frame, AllocError>
        requires fits { FitsImage code.now }
        requires small { t < newest_threads }
        ensures { IfOk result (λ frame. frame ≡ first_frame code.now code.now.start (Int (pos t) ∷ []) None) }
    {
        let function = code.program().start();
        let parameter = [PackedValue::of(Value::Int(t as i32))];
        Ok(Frame {
            function,
            pc: code.first(function),
            regs: registers(alloc, &parameter, code.function(function).regs)?,
            result: None,
        })
    }

    /// A frame without registers, for `begin` to make a frame of.
    pub(crate) fn blank(alloc: Global) -> Frame {
        Frame {
            function: 0,
            pc: 0,
            regs: Vec::new(alloc),
            result: None,
        }
    }

    /// An equal frame.
    pub(crate) fn try_copy(&self, alloc: Global) -> Result<Frame, AllocError>
        ensures { IfOk result (λ frame. frame ≡ self.now) }
    {
        Ok(Frame {
            function: self.function,
            pc: self.pc,
            regs: self.regs.as_slice().to_vec(alloc)?,
            result: self.result,
        })
    }

    /// Becomes the frame that the caller begins by calling the function with its registers from `first` on.
    pub(crate) fn begin(
        &mut self,
        caller: &Frame,
        code: &Code<'_>,
        to: u8,
        first: u8,
        function: u16,
    ) -> Result<(), AllocError>
        requires fits { FitsImage code.now }
        requires there { function < length code.now.functions }
        requires arguments { first + (function_of code.now function).params ≤ length caller.now.regs }
        ensures { OnOk result (self.new ≡ first_frame code.now function
            (values_from caller.now.regs first (function_of code.now function).params) (Some to)) }
    {
        let callee = code.function(function);
        let first = usize::from(first);
        let arguments = &caller.regs[first..first + usize::from(callee.params)];
        fill(&mut self.regs, arguments, callee.regs)?;
        self.function = function;
        self.pc = code.first(function);
        self.result = Some(to);
        Ok(())
    }

    /// The number of the function.
    pub fn function(&self) -> u16
        ensures { result ≡ self.now.function }
    {
        self.function
    }

    /// The place of the next instruction.
    pub fn pc(&self) -> u16
        ensures { result ≡ self.now.pc }
    {
        self.pc
    }

    /// The registers.
    pub fn regs(&self) -> &[PackedValue]
        ensures { result.now ≡ self.now.regs }
    {
        self.regs.as_slice()
    }

    /// The value of a register.
    pub fn read(&self, register: u8) -> PackedValue
        requires { register < length self.now.regs }
        ensures { slice_get self.now.regs register ≡ Some result }
    {
        self.regs[usize::from(register)]
    }

    /// Goes to the next instruction.
    pub fn advance(&mut self)
        requires { self.old.pc + 1 < 2 ^ 16 }
        ensures { self.new ≡ advanced self.old }
    {
        self.pc += 1;
    }

    /// Goes to this place of the code.
    pub fn jump(&mut self, target: u16)
        ensures { self.new ≡ placed_at target self.old }
    {
        self.pc = target;
    }

    /// Puts the value into the register and goes to the next instruction.
    pub fn advance_with(&mut self, register: u8, value: PackedValue)
        requires there { register < length self.old.regs }
        requires room { self.old.pc + 1 < 2 ^ 16 }
        ensures { self.new ≡ advanced_with register value self.old }
    {
        self.regs[usize::from(register)] = value;
        self.pc += 1;
    }

    /// The register of the frame below that awaits the value.
    pub(crate) fn awaiting(&self) -> Option<u8>
        ensures { result ≡ self.now.result }
    {
        self.result
    }

    /// Takes the value of the frame above into the register that awaits it.
    pub(crate) fn receive(&mut self, awaiting: Option<u8>, value: PackedValue)
        requires { IfSome awaiting (λ register. register < length self.old.regs) }
        ensures { self.new ≡ with_result awaiting value self.old }
    {
        if let Some(register) = awaiting {
            self.regs[usize::from(register)] = value;
        }
    }
}

/// So many registers, of which the first are the parameters.
fn registers(
    alloc: Global,
    arguments: &[PackedValue],
    count: u8,
) -> Result<Vec<PackedValue>, AllocError>
    requires { length arguments.now ≤ count }
    ensures { IfOk result (λ regs. regs.items ≡ first_registers arguments.now count) }
{
    let mut regs = Vec::new(alloc);
    fill(&mut regs, arguments, count)?;
    Ok(regs)
}

/// Puts so many registers, of which the first are the parameters, in place of what is there.
fn fill(regs: &mut Vec<PackedValue>, arguments: &[PackedValue], count: u8) -> Result<(), AllocError>
    requires { length arguments.now ≤ count }
    ensures { OnOk result (regs.new.items ≡ first_registers arguments.now count) }
{
    regs.clear();
    regs.reserve_exact(usize::from(count))?;
    regs.extend_from_slice(arguments)?;
    regs.resize(usize::from(count), PackedValue::of(Value::Int(0)))
}

/// Equal frames.
pub(crate) fn copies(alloc: Global, frames: &[Frame]) -> Result<Vec<Frame>, AllocError>
    ensures { IfOk result (λ copies. copies.items ≡ frames.now) }
{
    let mut copies = Vec::new(alloc);
    for frame in frames {
        copies.push(frame.try_copy(alloc)?)?;
    }
    Ok(copies)
}
