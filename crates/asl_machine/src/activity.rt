//! What a running thread is at: its frames, its sections and its fresh objects.
ghost use Rattle.std.specs.Prelude.{◌≡◌, ◌≢◌, ◌↔◌, IsTrue, ◌<◌, ◌≤◌, ◌+◌, ◌-◌, ◌^◌, ℕ, IfOk, OnOk, OnErr, Some, List, All, length, slice_get, ◌∷◌, ◌++◌, []};
ghost use Rattle.asl_code.specs.Fits.{FitsImage};
ghost use Rattle.asl_code.specs.Versions.{newest_threads};
ghost use Rattle.asl_machine.specs.Calls.{function_of};

use crate::frame::{Frame, copies};
use crate::packed_value::PackedValue;
use crate::program_code::Code;
use std::alloc::{AllocError, Global};
use std::marker::Model;
use std::mem;

/// What a running thread is at: how many sections it is in, its top frame, how many frames are below, these frames, the
/// nearest last, and the objects that are fresh for it, whose numbers rise.
///
/// After the frames below are others that wait for nothing, since they have ended or a refused call left them blank: the
/// next calls use their capacity.
#[derive(Drop)]
pub struct Activity {
    depth: u8,
    top: Frame,
    below: usize,
    frames: Vec<Frame>,
    fresh: Vec<u32>,
}

impl Model for Activity {
    ghost use Rattle.std.specs.Prelude.{◌≤◌, take, length, reverse};
    ghost use Rattle.asl_machine.specs.State.{Activity};

    ghost Value = { Activity };

    ghost view = { λ a. record { depth = a.depth; top = a.top; below = reverse (take a.below a.frames.items); fresh = a.fresh.items } };

    ghost use Rattle.std.specs.List.Sorted.{IsNonDecreasing};

    ghost invariant = { λ a. (a.below ≤ length a.frames.items) × IsNonDecreasing a.fresh.items };
}

impl Activity {
    ghost use Rattle.std.specs.Prelude.{[], option_copied};
    ghost use Rattle.asl_machine.specs.Frames.{frames_of};
    ghost use Rattle.asl_code.specs.Fits.{FitsImage};
    ghost use Rattle.asl_machine.specs.Calls.{frame_count, IsAwaited};
    ghost use Rattle.asl_machine.specs.Run.{first_activity};
    ghost use Rattle.asl_machine.specs.Cover.{is_fresh};
    ghost use Rattle.asl_machine.specs.Step.{placed_at, advanced, advanced_with, going_on, with_fresh, called, left_last};
    ghost use Rattle.asl_machine.specs.StepFunction.{register_of, activity_returned};

    /// What thread t is at when it starts.
    pub fn first(alloc: Global, code: &Code<'_>, t: u32) -> Result<Activity, AllocError>
        requires fits { FitsImage code.now }
        requires small { t < newest_threads }
        ensures { IfOk result (λ activity. activity ≡ first_activity code.now t) }
    {
        Ok(Activity {
            depth: 0,
            top: Frame::entry(alloc, code, t)?,
            below: 0,
            frames: Vec::new(alloc),
            fresh: Vec::new(alloc),
        })
    }

    /// An equal one.
    pub fn try_copy(&self, alloc: Global) -> Result<Activity, AllocError>
        ensures { IfOk result (λ activity. activity ≡ self.now) }
    {
        Ok(Activity {
            depth: self.depth,
            top: self.top.try_copy(alloc)?,
            below: self.below,
            frames: copies(alloc, &self.frames[..self.below])?,
            fresh: self.fresh.as_slice().to_vec(alloc)?,
        })
    }

    /// How many sections the thread is in.
    pub fn depth(&self) -> u8
        ensures { result ≡ self.now.depth }
    {
        self.depth
    }

    /// How many frames the thread has.
    pub fn frames(&self) -> usize
        ensures { result ≡ frame_count self.now }
    {
        self.below + 1
    }

    /// The frame of this number, 0 the top one, if it is there.
    pub fn frame(&self, index: usize) -> Option<&Frame>
        ensures { option_copied result ≡ slice_get (frames_of self.now) index }
    {
        if index == 0 {
            return Some(&self.top);
        }
        if index > self.below {
            return None;
        }
        Some(&self.frames[self.below - index])
    }

    /// The place of the next instruction.
    pub fn pc(&self) -> u16
        ensures { result ≡ self.now.top.pc }
    {
        self.top.pc()
    }

    /// The registers of the top frame.
    pub fn regs(&self) -> &[PackedValue]
        ensures { result.now ≡ self.now.top.regs }
    {
        self.top.regs()
    }

    /// The value of a register of the top frame.
    pub fn read(&self, register: u8) -> PackedValue
        requires { register < length self.now.top.regs }
        ensures there { slice_get self.now.top.regs register ≡ Some result }
        ensures value { result ≡ register_of self.now.top register }
    {
        self.top.read(register)
    }

    /// Goes to the next instruction.
    pub fn advance(&mut self)
        requires { self.old.top.pc + 1 < 2 ^ 16 }
        ensures { self.new ≡ going_on self.old self.old.depth (advanced self.old.top) }
    {
        self.top.advance();
    }

    /// Goes to this place of the code.
    pub fn jump(&mut self, target: u16)
        ensures { self.new ≡ going_on self.old self.old.depth (placed_at target self.old.top) }
    {
        self.top.jump(target);
    }

    /// Puts the value into the register and goes to the next instruction.
    pub fn advance_with(&mut self, register: u8, value: PackedValue)
        requires there { register < length self.old.top.regs }
        requires room { self.old.top.pc + 1 < 2 ^ 16 }
        ensures { self.new ≡ going_on self.old self.old.depth (advanced_with register value self.old.top) }
    {
        self.top.advance_with(register, value);
    }

    /// Enters one section more and goes to the next instruction.
    pub fn enter(&mut self)
        requires depth { self.old.depth < 255 }
        requires room { self.old.top.pc + 1 < 2 ^ 16 }
        ensures { self.new ≡ going_on self.old (self.old.depth + 1) (advanced self.old.top) }
    {
        self.depth += 1;
        self.top.advance();
    }

    /// Whether the object is fresh for the thread.
    pub fn is_fresh(&self, object: u32) -> bool
        ensures { result ≡ is_fresh self.now.fresh object }
    {
        self.fresh.as_slice().binary_search(&object).is_ok()
    }

    /// Adds the object, which is above all that are fresh for the thread, to these.
    pub fn keep_fresh(&mut self, object: u32) -> Result<(), AllocError>
        requires { All (λ one. one < object) self.old.fresh }
        ensures kept { OnOk result (self.new ≡ with_fresh (self.old.fresh ++ object ∷ []) self.old) }
        ensures err { OnErr result (self.new ≡ self.old) }
    {
        self.fresh.push(object)?;
        Ok(())
    }

    /// Takes away the object that was added last to those that are fresh for the thread.
    pub fn drop_last(&mut self)
        ensures { (objects : List ℕ) (object : ℕ) → self.old.fresh ≡ objects ++ object ∷ [] → self.new ≡ with_fresh objects self.old }
    {
        let _last = self.fresh.pop();
    }

    /// Leaves the last section that it is in, and goes to the next instruction. No object is fresh for it any more.
    pub fn leave_last(&mut self)
        requires { self.old.top.pc + 1 < 2 ^ 16 }
        ensures { self.new ≡ left_last self.old }
    {
        self.depth = 0;
        self.fresh.clear();
        self.top.advance();
    }

    /// Leaves a section and goes to the next instruction.
    pub fn leave(&mut self)
        requires depth { 0 < self.old.depth }
        requires room { self.old.top.pc + 1 < 2 ^ 16 }
        ensures { self.new ≡ going_on self.old (self.old.depth - 1) (advanced self.old.top) }
    {
        self.depth -= 1;
        self.top.advance();
    }

    /// Calls the function with the registers from `first` on; its value will go to the register `to`. The caller goes to
    /// its next instruction.
    pub fn call(
        &mut self,
        alloc: Global,
        code: &Code<'_>,
        to: u8,
        first: u8,
        function: u16,
    ) -> Result<(), AllocError>
        requires fits { FitsImage code.now }
        requires there { function < length code.now.functions }
        requires arguments { first + (function_of code.now function).params ≤ length self.old.top.regs }
        requires room { self.old.top.pc + 1 < 2 ^ 16 }
        ensures called { OnOk result (self.new ≡ called code.now self.old to first function) }
        ensures err { OnErr result (self.new ≡ self.old) }
    {
        if self.below == self.frames.len() {
            self.frames.push(Frame::blank(alloc))?;
        }
        self.frames[self.below].begin(&self.top, code, to, first, function)?;
        self.top.advance();
        mem::swap(&mut self.top, &mut self.frames[self.below]);
        self.below += 1;
        Ok(())
    }

    /// Ends the top frame, if one is below, which gets the value: whether one is below.
    #[inline(always)]
    pub fn give(&mut self, value: PackedValue) -> bool
        requires { IsAwaited self.old.top.result self.old.below }
        ensures below { IsTrue result ↔ (self.old.below ≢ []) }
        ensures activity { self.new ≡ activity_returned self.old value self.old.below }
    {
        if self.below == 0 {
            return false;
        }
        self.below -= 1;
        mem::swap(&mut self.top, &mut self.frames[self.below]);
        let awaiting = self.frames[self.below].awaiting();
        self.top.receive(awaiting, value);
        true
    }
}
