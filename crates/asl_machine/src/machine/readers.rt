//! Readers of a machine's threads: their frames, and what they ask for.
ghost use Rattle.std.specs.Prelude.{◌≡◌, ◌<◌, IfOk, OnErr, length, option_map, option_and_then, ◌≢◌, ◌≤◌, ◌↔◌, IfSome, IsSomeAnd, IsTrue, false, Some, slice_get};
ghost use Rattle.asl_machine.specs.Asked.{asked_of, request_at};
ghost use Rattle.asl_machine.specs.Frames.{frame_at, frame_reg_at, place_of};
ghost use Rattle.asl_machine.specs.Request.{locks_of};
ghost use Rattle.asl_lock_forest.specs.declared.node.Node.{Node};
ghost use Rattle.asl_machine.specs.State.{cell_at, size_of, class_of, activity_at};

use crate::activity::Activity;
use crate::heap::Heap;
use crate::machine::Machine;
use crate::program_code::Code;
use crate::reply::Status;
use crate::request::whole_request;
use asl_code::{Cell, Instr, Lock, Value};
use asl_lock_forest::Node;
use asl_mode_lanes::Mode;
use std::alloc::{AllocError, Global};

/// Where a frame is.
#[derive(Clone, Copy, Debug, PartialEq, Eq)]
pub struct FramePlace {
    /// The number of its function.
    pub function: u32,
    /// The place of its next instruction.
    pub pc: u32,
}

impl<'p> Machine<'p> {
    ghost use Rattle.asl_lock_forest.specs.Holding.{asked, held};
    ghost use Rattle.asl_lock_forest.specs.Node.{IsThere};
    ghost use Rattle.asl_machine.specs.View.{status_of};
    ghost use Rattle.asl_machine.specs.Nodes.{IsNode};
    ghost use Rattle.asl_machine.specs.Cover.{is_fresh};
    ghost use Rattle.asl_machine.specs.Fresh.{fresh_at};
    ghost use Rattle.asl_code.specs.Versions.{has_fresh};

    /// Where the frame of thread t is, from 0 at the top, if the thread runs and the frame is there.
    pub fn frame(&self, t: u32, index: u32) -> Option<FramePlace>
        requires { t < length self.now.state.threads }
        ensures { result ≡ option_map place_of (frame_at self.now.state t index) }
    {
        let activity = self.threads[t as usize].activity()?;
        let frame = activity.frame(index as usize)?;
        Some(FramePlace {
            function: u32::from(frame.function()),
            pc: u32::from(frame.pc()),
        })
    }

    /// The value of a register of that frame, if both are there.
    pub fn frame_reg(&self, t: u32, index: u32, register: u32) -> Option<Value>
        requires { t < length self.now.state.threads }
        ensures { result ≡ frame_reg_at self.now.state t index register }
    {
        let activity = self.threads[t as usize].activity()?;
        let frame = activity.frame(index as usize)?;
        let word = frame.regs().get(register as usize)?;
        Some(word.value())
    }

    /// What thread t asks for in the present state, if it stands at an `acq` in no section: at each node the least mode that
    /// is enough for the list's locks, each node once and none in `NL`. The next step of the thread is granted exactly where
    /// no other thread holds a node in a mode that does not go with the one that is asked (`requests_are_granted`).
    ///
    /// # Errors
    ///
    /// An allocation failed, and the request names a node.
    pub fn request(&self, alloc: Global, t: u32) -> Result<Option<Vec<(Node, Mode)>>, AllocError>
        requires { t < length self.now.state.threads }
        ensures request { IfOk result (λ request. option_map (λ asks. asks.items) request ≡ request_at self.now.image self.now.state t) }
        ensures memory { OnErr result (IsSomeAnd (request_at self.now.image self.now.state t) (λ asks. 0 < length asks)) }
    {
        match self.threads[t as usize].activity() {
            Some(activity) => asked(alloc, &self.code, &self.heap, activity),
            None => Ok(None),
        }
    }

    /// Whether thread t runs, and else how it ended.
    pub fn status(&self, t: u32) -> Status
        requires { t < length self.now.state.threads }
        ensures { option_map status_of (slice_get self.now.state.threads t) ≡ Some result }
    {
        self.threads[t as usize].status()
    }

    /// The place of the next instruction of thread t, if it runs.
    pub fn pc(&self, t: u32) -> Option<u32>
        requires { t < length self.now.state.threads }
        ensures { result ≡ option_map (λ activity. activity.top.pc) (activity_at self.now.state.threads t) }
    {
        let activity = self.threads[t as usize].activity()?;
        Some(u32::from(activity.pc()))
    }

    /// The value of a register of thread t's top frame, if the thread runs and the register is there.
    pub fn reg(&self, t: u32, register: u32) -> Option<Value>
        requires { t < length self.now.state.threads }
        ensures { result ≡ option_and_then (λ activity. slice_get activity.top.regs register) (activity_at self.now.state.threads t) }
    {
        let activity = self.threads[t as usize].activity()?;
        let word = activity.regs().get(register as usize)?;
        Some(word.value())
    }

    /// How many objects there are, 65,536 at the most.
    pub fn objects(&self) -> u32
        ensures count { result ≡ length self.now.state.objects }
        ensures few { result ≤ 65536 }
    {
        self.heap.len() as u32
    }

    /// How many cells the object has, 1 to 255, if it is there.
    pub fn size(&self, object: u32) -> Option<u32>
        ensures size { result ≡ size_of self.now.state.objects object }
        ensures some { IfSome result (λ cells. 0 < cells) }
        ensures few { IfSome result (λ cells. cells ≤ 255) }
    {
        Some(u32::from(self.heap.size(object as usize)?))
    }

    /// The class of the object, one of the program's 1,024 at the most, if it is there.
    pub fn class(&self, object: u32) -> Option<u32>
        ensures class { result ≡ class_of self.now.state.objects object }
        ensures there { IfSome result (λ class. class < self.now.image.classes) }
        ensures few { IfSome result (λ class. class < 1024) }
    {
        Some(u32::from(self.heap.class(object as usize)?))
    }

    /// What the cell holds, if it is there.
    pub fn cell(&self, cell: Cell) -> Option<Value>
        ensures { result ≡ cell_at self.now.state.objects cell }
    {
        Some(self.heap.cell(cell)?.value())
    }

    /// The mode in which thread t holds the node: NL where it does not, or where there is no such node.
    pub fn held(&self, t: u32, node: Node) -> Mode
        requires { t < length self.now.state.threads }
        ensures value { result ≡ held self.now.state.holding t node }
        ensures there { result ≢ Mode.NL → IsNode self.now.image.classes self.now.state.objects node }
    {
        if self.is_there(node) {
            self.forest.mode(t, node)
        } else {
            Mode::NL
        }
    }

    /// What thread t holds: the nodes, each with its mode, and no other node.
    pub fn held_nodes(&self, t: u32) -> &[(Node, Mode)]
        requires { t < length self.now.state.threads }
        ensures { (node : Node) → asked result.now node ≡ held self.now.state.holding t node }
    {
        self.forest.held_nodes(t)
    }

    /// Whether the object is fresh for thread t: never where the thread has ended or the object is not there, and never by
    /// an image of a version without fresh objects.
    pub fn fresh(&self, t: u32, object: u32) -> bool
        requires { t < length self.now.state.threads }
        ensures fresh { result ≡ is_fresh (fresh_at self.now.state.threads t) object }
        ensures there { IsTrue result → object < length self.now.state.objects }
        ensures version { has_fresh self.now.image.version ≡ false → result ≡ false }
    {
        self.threads[t as usize].is_fresh(object)
    }

    /// Whether the class that the node names, if it names one, is below the count.
    fn is_there(&self, node: Node) -> bool
        ensures { IsTrue result ↔ IsThere self.now.image.classes node }
    {
        match node {
            Node::Root => true,
            Node::Class(class) | Node::Leaf(_, class) => u32::from(class)
                < self.code.program().classes(),
        }
    }
}

/// What a running thread asks for, if it stands at an `acq` in no section. Memory is wanted only where it asks for some node.
fn asked(
    alloc: Global,
    code: &Code<'_>,
    heap: &Heap,
    activity: &Activity,
) -> Result<Option<Vec<(Node, Mode)>>, AllocError>
    ensures request { IfOk result (λ request. option_map (λ asks. asks.items) request ≡ asked_of code.now heap.now activity.now) }
    ensures memory { OnErr result (IsSomeAnd (asked_of code.now heap.now activity.now) (λ asks. 0 < length asks)) }
{
    if activity.depth() > 0 {
        return Ok(None);
    }
    match code.program().code().get(usize::from(activity.pc())) {
        Some(Instr::Acquire { list }) => {
            let request = whole_request(alloc, locks(code, *list), activity.regs(), heap)?;
            Ok(Some(request))
        }
        _ => Ok(None),
    }
}

/// The locks of the list, if it is there.
fn locks<'a>(code: &'a Code<'_>, list: u16) -> &'a [Lock]
    ensures { result.now ≡ locks_of code.now list }
{
    match code.program().lists().get(usize::from(list)) {
        Some(locks) => locks.as_slice(),
        None => &[],
    }
}
