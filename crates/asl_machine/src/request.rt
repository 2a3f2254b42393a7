//! What a section asks for at its entry.
ghost use Rattle.std.specs.Prelude.{◌≡◌, ◌<◌, [], IsTrue, false, All, IfOk, OnOk, OnErr, length, position};
ghost use Rattle.asl_expression.specs.Expression.{cell_denoted, base_cell};
ghost use Rattle.asl_lock_forest.specs.Node.{same_node, IsThere};
ghost use Rattle.asl_lock_forest.specs.Holding.{covering_mode, can_grant};
ghost use Rattle.asl_machine.specs.Access.{AreOfClasses};
ghost use Rattle.asl_machine.specs.Request.{LockOfClass, heap_of, asks_of, upper_mode, joined_with, joined_all, request_of};
ghost use Rattle.asl_machine.specs.Asking.{leaf_of, node_of, asks_at, AreFree, IsHeldUp};

use crate::free_locks::are_free;
use crate::gathering::gather_many;
use crate::heap::Heap;
use crate::packed_value::PackedValue;
use crate::places::MOST_LOCKS;
use asl_code::{Base, Cell, Effect, Expr, Lock};
use asl_expression::{follow, pointed};
use asl_lock_forest::{Forest, Node};
use asl_mode_lanes::{Mode, join};
use std::alloc::{AllocError, Global};

/// Of more locks than these, all are looked at before anything is noted: to note an ask is to look for its node among those before.
const FEW: usize = 8;

/// Makes the request of the locks in these registers and this heap: at each node the join of what the locks ask there. Ends
/// where another thread is in the way of one of them: whether none is.
///
/// # Errors
///
/// An allocation failed, and some lock asks for something.
pub fn request(
    asks: &mut Vec<(Node, Mode)>,
    locks: &[Lock],
    regs: &[PackedValue],
    heap: &Heap,
    forest: &Forest,
    t: u32,
) -> Result<bool, AllocError>
    requires locks { All (LockOfClass forest.now.classes) locks.now }
    requires classes { AreOfClasses forest.now.classes heap.now }
    ensures request { IfOk result (λ free. IsTrue free → asks.new.items ≡ request_of heap.now regs.now locks.now) }
    ensures free { IfOk result (λ free. free ≡ can_grant forest.now.holding t (request_of heap.now regs.now locks.now)) }
    ensures asks { OnErr result (0 < length (request_of heap.now regs.now locks.now)) }
{
    asks.clear();
    if locks.len() > FEW {
        return request_many(asks, locks, regs, heap, forest, t);
    }
    for lock in locks {
        if !add_lock(asks, lock, regs, heap, forest, t)? {
            return Ok(false);
        }
    }
    Ok(true)
}

/// The same of many locks, into no asks.
fn request_many(
    asks: &mut Vec<(Node, Mode)>,
    locks: &[Lock],
    regs: &[PackedValue],
    heap: &Heap,
    forest: &Forest,
    t: u32,
) -> Result<bool, AllocError>
    requires none { asks.old.items ≡ [] }
    requires locks { All (LockOfClass forest.now.classes) locks.now }
    requires classes { AreOfClasses forest.now.classes heap.now }
    ensures request { IfOk result (λ free. IsTrue free → asks.new.items ≡ request_of heap.now regs.now locks.now) }
    ensures free { IfOk result (λ free. free ≡ can_grant forest.now.holding t (request_of heap.now regs.now locks.now)) }
    ensures asks { OnErr result (0 < length (request_of heap.now regs.now locks.now)) }
{
    if !are_free(locks, regs, heap, forest, t) {
        return Ok(false);
    }
    gather(asks, locks, regs, heap)?;
    Ok(true)
}

/// The request of the locks in these registers and this heap, whoever is in the way.
pub fn whole_request(
    alloc: Global,
    locks: &[Lock],
    regs: &[PackedValue],
    heap: &Heap,
) -> Result<Vec<(Node, Mode)>, AllocError>
    ensures request { IfOk result (λ asks. asks.items ≡ request_of heap.now regs.now locks.now) }
    ensures asks { OnErr result (0 < length (request_of heap.now regs.now locks.now)) }
{
    let mut asks = Vec::new(alloc);
    gather(&mut asks, locks, regs, heap)?;
    Ok(asks)
}

/// Puts the request of the locks into no asks.
fn gather(
    asks: &mut Vec<(Node, Mode)>,
    locks: &[Lock],
    regs: &[PackedValue],
    heap: &Heap,
) -> Result<(), AllocError>
    requires { asks.old.items ≡ [] }
    ensures request { OnOk result (asks.new.items ≡ request_of heap.now regs.now locks.now) }
    ensures asks { OnErr result (0 < length (request_of heap.now regs.now locks.now)) }
{
    if locks.len() > FEW && locks.len() <= MOST_LOCKS {
        return gather_many(asks, locks, regs, heap);
    }
    for lock in locks {
        add_asks(asks, lock, regs, heap)?;
    }
    Ok(())
}

/// Adds what the lock asks.
fn add_asks(
    request: &mut Vec<(Node, Mode)>,
    lock: &Lock,
    regs: &[PackedValue],
    heap: &Heap,
) -> Result<(), AllocError>
    ensures added { OnOk result (request.new.items ≡ joined_all request.old.items (asks_of heap.now regs.now lock.now)) }
    ensures asks { OnErr result (0 < length (asks_of heap.now regs.now lock.now)) }
{
    match node_of(lock, regs, heap) {
        Some(node) => add_all(request, node, lock.effect()),
        None => Ok(()),
    }
}

/// Adds what the lock asks, unless another thread is in the way: whether none is.
fn add_lock(
    request: &mut Vec<(Node, Mode)>,
    lock: &Lock,
    regs: &[PackedValue],
    heap: &Heap,
    forest: &Forest,
    t: u32,
) -> Result<bool, AllocError>
    requires of_class { LockOfClass forest.now.classes lock.now }
    requires classes { AreOfClasses forest.now.classes heap.now }
    ensures added { IfOk result (λ free. IsTrue free → request.new.items ≡ joined_all request.old.items (asks_of heap.now regs.now lock.now)) }
    ensures free { IfOk result (λ free. IsTrue free → AreFree forest.now.holding t (asks_of heap.now regs.now lock.now)) }
    ensures kept { IfOk result (λ free. free ≡ false → IsHeldUp forest.now.holding t (asks_of heap.now regs.now lock.now)) }
    ensures asks { OnErr result (0 < length (asks_of heap.now regs.now lock.now)) }
{
    let Some(node) = node_of(lock, regs, heap) else {
        return Ok(true);
    };
    let effect = lock.effect();
    if !is_free(forest, t, node, effect) {
        return Ok(false);
    }
    add_all(request, node, effect)?;
    Ok(true)
}

/// The lock's own node, if it has one.
pub(crate) fn node_of(lock: &Lock, regs: &[PackedValue], heap: &Heap) -> Option<Node>
    ensures { result ≡ node_of heap.now regs.now lock.now }
{
    match lock {
        Lock::Root(_) => Some(Node::Root),
        Lock::Class(class, _) => Some(Node::Class(*class)),
        Lock::Expr(expr, _) => leaf_of(denoted(expr, regs, heap), heap),
    }
}

/// The cell that the expression denotes, if it denotes one.
#[tactic(auto, using(asl_expression::proofs::Paths::no_cell_from_none))]
fn denoted(expr: &Expr, regs: &[PackedValue], heap: &Heap) -> Option<Cell>
    ensures { result ≡ cell_denoted (heap_of heap.now) regs.now expr.now }
{
    follow(expr.path.as_slice(), base_cell(expr.base, regs)?, heap)
}

/// The cell at which the evaluation of an expression on the base begins.
fn base_cell(base: Base, regs: &[PackedValue]) -> Option<Cell>
    ensures { result ≡ base_cell regs.now base }
{
    match base {
        Base::Reg(register) => pointed(regs.get(usize::from(register))?.value()),
        Base::Global(object) => Some(Cell { object, offset: 0 }),
    }
}

/// The leaf of the cell that an expression denotes.
fn leaf_of(cell: Option<Cell>, heap: &Heap) -> Option<Node>
    ensures { result ≡ leaf_of heap.now cell }
{
    let cell = cell?;
    let class = heap.class(usize::from(cell.object))?;
    Some(Node::Leaf(cell, class))
}

/// Whether no other thread keeps thread t from what a lock on the node asks.
pub(crate) fn is_free(forest: &Forest, t: u32, node: Node, effect: Effect) -> bool
    requires { IsThere forest.now.classes node }
    ensures free { IsTrue result → AreFree forest.now.holding t (asks_at effect node) }
    ensures kept { result ≡ false → IsHeldUp forest.now.holding t (asks_at effect node) }
{
    match node {
        Node::Root => forest.is_free(t, node, own(effect)),
        Node::Class(_) => {
            forest.is_free(t, node, own(effect)) && forest.is_free(t, Node::Root, upper(effect))
        }
        Node::Leaf(_, class) => {
            forest.is_free(t, node, own(effect))
                && forest.is_free(t, Node::Class(class), upper(effect))
                && forest.is_free(t, Node::Root, upper(effect))
        }
    }
}

/// Adds what a lock on the node asks.
fn add_all(request: &mut Vec<(Node, Mode)>, node: Node, effect: Effect) -> Result<(), AllocError>
    ensures { OnOk result (request.new.items ≡ joined_all request.old.items (asks_at effect node)) }
{
    match node {
        Node::Root => add(request, node, own(effect)),
        Node::Class(_) => {
            add(request, Node::Root, upper(effect))?;
            add(request, node, own(effect))
        }
        Node::Leaf(_, class) => {
            add(request, Node::Root, upper(effect))?;
            add(request, Node::Class(class), upper(effect))?;
            add(request, node, own(effect))
        }
    }
}

/// Adds one ask: it joins what is asked at its node already.
fn add(request: &mut Vec<(Node, Mode)>, node: Node, mode: Mode) -> Result<(), AllocError>
    ensures { OnOk result (request.new.items ≡ joined_with request.old.items node mode) }
{
    match place(request, node) {
        Some(i) => {
            let ask = &mut request[i];
            ask.1 = join(ask.1, mode);
            Ok(())
        }
        None => {
            request.push((node, mode))?;
            Ok(())
        }
    }
}

/// The place of the node in the request, if it is there.
fn place(request: &[(Node, Mode)], node: Node) -> Option<usize>
    ensures { result ≡ position (λ ask. same_node ask.0 node) request.now }
{
    request.iter().position(|ask| ask.0.is_same(node))
}

/// The mode that a lock asks at its own node.
pub(crate) fn own(effect: Effect) -> Mode
    ensures { result ≡ covering_mode effect }
{
    match effect {
        Effect::Read => Mode::S,
        Effect::Write => Mode::X,
    }
}

/// The mode that a lock asks above its own node.
pub(crate) fn upper(effect: Effect) -> Mode
    ensures { result ≡ upper_mode effect }
{
    match effect {
        Effect::Read => Mode::IS,
        Effect::Write => Mode::IX,
    }
}
