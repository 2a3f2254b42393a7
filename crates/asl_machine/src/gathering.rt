//! The request of many locks: the places of its nodes are kept, so that to note an ask is no look at all before it.
ghost use Rattle.std.specs.Prelude.{◌≡◌, ◌<◌, ◌≤◌, ◌+◌, [], OnOk, OnErr, length};
ghost use Rattle.asl_machine.specs.Request.{asks_of, joined_with, joined_all, request_of};
ghost use Rattle.asl_machine.specs.Asking.{asks_at};
ghost use Rattle.asl_machine.specs.Places.{ArePlaces};

use crate::heap::Heap;
use crate::packed_value::PackedValue;
use crate::places::Places;
use crate::request::{node_of, own, upper};
use asl_code::{Effect, Lock};
use asl_lock_forest::Node;
use asl_mode_lanes::{Mode, join};
use std::alloc::AllocError;

/// Puts the request of the locks into no asks.
pub(crate) fn gather_many(
    asks: &mut Vec<(Node, Mode)>,
    locks: &[Lock],
    regs: &[PackedValue],
    heap: &Heap,
) -> Result<(), AllocError>
    requires none { asks.old.items ≡ [] }
    requires few { length locks.now ≤ 256 }
    ensures request { OnOk result (asks.new.items ≡ request_of heap.now regs.now locks.now) }
    ensures asks { OnErr result (0 < length (request_of heap.now regs.now locks.now)) }
{
    let mut places = Places::new();
    for lock in locks {
        place_asks(asks, &mut places, lock, regs, heap)?;
    }
    Ok(())
}

/// Adds what the lock asks, by the places of the nodes, which it keeps.
fn place_asks(
    request: &mut Vec<(Node, Mode)>,
    places: &mut Places,
    lock: &Lock,
    regs: &[PackedValue],
    heap: &Heap,
) -> Result<(), AllocError>
    requires kept { ArePlaces places.old request.old.items }
    requires few { length request.old.items + 3 ≤ 768 }
    ensures added { OnOk result (request.new.items ≡ joined_all request.old.items (asks_of heap.now regs.now lock.now)) }
    ensures kept { OnOk result (ArePlaces places.new request.new.items) }
    ensures three { OnOk result (length request.new.items ≤ length request.old.items + 3) }
    ensures asks { OnErr result (0 < length (asks_of heap.now regs.now lock.now)) }
{
    match node_of(lock, regs, heap) {
        Some(node) => place_all(request, places, node, lock.effect()),
        None => Ok(()),
    }
}

/// Adds what a lock on the node asks, by the places of the nodes, which it keeps.
fn place_all(
    request: &mut Vec<(Node, Mode)>,
    places: &mut Places,
    node: Node,
    effect: Effect,
) -> Result<(), AllocError>
    requires kept { ArePlaces places.old request.old.items }
    requires few { length request.old.items + 3 ≤ 768 }
    ensures added { OnOk result (request.new.items ≡ joined_all request.old.items (asks_at effect node)) }
    ensures kept { OnOk result (ArePlaces places.new request.new.items) }
    ensures three { OnOk result (length request.new.items ≤ length request.old.items + 3) }
{
    match node {
        Node::Root => place_one(request, places, node, own(effect)),
        Node::Class(_) => {
            place_one(request, places, Node::Root, upper(effect))?;
            place_one(request, places, node, own(effect))
        }
        Node::Leaf(_, class) => {
            place_one(request, places, Node::Root, upper(effect))?;
            place_one(request, places, Node::Class(class), upper(effect))?;
            place_one(request, places, node, own(effect))
        }
    }
}

/// Adds one ask by the places of the nodes, which it keeps.
fn place_one(
    request: &mut Vec<(Node, Mode)>,
    places: &mut Places,
    node: Node,
    mode: Mode,
) -> Result<(), AllocError>
    requires kept { ArePlaces places.old request.old.items }
    requires few { length request.old.items < 768 }
    ensures added { OnOk result (request.new.items ≡ joined_with request.old.items node mode) }
    ensures kept { OnOk result (ArePlaces places.new request.new.items) }
    ensures one { OnOk result (length request.new.items ≤ length request.old.items + 1) }
{
    match places.find(request, node) {
        Some(i) => {
            let ask = &mut request[i];
            ask.1 = join(ask.1, mode);
            Ok(())
        }
        None => {
            let place = request.len();
            request.push((node, mode))?;
            places.note(place, node);
            Ok(())
        }
    }
}
