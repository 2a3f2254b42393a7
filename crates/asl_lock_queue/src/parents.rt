//! Whether a rising request asks each node's parent, in one pass.
ghost use Rattle.std.specs.Prelude.{◌≡◌, ◌≤◌, ℕ, IsTrue, false, drop, length};
ghost use Rattle.asl_mode_lanes.specs.Mode.{is_at_most};
ghost use Rattle.asl_lock_forest.specs.declared.node.Node.{Node};
ghost use Rattle.asl_lock_forest.specs.Node.{parent_mode};
ghost use Rattle.asl_lock_forest.specs.Holding.{asked};
ghost use Rattle.asl_lock_forest.specs.Request.{asks_parents};
ghost use Rattle.asl_lock_queue.specs.Order.{is_below, is_rising};
ghost use Rattle.asl_lock_queue.specs.Front.{first_mode, starts_from};

use crate::order::is_below;
use asl_lock_forest::Node;
use asl_mode_lanes::Mode;

/// Whether a node may be held in the mode where its parent is held in the other.
fn is_enough(mode: Mode, parent: Mode) -> bool
    ensures { result ≡ is_at_most (parent_mode mode) parent }
{
    match mode {
        Mode::NL => true,
        Mode::IS | Mode::S => !matches!(parent, Mode::NL),
        Mode::IX | Mode::SIX | Mode::X => matches!(parent, Mode::IX | Mode::SIX | Mode::X),
    }
}

/// The first place, from this one on, whose node is not below the given one.
fn seek(request: &[(Node, Mode)], from: usize, node: Node) -> usize
    requires { from ≤ length request.now }
    ensures there { result ≤ length request.now }
    ensures same { (n : Node) → is_below n node ≡ false → asked (drop result request.now) n ≡ asked (drop from request.now) n }
    ensures starts { IsTrue (starts_from node (drop result request.now)) }
    ensures rising { IsTrue (is_rising (drop from request.now)) → IsTrue (is_rising (drop result request.now)) }
{
    let mut at = from;
    while at < request.len() && is_below(request[at].0, node) {
        at += 1;
    }
    at
}

/// Whether each node's parent is asked as its mode wants it.
pub fn has_parents(request: &[(Node, Mode)]) -> bool
    requires { IsTrue (is_rising request.now) }
    ensures { result ≡ asks_parents request.now }
{
    let root = first_mode(request, Node::Root);
    let mut at = 0;
    for ask in request {
        let parent = match ask.0 {
            Node::Root => Mode::X,
            Node::Class(_) => root,
            Node::Leaf(_, class) => {
                at = seek(request, at, Node::Class(class));
                first_mode(&request[at..], Node::Class(class))
            }
        };
        if !is_enough(ask.1, parent) {
            return false;
        }
    }
    true
}

/// The mode at the node, where it is the first that is asked, and else `NL`.
fn first_mode(request: &[(Node, Mode)], node: Node) -> Mode
    ensures { result ≡ first_mode request.now node }
{
    match request.first() {
        Some(ask) => { if ask.0.is_same(node) { ask.1 } else { Mode::NL } }
        None => Mode::NL,
    }
}
