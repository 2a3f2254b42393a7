//! The order of nodes, and whether a request rises in it.
ghost use Rattle.std.specs.Prelude.{◌≡◌};
ghost use Rattle.asl_lock_queue.specs.Order.{is_below, is_after, is_rising};

use asl_lock_forest::Node;
use asl_mode_lanes::Mode;

/// Whether `a` comes before `b`: the root, the classes by their numbers, the leaves by class, object and offset.
#[inline(always)]
pub fn is_below(a: Node, b: Node) -> bool
    ensures { result ≡ is_below a b }
{
    match (a, b) {
        (Node::Root, Node::Root) => false,
        (Node::Root, _) => true,
        (_, Node::Root) => false,
        (Node::Class(c), Node::Class(d)) => c < d,
        (Node::Class(_), Node::Leaf(_, _)) => true,
        (Node::Leaf(_, _), Node::Class(_)) => false,
        (Node::Leaf(x, c), Node::Leaf(y, d)) => {
            c < d
                || (c == d
                    && (x.object < y.object || (x.object == y.object && x.offset < y.offset)))
        }
    }
}

/// Whether the node comes after the last one, if there is one.
#[inline(always)]
fn is_after(last: Option<Node>, node: Node) -> bool
    ensures { result ≡ is_after last node }
{
    match last {
        Some(last) => is_below(last, node),
        None => true,
    }
}

/// Whether each node of the request comes after the one before it.
pub fn is_rising(request: &[(Node, Mode)]) -> bool
    ensures { result ≡ is_rising request.now }
{
    let mut last = None;
    for ask in request {
        if !is_after(last, ask.0) {
            return false;
        }
        last = Some(ask.0);
    }
    true
}
