//! Tests of a request: its threads, nodes, classes and modes.
ghost use Rattle.std.specs.Prelude.{◌≡◌, ◌<◌, IsTrue, IfSome, map, nat_lt};
ghost use Rattle.asl_mode_lanes.specs.Mode.{is_at_most};
ghost use Rattle.asl_lock_forest.specs.declared.node.Node.TheVariants.{Root, Class};
ghost use Rattle.asl_lock_forest.specs.Node.{IsThere, parent_of, parent_mode};
ghost use Rattle.asl_lock_forest.specs.Holding.{asked, HoldsNothing};
ghost use Rattle.asl_lock_forest.specs.Request.{names, names_once, asks_modes, asks_parents, asks_parent_of};
ghost use Rattle.asl_lock_queue.specs.Asks.{is_kind, has_kinds, ask_of};
ghost use Rattle.asl_lock_queue.specs.Order.{is_after, is_rising};
ghost use Rattle.asl_c_forest.specs.Status.{is_there, has_classes, holds_nothing};

use asl_lock_forest::{Forest, Node};
use asl_lock_queue::{Ask, is_below, mode, node};
use asl_mode_lanes::Mode;

/// Whether a kind of node has this number.
pub(crate) fn is_kind(kind: u8) -> bool
    ensures { result ≡ is_kind kind }
{
    kind < 3
}

/// Whether the thread is below the count.
pub(crate) fn is_thread(threads: u32, thread: u32) -> bool
    ensures value { result ≡ nat_lt thread threads }
    ensures told { IsTrue result → thread < threads }
{
    thread < threads
}

/// Whether the class is below the count.
pub(crate) fn is_class(classes: u32, class: u16) -> bool
    ensures value { result ≡ nat_lt class classes }
    ensures told { IsTrue result → class < classes }
{
    u32::from(class) < classes
}

/// Whether the node's class, if it has one, is below the count.
pub(crate) fn is_there(classes: u32, node: Node) -> bool
    ensures value { result ≡ is_there classes node }
    ensures told { IsTrue result → IsThere classes node }
{
    match node {
        Node::Root => true,
        Node::Class(class) | Node::Leaf(_, class) => is_class(classes, class),
    }
}

/// Whether each kind is one.
pub(crate) fn has_kinds(asks: &[Ask]) -> bool
    ensures { result ≡ has_kinds asks.now }
{
    for ask in asks {
        if !is_kind(ask.kind) {
            return false;
        }
    }
    true
}

/// Whether each node's class, if it has one, is below the count.
pub(crate) fn has_classes(classes: u32, asks: &[Ask]) -> bool
    ensures { result ≡ has_classes classes asks.now }
{
    for ask in asks {
        if !is_there(classes, node(*ask)) {
            return false;
        }
    }
    true
}

/// Whether each mode is one, and another than `NL`.
pub(crate) fn has_modes(asks: &[Ask]) -> bool
    ensures { result ≡ asks_modes (map ask_of asks.now) }
{
    for ask in asks {
        if matches!(mode(ask.mode), Mode::NL) {
            return false;
        }
    }
    true
}

/// Whether the node is named.
fn names(asks: &[Ask], node: Node) -> bool
    ensures { result ≡ names (map ask_of asks.now) node }
{
    for ask in asks {
        if asl_lock_queue::node(*ask).is_same(node) {
            return true;
        }
    }
    false
}

/// Whether the node comes after the last one, if there is one.
fn is_after(last: Option<Node>, node: Node) -> bool
    ensures { result ≡ is_after last node }
{
    match last {
        Some(last) => is_below(last, node),
        None => true,
    }
}

/// Whether each node comes after the one before it.
pub(crate) fn is_rising(asks: &[Ask]) -> bool
    ensures { result ≡ is_rising (map ask_of asks.now) }
{
    let mut last = None;
    for ask in asks {
        let next = node(*ask);
        if !is_after(last, next) {
            return false;
        }
        last = Some(next);
    }
    true
}

/// Whether no node is named twice: at once where the nodes rise.
#[tactic(auto, using(crate::proofs::RisingLaws::rising_names_once))]
pub(crate) fn is_distinct(asks: &[Ask]) -> bool
    ensures { result ≡ names_once (map ask_of asks.now) }
{
    is_rising(asks) || is_each_once(asks)
}

/// Whether no node is named twice, by comparing each with each.
fn is_each_once(asks: &[Ask]) -> bool
    ensures { result ≡ names_once (map ask_of asks.now) }
{
    for i in 0..asks.len() {
        if names(&asks[i + 1..], node(asks[i])) {
            return false;
        }
    }
    true
}

/// The mode that is asked at the node.
fn asked(asks: &[Ask], node: Node) -> Mode
    ensures { result ≡ asked (map ask_of asks.now) node }
{
    for ask in asks {
        if asl_lock_queue::node(*ask).is_same(node) {
            return mode(ask.mode);
        }
    }
    Mode::NL
}

/// Whether a node may be held in the mode where its parent is held in the other.
fn is_enough(mode: Mode, parent: Mode) -> bool
    ensures { result ≡ is_at_most (parent_mode mode) parent }
{
    match mode {
        Mode::NL => true,
        Mode::IS | Mode::S => !matches!(parent, Mode::NL),
        Mode::IX | Mode::SIX | Mode::X => matches!(parent, Mode::IX | Mode::SIX | Mode::X),
    }
}

/// The mode that is asked at the class: the known one, where that is of this class.
fn class_mode(asks: &[Ask], known: Option<(u16, Mode)>, class: u16) -> Mode
    requires { IfSome known (λ k. k.1 ≡ asked (map ask_of asks.now) (Class k.0)) }
    ensures { result ≡ asked (map ask_of asks.now) (Class class) }
{
    match known {
        Some((other, mode)) => {
            if other == class {
                mode
            } else {
                asked(asks, Node::Class(class))
            }
        }
        None => asked(asks, Node::Class(class)),
    }
}

/// The class above the node with the mode that is asked there, if it is a leaf; else what is known already.
fn known_above(asks: &[Ask], known: Option<(u16, Mode)>, node: Node) -> Option<(u16, Mode)>
    requires { IfSome known (λ k. k.1 ≡ asked (map ask_of asks.now) (Class k.0)) }
    ensures { IfSome result (λ k. k.1 ≡ asked (map ask_of asks.now) (Class k.0)) }
{
    match node {
        Node::Root | Node::Class(_) => known,
        Node::Leaf(_, class) => Some((class, class_mode(asks, known, class))),
    }
}

/// Whether the node's parent, if it has one, is asked as the mode wants it.
fn has_parent(asks: &[Ask], root: Mode, known: Option<(u16, Mode)>, node: Node, mode: Mode) -> bool
    requires root { root ≡ asked (map ask_of asks.now) Root }
    requires known { IfSome known (λ k. k.1 ≡ asked (map ask_of asks.now) (Class k.0)) }
    ensures { result ≡ asks_parent_of (map ask_of asks.now) (parent_of node) mode }
{
    match node {
        Node::Root => true,
        Node::Class(_) => is_enough(mode, root),
        Node::Leaf(_, class) => is_enough(mode, class_mode(asks, known, class)),
    }
}

/// Whether each node's parent is asked as its mode wants it. A class is looked for where it is another than that of the leaf before: so
/// once, where the nodes rise.
pub(crate) fn has_parents(asks: &[Ask]) -> bool
    ensures { result ≡ asks_parents (map ask_of asks.now) }
{
    let root = asked(asks, Node::Root);
    let mut known = None;
    for ask in asks {
        let at = node(*ask);
        known = known_above(asks, known, at);
        if !has_parent(asks, root, known, at, mode(ask.mode)) {
            return false;
        }
    }
    true
}

/// Whether the thread holds nothing: who holds anything holds the root.
pub(crate) fn holds_nothing(forest: &Forest, thread: u32) -> bool
    requires { thread < forest.now.threads }
    ensures value { result ≡ holds_nothing forest.now.holding thread }
    ensures told { IsTrue result → HoldsNothing forest.now.holding thread }
{
    matches!(forest.mode(thread, Node::Root), Mode::NL)
}
