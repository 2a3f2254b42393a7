//! Nodes and modes by their numbers.
ghost use Rattle.std.specs.Prelude.{◌≡◌, IsTrue};
ghost use Rattle.asl_mode_lanes.specs.Row.{mode_of};
ghost use Rattle.asl_lock_queue.specs.Asks.{is_kind, node_of, ask_of};

use asl_code::Cell;
use asl_lock_forest::Node;
use asl_mode_lanes::Mode;

/// A node and a mode: kind 0 is the root, 1 a class, 2 the leaf of a cell.
#[repr(C)]
#[derive(Clone, Copy)]
pub struct Ask {
    pub kind: u8,
    pub mode: u8,
    pub offset: u8,
    pub class: u16,
    pub object: u16,
}

/// The node; of a kind that there is not, the leaf.
pub fn node(ask: Ask) -> Node
    ensures { result ≡ node_of ask }
{
    match ask.kind {
        0 => Node::Root,
        1 => Node::Class(ask.class),
        _ => Node::Leaf(
            Cell {
                object: ask.object,
                offset: ask.offset,
            },
            ask.class,
        ),
    }
}

/// The mode of this code; of a code that no mode has, `NL`.
pub fn mode(code: u8) -> Mode
    ensures { result ≡ mode_of code }
{
    match code {
        1 => Mode::IS,
        3 => Mode::IX,
        5 => Mode::S,
        7 => Mode::SIX,
        15 => Mode::X,
        _ => Mode::NL,
    }
}

/// The numbers of the node and the mode.
pub fn ask_for(node: Node, mode: Mode) -> Ask
    ensures ask { ask_of result ≡ (node, mode) }
    ensures kind { IsTrue (is_kind result.kind) }
{
    let mode = mode.code();
    match node {
        Node::Root => ask_at(0, mode, 0, 0, 0),
        Node::Class(class) => ask_at(1, mode, 0, class, 0),
        Node::Leaf(cell, class) => ask_at(2, mode, cell.offset, class, cell.object),
    }
}

/// The ask of these numbers.
fn ask_at(kind: u8, mode: u8, offset: u8, class: u16, object: u16) -> Ask
    ensures { result ≡ record { kind = kind; mode = mode; offset = offset; class = class; object = object } }
{
    Ask {
        kind,
        mode,
        offset,
        class,
        object,
    }
}
