//! What machines show, compared.
ghost use Rattle.std.specs.Prelude.{◌<◌, length};

use asl_code::Cell;
use asl_lock_forest::Node;
use asl_machine::Machine;

/// Whether the machines show the same of thread t.
fn shows_thread(left: &Machine<'_>, right: &Machine<'_>, t: u32) -> bool
    requires left { t < length left.now.state.threads }
    requires right { t < length right.now.state.threads }
{
    let place = left.status(t) == right.status(t)
        && left.pc(t) == right.pc(t)
        && left.depth(t) == right.depth(t);
    let locks = left.held(t, Node::Root) == right.held(t, Node::Root)
        && left.held(t, Node::Class(0)) == right.held(t, Node::Class(0));
    place && locks && (0..5).all(|register| left.reg(t, register) == right.reg(t, register))
}

/// Whether in the machines the same objects are fresh for thread t.
fn shows_fresh(left: &Machine<'_>, right: &Machine<'_>, t: u32) -> bool
    requires left { t < length left.now.state.threads }
    requires right { t < length right.now.state.threads }
{
    (0..left.objects()).all(|object| left.fresh(t, object) == right.fresh(t, object))
}

/// Whether the machines have the same objects, as far as their sizes and classes go.
fn shows_objects(left: &Machine<'_>, right: &Machine<'_>) -> bool {
    left.objects() == right.objects()
        && (0..left.objects()).all(|object| {
            left.size(object) == right.size(object) && left.class(object) == right.class(object)
        })
}

/// Whether the machines show the same of their threads, their locks, their objects, and the global.
pub fn shows_same(left: &Machine<'_>, right: &Machine<'_>) -> bool {
    let global = Cell {
        object: 0,
        offset: 0,
    };
    if left.threads() != right.threads() {
        return false;
    }
    for t in 0..left.threads() {
        if !shows_thread(left, right, t) || !shows_fresh(left, right, t) {
            return false;
        }
    }
    shows_objects(left, right) && left.cell(global) == right.cell(global)
}
