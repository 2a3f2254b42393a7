//! Lines of the threads that are in the way of a request.
ghost use Rattle.std.specs.Prelude.{◌≡◌, ◌<◌, ◌++◌, length, OnOk, string_bytes};
ghost use Rattle.asl_lock_forest.specs.Holding.{asked};
ghost use Rattle.asl_show.specs.Nodes.{asker_text, clash_at, clash_line, clash_lines, clashes_at, clashing_text};

use crate::nodes::{name_of, push_node};
use asl_lock_forest::Node;
use asl_machine::Machine;
use asl_mode_lanes::{Mode, compatible};
use std::alloc::AllocError;

/// Adds those who are in the way of the request at the node, if it asks for the node.
pub(crate) fn push_clashes(
    text: &mut String,
    machine: &Machine<'_>,
    t: u32,
    request: &[(Node, Mode)],
    node: Node,
) -> Result<(), AllocError>
    requires { t < length machine.now.state.threads }
    ensures { OnOk result (string_bytes text.new ≡ string_bytes text.old ++ clash_lines machine.now.state t request.now node) }
{
    let mode = mode_in(request, node);
    match name_of(mode) {
        Some(name) => push_clashes_at(text, machine, t, node, mode, name),
        None => Ok(()),
    }
}

/// Adds those who hold the node in a mode that does not go with the one that the thread asks for.
fn push_clashes_at(
    text: &mut String,
    machine: &Machine<'_>,
    t: u32,
    node: Node,
    mode: Mode,
    name: &str,
) -> Result<(), AllocError>
    requires { t < length machine.now.state.threads }
    ensures { OnOk result (string_bytes text.new ≡ string_bytes text.old
        ++ clashes_at machine.now.state t node mode name.now) }
{
    for other in 0..machine.threads() {
        push_clash(text, machine, t, node, mode, name, other)?;
    }
    Ok(())
}

/// Adds the other thread, if it is in the way.
fn push_clash(
    text: &mut String,
    machine: &Machine<'_>,
    t: u32,
    node: Node,
    mode: Mode,
    name: &str,
    other: u32,
) -> Result<(), AllocError>
    requires { other < length machine.now.state.threads }
    ensures { OnOk result (string_bytes text.new ≡ string_bytes text.old
        ++ clash_at machine.now.state t node mode name.now other) }
{
    let held = machine.held(other, node);
    if other == t || compatible(mode, held) {
        return Ok(());
    }
    match name_of(held) {
        Some(held) => push_clash_line(text, t, node, name, other, held),
        None => Ok(()),
    }
}

/// Adds the line of a clash.
fn push_clash_line(
    text: &mut String,
    t: u32,
    node: Node,
    name: &str,
    other: u32,
    held: &str,
) -> Result<(), AllocError>
    ensures { OnOk result (string_bytes text.new ≡ string_bytes text.old ++ clash_line t node name.now other held.now) }
{
    push_asker(text, t, node)?;
    push_clashing(text, name, other, held)
}

/// Adds who asks for which node.
fn push_asker(text: &mut String, t: u32, node: Node) -> Result<(), AllocError>
    ensures { OnOk result (string_bytes text.new ≡ string_bytes text.old ++ asker_text t node) }
{
    write!(text, "clash {t} ")?;
    push_node(text, node)?;
    text.push_str(" ")
}

/// Adds the mode that is asked, and who holds the node in which one.
fn push_clashing(text: &mut String, name: &str, other: u32, held: &str) -> Result<(), AllocError>
    ensures { OnOk result (string_bytes text.new ≡ string_bytes text.old ++ clashing_text name.now other held.now) }
{
    write!(text, "{name} {other} {held}\n")
}

/// The mode in which the request asks for the node: NL where it does not.
pub(crate) fn mode_in(request: &[(Node, Mode)], node: Node) -> Mode
    ensures { result ≡ asked request.now node }
{
    for ask in request {
        if ask.0.is_same(node) {
            return ask.1;
        }
    }
    Mode::NL
}
