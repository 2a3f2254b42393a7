//! The lines of the nodes: who holds them, who asks for them, and who is in whose way there.
ghost use Rattle.std.specs.Prelude.{◌≡◌, ◌<◌, ◌≤◌, ◌++◌, length, option_map, OnOk, string_bytes};
ghost use Rattle.asl_lock_forest.specs.declared.node.Node.TheVariants.{Class};
ghost use Rattle.asl_show.specs.Lines.{lines_from};
ghost use Rattle.asl_show.specs.About.{IsSilent, line_about};
ghost use Rattle.asl_show.specs.Nodes.{ask_line, held_line, leaf_lines, leaves_of, mode_name, node_lines, node_text};

use crate::clash_lines::{mode_in, push_clashes};
use crate::next_number::{Numbers, next_number};
use crate::objects::cells;
use crate::replies::push_address;
use asl_code::Cell;
use asl_lock_forest::Node;
use asl_machine::Machine;
use asl_mode_lanes::Mode;
use std::alloc::AllocError;

/// What is said of each node.
#[derive(Clone, Copy)]
pub enum About<'a> {
    /// In which mode the thread holds it.
    Held,
    /// In which mode the thread asks for it, by this request.
    Asked(&'a [(Node, Mode)]),
    /// Who is in the way of the thread that asks for it by this request.
    Clashes(&'a [(Node, Mode)]),
}

/// Adds the lines of all nodes: the root, the classes, the leaves by object and offset. Only those are looked at that are held or asked.
pub fn push_nodes(
    text: &mut String,
    classes: u32,
    machine: &Machine<'_>,
    t: u32,
    about: &About<'_>,
) -> Result<(), AllocError>
    requires thread { t < length machine.now.state.threads }
    requires few { classes ≤ 65536 }
    ensures { OnOk result (string_bytes text.new ≡ string_bytes text.old
        ++ node_lines classes machine.now.state (line_about machine.now.state t about.now)) }
{
    let nodes = nodes_of(machine, t, about);
    push_at(text, machine, t, Node::Root, about)?;
    push_classes(text, classes, machine, t, about, nodes)?;
    push_leaves(text, machine, t, about, nodes)
}

/// The nodes of which something may be said.
fn nodes_of<'a>(machine: &'a Machine<'_>, t: u32, about: &About<'a>) -> &'a [(Node, Mode)]
    requires { t < length machine.now.state.threads }
    ensures { IsSilent (line_about machine.now.state t about.now) result.now }
{
    match about {
        About::Held => machine.held_nodes(t),
        About::Asked(request) => *request,
        About::Clashes(request) => *request,
    }
}

/// Adds the lines of the classes, from one that the nodes name to the next.
fn push_classes(
    text: &mut String,
    classes: u32,
    machine: &Machine<'_>,
    t: u32,
    about: &About<'_>,
    nodes: &[(Node, Mode)],
) -> Result<(), AllocError>
    requires thread { t < length machine.now.state.threads }
    requires few { classes ≤ 65536 }
    requires silent { IsSilent (line_about machine.now.state t about.now) nodes.now }
    ensures { OnOk result (string_bytes text.new ≡ string_bytes text.old
        ++ lines_from (λ class. line_about machine.now.state t about.now (Class class)) 0 classes) }
{
    let mut class = next_number(nodes, Numbers::Classes, 0, classes);
    while class < classes {
        push_at(text, machine, t, Node::Class(class as u16), about)?;
        class = next_number(nodes, Numbers::Classes, class + 1, classes);
    }
    Ok(())
}

/// Adds the lines of the leaves, from one object of which the nodes name leaves to the next.
fn push_leaves(
    text: &mut String,
    machine: &Machine<'_>,
    t: u32,
    about: &About<'_>,
    nodes: &[(Node, Mode)],
) -> Result<(), AllocError>
    requires thread { t < length machine.now.state.threads }
    requires silent { IsSilent (line_about machine.now.state t about.now) nodes.now }
    ensures { OnOk result (string_bytes text.new ≡ string_bytes text.old
        ++ lines_from (leaf_lines machine.now.state (line_about machine.now.state t about.now)) 0 (length machine.now.state.objects)) }
{
    let objects = machine.objects();
    let mut object = next_number(nodes, Numbers::Objects, 0, objects);
    while object < objects {
        push_leaves_of(text, machine, t, object as u16, about, nodes)?;
        object = next_number(nodes, Numbers::Objects, object + 1, objects);
    }
    Ok(())
}

/// Adds the lines of the object's leaves.
fn push_leaves_of(
    text: &mut String,
    machine: &Machine<'_>,
    t: u32,
    object: u16,
    about: &About<'_>,
    nodes: &[(Node, Mode)],
) -> Result<(), AllocError>
    requires thread { t < length machine.now.state.threads }
    requires silent { IsSilent (line_about machine.now.state t about.now) nodes.now }
    ensures { OnOk result (string_bytes text.new ≡ string_bytes text.old
        ++ leaf_lines machine.now.state (line_about machine.now.state t about.now) object) }
{
    match machine.class(u32::from(object)) {
        Some(class) => push_leaves_in(text, machine, t, object, class as u16, about, nodes),
        None => Ok(()),
    }
}

/// Adds the lines of the leaves of an object of the class, from one that the nodes name to the next.
fn push_leaves_in(
    text: &mut String,
    machine: &Machine<'_>,
    t: u32,
    object: u16,
    class: u16,
    about: &About<'_>,
    nodes: &[(Node, Mode)],
) -> Result<(), AllocError>
    requires thread { t < length machine.now.state.threads }
    requires silent { IsSilent (line_about machine.now.state t about.now) nodes.now }
    ensures { OnOk result (string_bytes text.new ≡ string_bytes text.old
        ++ leaves_of machine.now.state (line_about machine.now.state t about.now) object class) }
{
    let cells = cells(machine, object);
    let mut offset = next_number(nodes, Numbers::Cells(object), 0, cells);
    while offset < cells {
        let cell = Cell {
            object,
            offset: offset as u8,
        };
        push_at(text, machine, t, Node::Leaf(cell, class), about)?;
        offset = next_number(nodes, Numbers::Cells(object), offset + 1, cells);
    }
    Ok(())
}

/// Adds what is said of the node.
fn push_at(
    text: &mut String,
    machine: &Machine<'_>,
    t: u32,
    node: Node,
    about: &About<'_>,
) -> Result<(), AllocError>
    requires { t < length machine.now.state.threads }
    ensures { OnOk result (string_bytes text.new ≡ string_bytes text.old ++ line_about machine.now.state t about.now node) }
{
    match about {
        About::Held => push_held(text, machine, t, node),
        About::Asked(request) => push_ask(text, t, request, node),
        About::Clashes(request) => push_clashes(text, machine, t, request, node),
    }
}

/// Adds the node, if the thread holds it.
fn push_held(text: &mut String, machine: &Machine<'_>, t: u32, node: Node) -> Result<(), AllocError>
    requires { t < length machine.now.state.threads }
    ensures { OnOk result (string_bytes text.new ≡ string_bytes text.old ++ held_line machine.now.state t node) }
{
    match name_of(machine.held(t, node)) {
        Some(name) => {
            write!(text, "held {t} ")?;
            push_node(text, node)?;
            write!(text, " {name}\n")
        }
        None => Ok(()),
    }
}

/// Adds the node, if the request asks for it.
fn push_ask(
    text: &mut String,
    t: u32,
    request: &[(Node, Mode)],
    node: Node,
) -> Result<(), AllocError>
    ensures { OnOk result (string_bytes text.new ≡ string_bytes text.old ++ ask_line t request.now node) }
{
    match name_of(mode_in(request, node)) {
        Some(name) => {
            write!(text, "asks {t} ")?;
            push_node(text, node)?;
            write!(text, " {name}\n")
        }
        None => Ok(()),
    }
}

/// The name of a mode, but of NL.
pub(crate) fn name_of(mode: Mode) -> Option<&'static str>
    ensures { option_map (λ name. name.now) result ≡ mode_name mode }
{
    match mode {
        Mode::NL => None,
        Mode::IS => Some("IS"),
        Mode::IX => Some("IX"),
        Mode::S => Some("S"),
        Mode::SIX => Some("SIX"),
        Mode::X => Some("X"),
    }
}

/// Adds the words of a node of the lock tree.
pub(crate) fn push_node(text: &mut String, node: Node) -> Result<(), AllocError>
    ensures { OnOk result (string_bytes text.new ≡ string_bytes text.old ++ node_text node) }
{
    match node {
        Node::Root => text.push_str("root"),
        Node::Class(class) => write!(text, "class {class}"),
        Node::Leaf(cell, _) => {
            text.push_str("leaf ")?;
            push_address(text, cell.object, cell.offset)
        }
    }
}
