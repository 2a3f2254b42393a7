//! Which numbers a list of nodes names: of classes, of objects, of an object's cells.
ghost use Rattle.std.specs.Prelude.{◌≡◌, ◌≤◌};
ghost use Rattle.asl_show.specs.About.{number_in, NamesNone, IsNotIn};

use asl_lock_forest::Node;
use asl_mode_lanes::Mode;

/// Which numbers are looked for in a list of nodes.
#[derive(Clone, Copy)]
pub enum Numbers {
    /// Those of its classes.
    Classes,
    /// Those of the objects of its leaves.
    Objects,
    /// Those of the cells of this object.
    Cells(u16),
}

/// The least such number that the list names, from a number on: the end where there is none before that.
pub(crate) fn next_number(nodes: &[(Node, Mode)], numbers: Numbers, from: u32, end: u32) -> u32
    requires { from ≤ end }
    ensures low { from ≤ result }
    ensures high { result ≤ end }
    ensures none { NamesNone nodes.now numbers from result }
{
    let mut least = end;
    for ask in nodes {
        least = nearer(ask, numbers, from, least);
    }
    least
}

/// The number of the ask's node, if it has one from the first on and before the least: and else the least.
fn nearer(ask: &(Node, Mode), numbers: Numbers, from: u32, least: u32) -> u32
    requires { from ≤ least }
    ensures low { from ≤ result }
    ensures high { result ≤ least }
    ensures apart { IsNotIn numbers ask.now.0 from result }
{
    match number(ask.0, numbers) {
        Some(own) => nearer_number(own, from, least),
        None => least,
    }
}

/// The number, if it stands from the first on and before the least: and else the least.
fn nearer_number(own: u32, from: u32, least: u32) -> u32
    requires { from ≤ least }
    ensures low { from ≤ result }
    ensures high { result ≤ least }
    ensures apart { from ≤ own → result ≤ own }
{
    if from <= own && own < least {
        own
    } else {
        least
    }
}

/// Such a number of the node, if it has one.
fn number(node: Node, numbers: Numbers) -> Option<u32>
    ensures { result ≡ number_in numbers node }
{
    match numbers {
        Numbers::Classes => match node {
            Node::Class(class) => Some(u32::from(class)),
            _ => None,
        },
        Numbers::Objects => match node {
            Node::Leaf(cell, _) => Some(u32::from(cell.object)),
            _ => None,
        },
        Numbers::Cells(object) => match node {
            Node::Leaf(cell, _) => {
                if cell.object == object {
                    Some(u32::from(cell.offset))
                } else {
                    None
                }
            }
            _ => None,
        },
    }
}
