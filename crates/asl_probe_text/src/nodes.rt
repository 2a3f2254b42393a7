//! Modes and nodes by their words.

use crate::values::cell;
use asl_lock_forest::Node;
use asl_mode_lanes::Mode;

/// A mode by its name.
pub fn mode(word: &str) -> Option<Mode> {
    match word {
        "NL" => Some(Mode::NL),
        "IS" => Some(Mode::IS),
        "IX" => Some(Mode::IX),
        "S" => Some(Mode::S),
        "SIX" => Some(Mode::SIX),
        "X" => Some(Mode::X),
        _ => None,
    }
}

/// The name of a mode.
pub fn mode_name(mode: Mode) -> &'static str {
    match mode {
        Mode::NL => "NL",
        Mode::IS => "IS",
        Mode::IX => "IX",
        Mode::S => "S",
        Mode::SIX => "SIX",
        Mode::X => "X",
    }
}

/// A node: `root`, `class1`, or `cell5.0:1` for the first cell of object 5, of class 1.
pub fn node(word: &str) -> Option<Node> {
    if word == "root" {
        return Some(Node::Root);
    }
    if let Some(class) = word.strip_prefix("class") {
        return Some(Node::Class(class.parse::<u16>().ok()?));
    }
    let (place, class) = word.strip_prefix("cell")?.split_once(':')?;
    Some(Node::Leaf(cell(place)?, class.parse::<u16>().ok()?))
}
