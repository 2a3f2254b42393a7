//! What a document is read from.

use asl_lower::Lowering;
use asl_map::Map;
use asl_points_to::Classes;

/// What is known of a source beside its lists.
#[derive(Drop)]
pub struct Facts {
    /// The line of each byte of the text, and of its end.
    pub lines: Vec<usize>,
    /// The map.
    pub map: Map,
    /// The code.
    pub lowering: Lowering,
    /// The classes.
    pub classes: Classes,
}
