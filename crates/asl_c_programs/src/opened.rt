//! A program that C has opened.

use asl_code::Program;
use asl_map::Map;
use asl_points_to::Classes;

/// What is known of a program's source.
#[derive(Drop)]
pub struct SourceFacts {
    /// The names, and where in the text its parts stand.
    pub map: Map,
    /// The classes, and where registers and cells point.
    pub classes: Classes,
}

/// A program, and what is known of its source where it was opened from one.
#[derive(Drop)]
pub struct Opened {
    /// The program.
    pub program: Program,
    /// What is known of its source.
    pub facts: Option<SourceFacts>,
}
