//! What the flow backwards goes over: a program, where its regions lie, and the ways into its points.

use crate::span::Span;
use asl_lock_expr::Writes;
use asl_lower::Lowering;
use asl_points_to::Classes;

/// What the flow backwards goes over.
#[derive(Clone, Copy)]
pub struct FlowAnalysis<'a> {
    /// The program.
    pub lowering: &'a Lowering,
    /// Its classes.
    pub classes: &'a Classes,
    /// The classes that its functions may store to.
    pub writes: &'a Writes,
    /// The most operations that a path keeps, at most eight.
    pub k_limit: usize,
    /// Where its regions lie.
    pub spans: &'a [Span],
    /// For each pc, the pcs from which control continues to it, without the one before it.
    pub jumps: &'a [Vec<u16>],
    /// For each function, the pcs at which it is called.
    pub calls: &'a [Vec<u16>],
    /// For each pc at which a function is called, the regions that have it, by their places among the spans.
    pub regions: &'a [Vec<u16>],
}
