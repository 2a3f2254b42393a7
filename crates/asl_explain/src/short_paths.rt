//! Whether all that is needed has shorter paths than there may be, so that it is the same with longer ones.
ghost use Rattle.std.specs.Prelude.{◌≡◌, ◌≤◌, ℕ, IsTrue, IfOk, IfSome, length};
ghost use Rattle.asl_lower.specs.Regions.{Inside, Body};
ghost use Rattle.asl_backward_flow.specs.Flows.{IsFlow};
ghost use Rattle.asl_backward_flow.specs.Needed.{AreParts, region_of};
ghost use Rattle.asl_explain.specs.Analysed.{read, IsAnalysed};
ghost use Rattle.asl_explain.specs.Lengths.{IsBelow, AreBelow, IsRegionBelow, AreSectionsBelow, AreBodiesBelow, AreNeedsBelow};

use crate::explain_analysis::ExplainAnalysis;
use asl_backward_flow::{Flow, Region};
use asl_code::Lock;
use asl_lower::Lowering;
use asl_points_to::Classes;

/// Whether the lock has a path of fewer operations than so many, if it is on an expression.
fn is_below(limit: usize, lock: &Lock) -> bool
    ensures { IsTrue result → IsBelow limit lock.now }
{
    match lock {
        Lock::Root(_) | Lock::Class(_, _) => true,
        Lock::Expr(expr, _) => expr.path.len() < limit,
    }
}

/// So each of these locks.
fn are_below(limit: usize, locks: &[Lock]) -> bool
    ensures { IsTrue result → AreBelow limit locks.now }
{
    for number in 0..locks.len() {
        if !is_below(limit, &locks[number]) {
            return false;
        }
    }
    true
}

/// So each lock that a region needs.
fn is_region_below(flow: &Flow, limit: usize, region: Region) -> bool
    requires { AreParts flow.now }
    ensures { IsTrue result → IsRegionBelow flow.now limit (region_of region) }
{
    match flow.place(region) {
        Some(place) => are_below(limit, flow.locks(place)),
        None => true,
    }
}

/// So each lock that a section needs.
fn are_sections_below(flow: &Flow, lowering: &Lowering, limit: usize) -> bool
    requires { AreParts flow.now }
    ensures { IsTrue result → AreSectionsBelow flow.now limit (length lowering.now.sections) }
{
    for number in 0..lowering.sections().len() {
        if !is_region_below(flow, limit, Region::Section(number as u16)) {
            return false;
        }
    }
    true
}

/// So each lock that the body of a function needs.
fn are_bodies_below(flow: &Flow, lowering: &Lowering, limit: usize) -> bool
    requires { AreParts flow.now }
    ensures { IsTrue result → AreBodiesBelow flow.now limit (length lowering.now.functions) }
{
    for number in 0..lowering.functions().len() {
        if !is_region_below(flow, limit, Region::Body(number as u16)) {
            return false;
        }
    }
    true
}

/// Of how many operations all paths that are needed have fewer: the least number, if one serves up to what paths may have.
pub fn needed_limit(analysis: &ExplainAnalysis) -> Option<usize>
    requires { IsAnalysed analysis.now }
    ensures { IfSome result (AreNeedsBelow (read analysis.now)) }
{
    let most = analysis.k_limit as usize;
    for limit in 1..most + 1 {
        if are_needs_below(analysis, limit) {
            return Some(limit);
        }
    }
    None
}

/// Whether all that is needed has paths of fewer operations than so many.
fn are_needs_below(analysis: &ExplainAnalysis, limit: usize) -> bool
    requires { IsAnalysed analysis.now }
    ensures { IsTrue result → AreNeedsBelow (read analysis.now) limit }
{
    let (flow, lowering) = (&analysis.flow, &analysis.lowering);
    are_sections_below(flow, lowering, limit) && are_bodies_below(flow, lowering, limit)
}

/// Whether all that is needed by a flow with paths of at most so many operations has shorter ones. Then it is needed with longer ones, too,
/// and no more is.
pub fn is_settled(flow: &Flow, lowering: &Lowering, classes: &Classes, k_limit: u32) -> bool
    requires { IsFlow lowering.now classes.now k_limit flow.now }
    ensures { IsTrue result → (longer : ℕ) → k_limit ≤ longer → IsFlow lowering.now classes.now longer flow.now }
{
    let limit = k_limit as usize;
    are_sections_below(flow, lowering, limit) && are_bodies_below(flow, lowering, limit)
}
