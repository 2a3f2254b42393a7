//! Which locks each region needs at each of its points.
ghost use Rattle.std.specs.Prelude.{◌≤◌, IfOk, IfErr};
ghost use Rattle.asl_backward_flow.specs.Flows.{IsFlow, IsRefusedFlow};
ghost use Rattle.asl_backward_flow.specs.Found.{table, Table};
ghost use Rattle.asl_backward_flow.specs.Follows.{read, IsRead, IsAll, Overflows};
ghost use Rattle.asl_backward_flow.specs.Spans.{AreSpans};
ghost use Rattle.asl_backward_flow.specs.Parts.{TellsAll, HasMany};

use crate::access_needs::add_seeds;
use crate::fault::FlowFault;
use crate::flow::{Flow, flow_of};
use crate::flow_analysis::FlowAnalysis;
use crate::following::follow_all;
use crate::found::{AddFault, Found};
use crate::graph::{calls, jumps, regions};
use crate::span::spans;
use asl_lock_expr::writes;
use asl_lower::Lowering;
use asl_points_to::Classes;
use std::alloc::Global;

/// Which locks each region needs at each of its points, where paths have at most `k` operations (`docs/ANALYSIS.md`, "Needed
/// locks"). A region that needs more than 4,096 different locks is refused.
///
/// # Errors
///
/// `TooManyLocks` with a region that needs more than 4,096 locks; `OutOfMemory` where an allocation failed.
pub fn needed(
    alloc: Global,
    lowering: &Lowering,
    classes: &Classes,
    k: u32,
) -> Result<Flow, FlowFault>
    requires { k ≤ 8 }
    ensures flow { IfOk result (IsFlow lowering.now classes.now k) }
    ensures refused { IfErr result (IsRefusedFlow lowering.now classes.now k) }
{
    let writes = writes(alloc, lowering, classes)?;
    let spans = spans(alloc, lowering)?;
    let jumps = jumps(alloc, lowering)?;
    let calls = calls(alloc, lowering)?;
    let regions = regions(alloc, lowering, spans.as_slice())?;
    let analysis = FlowAnalysis {
        lowering,
        classes,
        writes: &writes,
        k_limit: k as usize,
        spans: spans.as_slice(),
        jumps: jumps.as_slice(),
        calls: calls.as_slice(),
        regions: regions.as_slice(),
    };
    flow(alloc, &analysis)
}

/// The flow of a program whose regions and graph are at hand.
fn flow(alloc: Global, analysis: &FlowAnalysis) -> Result<Flow, FlowFault>
    requires analysis { IsRead (read analysis.now) }
    requires whole { AreSpans analysis.now.lowering.now analysis.now.spans.now }
    ensures ok { IfOk result (TellsAll (read analysis.now)) }
    ensures err { IfErr result (HasMany (read analysis.now)) }
{
    match find(alloc, analysis) {
        Ok(found) => Ok(flow_of(found.parts)),
        Err(fault) => Err(named(analysis, fault)),
    }
}

/// The fault, with the region in place of its number.
pub fn named(analysis: &FlowAnalysis, fault: AddFault) -> FlowFault
    requires { (t : Table) × Overflows (read analysis.now) t fault }
    ensures { HasMany (read analysis.now) result }
{
    match fault {
        AddFault::Many(part) => {
            FlowFault::TooManyLocks(analysis.spans[usize::from(part)].region)
        }
        AddFault::OutOfMemory => FlowFault::OutOfMemory,
    }
}

/// What accesses need, and all that follows from it.
pub fn find(alloc: Global, analysis: &FlowAnalysis) -> Result<Found, AddFault>
    requires { IsRead (read analysis.now) }
    ensures ok { IfOk result (λ found. IsAll (read analysis.now) (table found)) }
    ensures err { IfErr result (λ fault. (t : Table) × Overflows (read analysis.now) t fault) }
{
    let mut found = Found::new(alloc, analysis.spans)?;
    add_seeds(alloc, analysis, &mut found)?;
    follow_all(alloc, analysis, &mut found)?;
    Ok(found)
}
