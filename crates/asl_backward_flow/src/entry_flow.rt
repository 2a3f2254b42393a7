//! What each section needs at its first point.
ghost use Rattle.std.specs.Prelude.{◌≡◌, ◌≤◌, ℕ, length, map, IfOk, OnOk, IfErr, vec_len};
ghost use Rattle.asl_backward_flow.specs.Flows.{IsEntryFlow, IsRefusedFlow};
ghost use Rattle.asl_backward_flow.specs.Follows.{read};
ghost use Rattle.asl_backward_flow.specs.Spans.{AreSpans, AreClosed};
ghost use Rattle.asl_backward_flow.specs.Parts.{HasMany};
ghost use Rattle.asl_backward_flow.specs.Grouped.{IsBase, AreEntryParts, HasFewInBodies, IsEntrySet, IsShorter, TellsAllEntries};

use crate::fault::FlowFault;
use crate::flow::{Flow, flow_of};
use crate::flow_analysis::FlowAnalysis;
use crate::fresh::Fresh;
use crate::graph::{calls, jumps, regions};
use crate::group::{group_end, group_spans};
use crate::region_needs::RegionNeeds;
use crate::solve::{find, named};
use crate::span::{Span, spans};
use asl_lane_sets::Bits;
use asl_lock_expr::writes;
use asl_lower::Lowering;
use asl_points_to::Classes;
use std::alloc::{AllocError, Global};

/// Which locks each section needs at its first point, where paths have at most `k` operations: there the flow tells what that of
/// `needed` tells. What it tells elsewhere does not count. A region that needs more than 4,096 different locks is refused.
///
/// No region calls a section, so what a section needs depends on itself and on the bodies alone. It is found for the sections of one
/// group after the other, and what is needed behind their first points is let go, so that large programs take less memory.
///
/// # Errors
///
/// `TooManyLocks` with a region that needs more than 4,096 locks; `OutOfMemory` where an allocation failed.
pub fn needed_at_entries(
    alloc: Global,
    lowering: &Lowering,
    classes: &Classes,
    k: u32,
) -> Result<Flow, FlowFault>
    requires { k ≤ 8 }
    ensures flow { IfOk result (IsEntryFlow lowering.now classes.now k) }
    ensures refused { IfErr result (IsRefusedFlow lowering.now classes.now k) }
{
    let writes = writes(alloc, lowering, classes)?;
    let spans = spans(alloc, lowering)?;
    let jumps = jumps(alloc, lowering)?;
    let calls = calls(alloc, lowering)?;
    let analysis = FlowAnalysis {
        lowering,
        classes,
        writes: &writes,
        k_limit: k as usize,
        spans: spans.as_slice(),
        jumps: jumps.as_slice(),
        calls: calls.as_slice(),
        regions: &[],
    };
    flow_at_entries(alloc, &analysis)
}

/// The flow at the first points of the sections, of a program whose regions and graph are at hand; which regions have a call is found
/// for each group.
fn flow_at_entries(alloc: Global, analysis: &FlowAnalysis) -> Result<Flow, FlowFault>
    requires base { IsBase (read analysis.now) }
    requires spans { AreSpans analysis.now.lowering.now analysis.now.spans.now }
    ensures ok { IfOk result (TellsAllEntries (read analysis.now)) }
    ensures err { IfErr result (HasMany (read analysis.now)) }
{
    let count = analysis.lowering.sections().len();
    let mut parts = Vec::with_capacity(alloc, count)?;
    // (the first group is judged without sections, too, since bodies may need too many locks)
    let end = group_end(analysis.spans, 0, count);
    add_group(alloc, analysis, end, &mut parts)?;
    while parts.len() < count {
        let end = group_end(analysis.spans, parts.len(), count);
        add_group(alloc, analysis, end, &mut parts)?;
    }
    Ok(flow_of(parts))
}

/// Adds the parts of the sections from the first that has none up to `end`.
fn add_group(
    alloc: Global,
    analysis: &FlowAnalysis,
    end: usize,
    parts: &mut Vec<RegionNeeds>,
) -> Result<(), FlowFault>
    requires base { IsBase (read analysis.now) }
    requires spans { AreSpans analysis.now.lowering.now analysis.now.spans.now }
    requires parts { AreEntryParts (read analysis.now) analysis.now.spans.now parts.old.items }
    requires order { vec_len parts.old ≤ end }
    requires within { end ≤ length analysis.now.lowering.now.sections }
    ensures parts { OnOk result (AreEntryParts (read analysis.now) analysis.now.spans.now parts.new.items) }
    ensures count { OnOk result (vec_len parts.new ≡ end) }
    ensures bodies { OnOk result (HasFewInBodies (read analysis.now)) }
    ensures err { IfErr result (HasMany (read analysis.now)) }
{
    let first = parts.len();
    let group = group_spans(alloc, analysis.lowering, analysis.spans, first, end)?;
    let mut found = group_parts(alloc, analysis, group.as_slice())?;
    found.truncate(end - first);
    keep_entries(alloc, analysis, group.as_slice(), &mut found)?;
    parts.append(&mut found)?;
    Ok(())
}

/// What the regions of these spans need, those of all bodies among them.
fn group_parts(
    alloc: Global,
    analysis: &FlowAnalysis,
    group: &[Span],
) -> Result<Vec<RegionNeeds>, FlowFault>
    requires base { IsBase (read analysis.now) }
    requires group { AreClosed analysis.now.lowering.now group.now }
    ensures parts { IfOk result (λ parts. AreEntryParts (read analysis.now) group.now parts.items) }
    ensures count { IfOk result (λ parts. length parts.items ≡ length group.now) }
    ensures bodies { OnOk result (HasFewInBodies (read analysis.now)) }
    ensures err { IfErr result (HasMany (read analysis.now)) }
{
    let regions = regions(alloc, analysis.lowering, group)?;
    let grouped = FlowAnalysis {
        lowering: analysis.lowering,
        classes: analysis.classes,
        writes: analysis.writes,
        k_limit: analysis.k_limit,
        spans: group,
        jumps: analysis.jumps,
        calls: analysis.calls,
        regions: regions.as_slice(),
    };
    match find(alloc, &grouped) {
        Ok(found) => Ok(found.parts),
        Err(fault) => Err(named(&grouped, fault)),
    }
}

/// Lets go what these parts say of points that are not the first of their regions.
fn keep_entries(
    alloc: Global,
    analysis: &FlowAnalysis,
    group: &[Span],
    parts: &mut Vec<RegionNeeds>,
) -> Result<(), AllocError>
    requires { AreEntryParts (read analysis.now) group.now parts.old.items }
    ensures parts { OnOk result (AreEntryParts (read analysis.now) group.now parts.new.items) }
    ensures count { OnOk result (vec_len parts.new ≡ vec_len parts.old) }
{
    for number in 0..parts.len() {
        keep_entry(alloc, &mut parts[number], group[number].first)?;
    }
    Ok(())
}

/// Lets go what a part says of points other than the one at the pc.
fn keep_entry(alloc: Global, part: &mut RegionNeeds, pc: u16) -> Result<(), AllocError>
    ensures { OnOk result (IsShorter pc part.old part.new) }
{
    let mut needs = Vec::with_capacity(alloc, 1)?;
    needs.push(set_at(alloc, part, pc)?)?;
    part.first = pc;
    part.needs = needs;
    part.fresh = Fresh::new(alloc);
    Ok(())
}

/// The numbers of the locks that a part says to be needed at the pc.
fn set_at(alloc: Global, part: &RegionNeeds, pc: u16) -> Result<Bits, AllocError>
    ensures { IfOk result (IsEntrySet pc part.now) }
{
    let mut set = Bits::new(alloc);
    if pc >= part.first {
        if let Some(found) = part.needs.get(usize::from(pc - part.first)) {
            set.copy_from(found)?;
        }
    }
    Ok(set)
}
