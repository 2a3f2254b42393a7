//! What follows from the seeds, found point by point.
ghost use Rattle.std.specs.Prelude.{◌≤◌, ℕ, map, OnOk, IfErr};
ghost use Rattle.asl_lane_sets.specs.NumberSet.{IsIn};
ghost use Rattle.asl_backward_flow.specs.Found.{table, Has, Waits, WaitsOrIsOne, NoneWaits, left};
ghost use Rattle.asl_backward_flow.specs.Masked.{AreAllMasks};
ghost use Rattle.asl_backward_flow.specs.Follows.{read, IsRead, IsFollowed, Overflows};

use crate::call_needs::add_entry;
use crate::flow_analysis::FlowAnalysis;
use crate::found::{AddFault, Found};
use crate::needs_step::add_back;
use crate::scratch::{Scratch, no_scratch};
use std::alloc::Global;

/// Adds what follows from the locks of a point that were to be followed when it was taken off the list: those of the numbers in
/// `scratch.set`. What else is needed there was followed before.
fn follow(
    alloc: Global,
    analysis: &FlowAnalysis,
    point: (u16, u16),
    scratch: &mut Scratch,
    found: &mut Found,
) -> Result<(), AddFault>
    requires analysis { IsRead (read analysis.now) }
    requires there { (n : _) × Has (table found.old) point.0 point.1 n }
    requires within { (n : ℕ) → IsIn scratch.old.set n → Has (table found.old) point.0 point.1 n }
    requires taken { (n : ℕ) → ¬ Waits (table found.old) point.0 point.1 n }
    requires followed { IsFollowed (read analysis.now) (table found.old) (WaitsOrIsOne (table found.old) point scratch.old.set) }
    requires masks { AreAllMasks (read analysis.now) (table found.old) (map (λ v. v.list.items) scratch.old.masks.items) }
    ensures masks { OnOk result (AreAllMasks (read analysis.now) (table found.new) (map (λ v. v.list.items) scratch.new.masks.items)) }
    ensures ok { OnOk result (IsFollowed (read analysis.now) (table found.new) (Waits (table found.new))) }
    ensures less { OnOk result (left (table found.new) ≤ left (table found.old)) }
    ensures err { IfErr result (Overflows (read analysis.now) (table found.new)) }
{
    add_back(alloc, analysis, point.0, point.1, scratch, found)?;
    add_entry(
        alloc,
        analysis,
        point.0,
        point.1,
        &scratch.set,
        &mut scratch.known,
        found,
    )
}

/// Adds what follows at each point on the list, also at those that are put on it on the way.
pub fn follow_all(alloc: Global, analysis: &FlowAnalysis, found: &mut Found) -> Result<(), AddFault>
    requires analysis { IsRead (read analysis.now) }
    requires followed { IsFollowed (read analysis.now) (table found.old) (Waits (table found.old)) }
    ensures ok { OnOk result (IsFollowed (read analysis.now) (table found.new) NoneWaits) }
    ensures err { IfErr result (Overflows (read analysis.now) (table found.new)) }
{
    let mut scratch = no_scratch(alloc, analysis.spans.len())?;
    while let Some(point) = found.next(&mut scratch.set)? {
        follow(alloc, analysis, point, &mut scratch, found)?;
    }
    Ok(())
}
