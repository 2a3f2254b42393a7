//! What accesses need, at each point of each region.
ghost use Rattle.std.specs.Prelude.{◌≡◌, ◌<◌, length, OnOk, IfErr};
ghost use Rattle.asl_lock_expr.specs.Links.{IsOne};
ghost use Rattle.asl_lock_expr.specs.LinksView.{seen as seen_by};
ghost use Rattle.asl_backward_flow.specs.Found.{table};
ghost use Rattle.asl_backward_flow.specs.Follows.{read, seen, IsRead, IsReady, IsAtPoint, IsAccessed, WithFronts, At, IsSeed, IsSeedIn, Added, Stopped};

use crate::flow_analysis::FlowAnalysis;
use crate::found::{AddFault, Found};
use asl_code::Lock;
use asl_lock_expr::{LinkContext, add_accesses, prefixes};
use std::alloc::Global;

/// What links are read against in a function.
pub(crate) fn view<'a>(analysis: &FlowAnalysis<'a>, function: u16) -> LinkContext<'a>
    ensures { seen_by result ≡ seen (read analysis.now) function }
{
    LinkContext {
        classes: analysis.classes,
        writes: analysis.writes,
        k_limit: analysis.k_limit,
        function,
    }
}

/// Adds what accesses need, at each point of each region.
pub fn add_seeds(alloc: Global, analysis: &FlowAnalysis, found: &mut Found) -> Result<(), AddFault>
    requires analysis { IsRead (read analysis.now) }
    requires ready { IsReady (read analysis.now) (table found.old) }
    ensures ok { OnOk result (Added (read analysis.now) (table found.old) (table found.new) (IsSeed (read analysis.now))) }
    ensures err { IfErr result (Stopped (table found.old) (table found.new) (IsSeed (read analysis.now))) }
{
    let mut locks = Vec::new(alloc);
    for part in 0..analysis.spans.len() {
        add_region_seeds(alloc, analysis, part as u16, &mut locks, found)?;
    }
    Ok(())
}

/// Adds what accesses need at each point of a region. `locks` is scratch space: what it holds at first does not count.
fn add_region_seeds(
    alloc: Global,
    analysis: &FlowAnalysis,
    part: u16,
    locks: &mut Vec<Lock>,
    found: &mut Found,
) -> Result<(), AddFault>
    requires analysis { IsRead (read analysis.now) }
    requires ready { IsReady (read analysis.now) (table found.old) }
    requires there { part < length analysis.now.spans.now }
    ensures ok { OnOk result (Added (read analysis.now) (table found.old) (table found.new) (IsSeedIn (read analysis.now) part)) }
    ensures err { IfErr result (Stopped (table found.old) (table found.new) (IsSeedIn (read analysis.now) part)) }
{
    let span = analysis.spans[usize::from(part)];
    for pc in span.first..span.end {
        add_seeds_at(alloc, analysis, part, pc, locks, found)?;
    }
    Ok(())
}

/// Adds what an access needs. `locks` is scratch space: what it holds at first does not count.
fn add_seeds_at(
    alloc: Global,
    analysis: &FlowAnalysis,
    part: u16,
    pc: u16,
    locks: &mut Vec<Lock>,
    found: &mut Found,
) -> Result<(), AddFault>
    requires analysis { IsRead (read analysis.now) }
    requires ready { IsReady (read analysis.now) (table found.old) }
    requires point { IsAtPoint (read analysis.now) part pc }
    requires there { part < length analysis.now.spans.now }
    requires code { pc < length analysis.now.lowering.now.code }
    ensures ok { OnOk result (Added (read analysis.now) (table found.old) (table found.new) (At part pc (WithFronts (IsAccessed (read analysis.now) part pc)))) }
    ensures err { IfErr result (Stopped (table found.old) (table found.new) (At part pc (WithFronts (IsAccessed (read analysis.now) part pc)))) }
{
    let span = analysis.spans[usize::from(part)];
    locks.clear();
    add_accesses(
        &view(analysis, span.function),
        &analysis.lowering.code()[usize::from(pc)],
        locks,
    )?;
    add_with_prefixes(alloc, analysis, part, pc, locks, found)
}

/// Adds the locks of a list and their dereferenced prefixes at a point. They are taken from the list.
pub(crate) fn add_with_prefixes(
    alloc: Global,
    analysis: &FlowAnalysis,
    part: u16,
    pc: u16,
    locks: &mut Vec<Lock>,
    found: &mut Found,
) -> Result<(), AddFault>
    requires ready { IsReady (read analysis.now) (table found.old) }
    requires point { IsAtPoint (read analysis.now) part pc }
    requires there { part < length analysis.now.spans.now }
    ensures ok { OnOk result (Added (read analysis.now) (table found.old) (table found.new) (At part pc (WithFronts (IsOne locks.old.items)))) }
    ensures err { IfErr result (Stopped (table found.old) (table found.new) (At part pc (WithFronts (IsOne locks.old.items)))) }
{
    if locks.is_empty() {
        return Ok(());
    }
    let mut fronts = prefixes(alloc, locks)?;
    found.add_all(part, pc, locks)?;
    found.add_all(part, pc, &mut fronts)
}
