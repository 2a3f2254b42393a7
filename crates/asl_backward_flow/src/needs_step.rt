//! What is needed at once, and what follows from what is needed.
ghost use Rattle.std.specs.Prelude.{◌≡◌, ◌<◌, ◌+◌, ℕ, true, false, [], Some, length, map, slice_get, OnOk, IfOk, IfErr};
ghost use Rattle.std.specs.List.{Contains};
ghost use Rattle.asl_backward_flow.specs.Graph.{IsEdge};
ghost use Rattle.asl_backward_flow.specs.Found.{table, locks_of, IsNamed, IsListed};
ghost use Rattle.asl_backward_flow.specs.Masked.{AreAllMasks, LeavesStayingAt};
ghost use Rattle.asl_backward_flow.specs.Follows.{read, IsRead, IsReady, IsAtPoint, IsLinkedAlone, IsLinkedOf, WithFronts, At, IsBack, AreBefore, IsChosen, IsLinkedAt, IsLinkedBack, Splits, Added, Stopped};

use crate::access_needs::{add_with_prefixes, view};
use crate::flow_analysis::FlowAnalysis;
use crate::found::{AddFault, Found};
use crate::graph::goes_on;
use crate::masks::{Masks, find_touched, split};
use crate::scratch::Scratch;
use asl_code::Lock;
use asl_lane_sets::Bits;
use asl_lock_expr::add_links;
use std::alloc::{AllocError, Global};

/// Adds what the locks of these numbers, which are needed at the pc, become over each instruction of the region from which
/// control continues to the pc.
pub fn add_back(
    alloc: Global,
    analysis: &FlowAnalysis,
    part: u16,
    pc: u16,
    scratch: &mut Scratch,
    found: &mut Found,
) -> Result<(), AddFault>
    requires analysis { IsRead (read analysis.now) }
    requires ready { IsReady (read analysis.now) (table found.old) }
    requires there { part < length analysis.now.spans.now }
    requires code { pc < length analysis.now.lowering.now.code }
    requires chosen { IsChosen (locks_of (table found.old) part) scratch.old.set (IsLinkedBack (read analysis.now) (table found.old) part pc) }
    requires masks { AreAllMasks (read analysis.now) (table found.old) (map (λ v. v.list.items) scratch.old.masks.items) }
    ensures set { scratch.new.set ≡ scratch.old.set }
    ensures masks { OnOk result (AreAllMasks (read analysis.now) (table found.new) (map (λ v. v.list.items) scratch.new.masks.items)) }
    ensures ok { OnOk result (Added (read analysis.now) (table found.old) (table found.new)
        (IsBack (read analysis.now) part pc (IsNamed (locks_of (table found.old) part) scratch.old.set))) }
    ensures err { IfErr result (Stopped (table found.old) (table found.new)
        (IsBack (read analysis.now) part pc (IsNamed (locks_of (table found.old) part) scratch.old.set))) }
{
    last(analysis, part, pc, &mut scratch.pcs)?;
    add_jumps(analysis, part, pc, &mut scratch.pcs)?;
    for number in 0..scratch.pcs.len() {
        let before = scratch.pcs[number];
        add_linked(alloc, analysis, part, before, scratch, found)?;
    }
    Ok(())
}

/// Makes a list that of the pc before, if the region has it and control continues from there.
fn last(analysis: &FlowAnalysis, part: u16, pc: u16, pcs: &mut Vec<u16>) -> Result<(), AllocError>
    requires there { part < length analysis.now.spans.now }
    requires code { pc < length analysis.now.lowering.now.code }
    ensures { OnOk result (AreBefore (read analysis.now) part pc (λ q. IsEdge analysis.now.lowering.now pc q × (pc ≡ q + 1)) pcs.new.items) }
{
    let span = analysis.spans[usize::from(part)];
    pcs.clear();
    if pc > 0 && span.has(pc - 1) && goes_on(analysis.lowering, pc - 1, pc) {
        pcs.push(pc - 1)?;
    }
    Ok(())
}

/// Adds the other pcs of the region from which control continues to the pc.
fn add_jumps(
    analysis: &FlowAnalysis,
    part: u16,
    pc: u16,
    pcs: &mut Vec<u16>,
) -> Result<(), AllocError>
    requires analysis { IsRead (read analysis.now) }
    requires there { part < length analysis.now.spans.now }
    requires before { AreBefore (read analysis.now) part pc (λ q. IsEdge analysis.now.lowering.now pc q × (pc ≡ q + 1)) pcs.old.items }
    ensures { OnOk result (AreBefore (read analysis.now) part pc (IsEdge analysis.now.lowering.now pc) pcs.new.items) }
{
    let span = analysis.spans[usize::from(part)];
    if let Some(jumps) = analysis.jumps.get(usize::from(pc)) {
        for jump in jumps.as_slice() {
            if span.has(*jump) {
                pcs.push(*jump)?;
            }
        }
    }
    Ok(())
}

/// Adds what the locks of these numbers become over the instruction: those that stay at once, the others one by one.
fn add_linked(
    alloc: Global,
    analysis: &FlowAnalysis,
    part: u16,
    pc: u16,
    scratch: &mut Scratch,
    found: &mut Found,
) -> Result<(), AddFault>
    requires analysis { IsRead (read analysis.now) }
    requires ready { IsReady (read analysis.now) (table found.old) }
    requires point { IsAtPoint (read analysis.now) part pc }
    requires there { part < length analysis.now.spans.now }
    requires code { pc < length analysis.now.lowering.now.code }
    requires chosen { IsChosen (locks_of (table found.old) part) scratch.old.set (IsLinkedAt (read analysis.now) (table found.old) part pc) }
    requires masks { AreAllMasks (read analysis.now) (table found.old) (map (λ v. v.list.items) scratch.old.masks.items) }
    ensures set { scratch.new.set ≡ scratch.old.set }
    ensures pcs { scratch.new.pcs ≡ scratch.old.pcs }
    ensures masks { OnOk result (AreAllMasks (read analysis.now) (table found.new) (map (λ v. v.list.items) scratch.new.masks.items)) }
    ensures ok { OnOk result (Added (read analysis.now) (table found.old) (table found.new)
        (At part pc (IsLinkedOf (read analysis.now) part pc (IsNamed (locks_of (table found.old) part) scratch.old.set)))) }
    ensures err { IfErr result (Stopped (table found.old) (table found.new)
        (At part pc (IsLinkedOf (read analysis.now) part pc (IsNamed (locks_of (table found.old) part) scratch.old.set)))) }
{
    let changes = split_over(alloc, analysis, part, pc, scratch, found)?;
    if changes {
        found.add_numbered(part, pc, &scratch.stay)?;
        return add_changed(
            alloc,
            analysis,
            part,
            pc,
            &scratch.changed,
            &mut scratch.links,
            found,
        );
    }
    found.add_numbered(part, pc, &scratch.set)
}

/// Splits the locks that are needed into those that change over the instruction and those that stay, and tells whether any change.
fn split_over(
    alloc: Global,
    analysis: &FlowAnalysis,
    part: u16,
    pc: u16,
    scratch: &mut Scratch,
    found: &Found,
) -> Result<bool, AllocError>
    requires ready { IsReady (read analysis.now) (table found.now) }
    requires there { part < length analysis.now.spans.now }
    requires code { pc < length analysis.now.lowering.now.code }
    requires masks { AreAllMasks (read analysis.now) (table found.now) (map (λ v. v.list.items) scratch.old.masks.items) }
    ensures set { scratch.new.set ≡ scratch.old.set }
    ensures pcs { scratch.new.pcs ≡ scratch.old.pcs }
    ensures masks { OnOk result (AreAllMasks (read analysis.now) (table found.now) (map (λ v. v.list.items) scratch.new.masks.items)) }
    ensures none { IfOk result (λ some. some ≡ false → Splits (read analysis.now) (table found.now) part pc scratch.old.set scratch.old.set []) }
    ensures some { IfOk result (λ some. some ≡ true → Splits (read analysis.now) (table found.now) part pc scratch.old.set scratch.new.stay scratch.new.changed.items) }
{
    touched_at(
        alloc,
        analysis,
        part,
        pc,
        &mut scratch.masks,
        &mut scratch.touched,
        found,
    )?;
    split(
        &scratch.set,
        &scratch.touched,
        &mut scratch.stay,
        &mut scratch.changed,
    )
}

/// Makes a set that of the numbers of the region's locks that the instruction may concern.
fn touched_at(
    alloc: Global,
    analysis: &FlowAnalysis,
    part: u16,
    pc: u16,
    masks: &mut Vec<Masks>,
    touched: &mut Bits,
    found: &Found,
) -> Result<(), AllocError>
    requires ready { IsReady (read analysis.now) (table found.now) }
    requires there { part < length analysis.now.spans.now }
    requires code { pc < length analysis.now.lowering.now.code }
    requires masks { AreAllMasks (read analysis.now) (table found.now) (map (λ v. v.list.items) masks.old.items) }
    ensures masks { OnOk result (AreAllMasks (read analysis.now) (table found.now) (map (λ v. v.list.items) masks.new.items)) }
    ensures touched { OnOk result (LeavesStayingAt (read analysis.now) (table found.now) part pc touched.new) }
{
    let span = analysis.spans[usize::from(part)];
    let view = view(analysis, span.function);
    let instr = analysis.lowering.code()[usize::from(pc)];
    let locks = found.parts[usize::from(part)].locks.as_slice();
    find_touched(
        alloc,
        &view,
        instr,
        locks,
        &mut masks[usize::from(part)],
        touched,
    )
}

/// Adds what the locks of these numbers become over the instruction. `links` is scratch space: what it holds at first does not
/// count.
fn add_changed(
    alloc: Global,
    analysis: &FlowAnalysis,
    part: u16,
    pc: u16,
    numbers: &[usize],
    links: &mut Vec<Lock>,
    found: &mut Found,
) -> Result<(), AddFault>
    requires analysis { IsRead (read analysis.now) }
    requires ready { IsReady (read analysis.now) (table found.old) }
    requires point { IsAtPoint (read analysis.now) part pc }
    requires there { part < length analysis.now.spans.now }
    requires code { pc < length analysis.now.lowering.now.code }
    requires named { (n : ℕ) → Contains numbers.now n → (m : _) × (slice_get (locks_of (table found.old) part) n ≡ Some m) }
    ensures ok { OnOk result (Added (read analysis.now) (table found.old) (table found.new)
        (At part pc (IsLinkedOf (read analysis.now) part pc (IsListed (locks_of (table found.old) part) numbers.now)))) }
    ensures err { IfErr result (Stopped (table found.old) (table found.new)
        (At part pc (IsLinkedOf (read analysis.now) part pc (IsListed (locks_of (table found.old) part) numbers.now)))) }
{
    for number in numbers {
        let lock = found.lock(part, *number)?;
        add_link(alloc, analysis, part, pc, &lock, links, found)?;
    }
    Ok(())
}

/// Adds what the lock becomes over the instruction. `links` is scratch space: what it holds at first does not count.
fn add_link(
    alloc: Global,
    analysis: &FlowAnalysis,
    part: u16,
    pc: u16,
    lock: &Lock,
    links: &mut Vec<Lock>,
    found: &mut Found,
) -> Result<(), AddFault>
    requires analysis { IsRead (read analysis.now) }
    requires ready { IsReady (read analysis.now) (table found.old) }
    requires point { IsAtPoint (read analysis.now) part pc }
    requires there { part < length analysis.now.spans.now }
    requires code { pc < length analysis.now.lowering.now.code }
    ensures ok { OnOk result (Added (read analysis.now) (table found.old) (table found.new)
        (At part pc (WithFronts (IsLinkedAlone (read analysis.now) part pc lock.now)))) }
    ensures err { IfErr result (Stopped (table found.old) (table found.new)
        (At part pc (WithFronts (IsLinkedAlone (read analysis.now) part pc lock.now)))) }
{
    let span = analysis.spans[usize::from(part)];
    links.clear();
    add_links(
        &view(analysis, span.function),
        &analysis.lowering.code()[usize::from(pc)],
        lock,
        links,
    )?;
    add_with_prefixes(alloc, analysis, part, pc, links, found)
}
