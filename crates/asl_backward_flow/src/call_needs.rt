//! What the locks at the entry of a function become at its calls.
ghost use Rattle.std.specs.Prelude.{◌≡◌, ◌<◌, ◌↔◌, ◌⊎◌, ℕ, Some, length, slice_get, OnOk, IfOk, IfErr};
ghost use Rattle.asl_lane_sets.specs.NumberSet.{IsIn};
ghost use Rattle.asl_lock_expr.specs.Links.{IsOne};
ghost use Rattle.asl_backward_flow.specs.Found.{table, locks_of, IsNamed};
ghost use Rattle.asl_backward_flow.specs.Entering.{IsEnteredOf, IsCalledAtOf, IsEnteredAt, AreEntered};
ghost use Rattle.asl_backward_flow.specs.Follows.{read, IsRead, IsReady, IsAtPoint, IsEntered, At, AtCallOf, IsEntryOf, Added, Stopped};

use crate::access_needs::view;
use crate::entered::AllEntered;
use crate::flow_analysis::FlowAnalysis;
use crate::found::{AddFault, Found};
use crate::region::Region;
use asl_code::{Instr, Lock};
use asl_lane_sets::Bits;
use asl_lock_expr::{add_entered, prefixes};
use std::alloc::{AllocError, Global};

/// Where the pc is the entry of a body, adds what the locks of these numbers become at each call of its function. `known` is scratch
/// space: what it holds at first does not count.
pub fn add_entry(
    alloc: Global,
    analysis: &FlowAnalysis,
    part: u16,
    pc: u16,
    set: &Bits,
    known: &mut AllEntered,
    found: &mut Found,
) -> Result<(), AddFault>
    requires analysis { IsRead (read analysis.now) }
    requires ready { IsReady (read analysis.now) (table found.old) }
    requires there { part < length analysis.now.spans.now }
    requires named { (n : ℕ) → IsIn set.now n → (m : _) × (slice_get (locks_of (table found.old) part) n ≡ Some m) }
    ensures ok { OnOk result (Added (read analysis.now) (table found.old) (table found.new)
        (IsEntryOf (read analysis.now) part pc (IsNamed (locks_of (table found.old) part) set.now))) }
    ensures err { IfErr result (Stopped (table found.old) (table found.new)
        (IsEntryOf (read analysis.now) part pc (IsNamed (locks_of (table found.old) part) set.now))) }
{
    let span = analysis.spans[usize::from(part)];
    match span.region {
        Region::Body(function) if pc == span.first => {
            add_all_calls(alloc, analysis, part, function, set, known, found)
        }
        _ => Ok(()),
    }
}

/// Adds what the locks of these numbers, at the entry of a function, become at each of its calls.
fn add_all_calls(
    alloc: Global,
    analysis: &FlowAnalysis,
    part: u16,
    function: u16,
    set: &Bits,
    known: &mut AllEntered,
    found: &mut Found,
) -> Result<(), AddFault>
    requires analysis { IsRead (read analysis.now) }
    requires ready { IsReady (read analysis.now) (table found.old) }
    requires there { part < length analysis.now.spans.now }
    requires named { (n : ℕ) → IsIn set.now n → (m : _) × (slice_get (locks_of (table found.old) part) n ≡ Some m) }
    ensures ok { OnOk result (Added (read analysis.now) (table found.old) (table found.new)
        (AtCallOf (read analysis.now) function (IsNamed (locks_of (table found.old) part) set.now))) }
    ensures err { IfErr result (Stopped (table found.old) (table found.new)
        (AtCallOf (read analysis.now) function (IsNamed (locks_of (table found.old) part) set.now))) }
{
    let locks = found.named(alloc, part, set)?;
    if locks.is_empty() {
        return Ok(());
    }
    add_calls(alloc, analysis, function, locks.as_slice(), known, found)
}

/// Adds what the locks at the entry of a function become at each of its calls. `known` is scratch space: what it holds at first does
/// not count.
fn add_calls(
    alloc: Global,
    analysis: &FlowAnalysis,
    function: u16,
    locks: &[Lock],
    known: &mut AllEntered,
    found: &mut Found,
) -> Result<(), AddFault>
    requires analysis { IsRead (read analysis.now) }
    requires ready { IsReady (read analysis.now) (table found.old) }
    ensures ok { OnOk result (Added (read analysis.now) (table found.old) (table found.new) (AtCallOf (read analysis.now) function (IsOne locks.now))) }
    ensures err { IfErr result (Stopped (table found.old) (table found.new) (AtCallOf (read analysis.now) function (IsOne locks.now))) }
{
    known.list.clear();
    if let Some(calls) = analysis.calls.get(usize::from(function)) {
        for pc in calls.as_slice() {
            add_call(alloc, analysis, *pc, locks, known, found)?;
        }
    }
    Ok(())
}

/// Adds what the locks at the entry of a callee become at its call, in each region that has the call.
fn add_call(
    alloc: Global,
    analysis: &FlowAnalysis,
    pc: u16,
    locks: &[Lock],
    known: &mut AllEntered,
    found: &mut Found,
) -> Result<(), AddFault>
    requires analysis { IsRead (read analysis.now) }
    requires ready { IsReady (read analysis.now) (table found.old) }
    requires code { pc < length analysis.now.lowering.now.code }
    requires known { AreEntered (read analysis.now) (table found.old) (IsOne locks.now) known.old.list.items }
    ensures known { OnOk result (AreEntered (read analysis.now) (table found.new) (IsOne locks.now) known.new.list.items) }
    ensures ok { OnOk result (Added (read analysis.now) (table found.old) (table found.new) (IsCalledAtOf (read analysis.now) pc (IsOne locks.now))) }
    ensures err { IfErr result (Stopped (table found.old) (table found.new) (IsCalledAtOf (read analysis.now) pc (IsOne locks.now))) }
{
    if let Some(parts) = analysis.regions.get(usize::from(pc)) {
        for part in parts.as_slice() {
            add_entered_in(alloc, analysis, *part, pc, locks, known, found)?;
        }
    }
    Ok(())
}

/// Adds what the locks at the entry of a callee become at its call, in a region that has the call. It is found once for all calls
/// of the region with their arguments in the same registers; `known` has what was found.
fn add_entered_in(
    alloc: Global,
    analysis: &FlowAnalysis,
    part: u16,
    pc: u16,
    locks: &[Lock],
    known: &mut AllEntered,
    found: &mut Found,
) -> Result<(), AddFault>
    requires analysis { IsRead (read analysis.now) }
    requires ready { IsReady (read analysis.now) (table found.old) }
    requires point { IsAtPoint (read analysis.now) part pc }
    requires there { part < length analysis.now.spans.now }
    requires code { pc < length analysis.now.lowering.now.code }
    requires known { AreEntered (read analysis.now) (table found.old) (IsOne locks.now) known.old.list.items }
    ensures known { OnOk result (AreEntered (read analysis.now) (table found.new) (IsOne locks.now) known.new.list.items) }
    ensures ok { OnOk result (Added (read analysis.now) (table found.old) (table found.new) (At part pc (IsEnteredOf (read analysis.now) part pc (IsOne locks.now)))) }
    ensures err { IfErr result (Stopped (table found.old) (table found.new) (At part pc (IsEnteredOf (read analysis.now) part pc (IsOne locks.now)))) }
{
    if let Some(place) = known.find(analysis.lowering, part, pc) {
        return found.add_numbered(part, pc, &known.list[place].numbers);
    }
    let numbers = add_first(alloc, analysis, part, pc, locks, found)?;
    known.put(part, pc, numbers)?;
    Ok(())
}

/// Adds what the locks at the entry of a callee become at its call, and gives the numbers that this has in the region.
fn add_first(
    alloc: Global,
    analysis: &FlowAnalysis,
    part: u16,
    pc: u16,
    locks: &[Lock],
    found: &mut Found,
) -> Result<Bits, AddFault>
    requires analysis { IsRead (read analysis.now) }
    requires ready { IsReady (read analysis.now) (table found.old) }
    requires point { IsAtPoint (read analysis.now) part pc }
    requires there { part < length analysis.now.spans.now }
    requires code { pc < length analysis.now.lowering.now.code }
    ensures numbers { IfOk result (IsEnteredAt (read analysis.now) (table found.new) (IsOne locks.now) part pc) }
    ensures ok { OnOk result (Added (read analysis.now) (table found.old) (table found.new) (At part pc (IsEnteredOf (read analysis.now) part pc (IsOne locks.now)))) }
    ensures err { IfErr result (Stopped (table found.old) (table found.new) (At part pc (IsEnteredOf (read analysis.now) part pc (IsOne locks.now)))) }
{
    let mut entered = entered(alloc, analysis, part, pc, locks)?;
    let mut fronts = prefixes(alloc, &entered)?;
    let mut numbers = Bits::new(alloc);
    found.add_listed(part, pc, &mut entered, &mut numbers)?;
    found.add_listed(part, pc, &mut fronts, &mut numbers)?;
    Ok(numbers)
}

/// What the locks at the entry of a callee become at its call; nothing where no call is.
fn entered(
    alloc: Global,
    analysis: &FlowAnalysis,
    part: u16,
    pc: u16,
    locks: &[Lock],
) -> Result<Vec<Lock>, AllocError>
    requires analysis { IsRead (read analysis.now) }
    requires there { part < length analysis.now.spans.now }
    requires code { pc < length analysis.now.lowering.now.code }
    ensures { IfOk result (λ v. (m : _) → IsOne v.items m ↔ ((l : _) × IsOne locks.now l × IsEntered (read analysis.now) part pc l m)) }
{
    let mut all = Vec::new(alloc);
    for lock in locks {
        add_one(analysis, part, pc, lock, &mut all)?;
    }
    Ok(all)
}

/// Adds to a list what the lock at the entry of a callee becomes at its call.
fn add_one(
    analysis: &FlowAnalysis,
    part: u16,
    pc: u16,
    lock: &Lock,
    into: &mut Vec<Lock>,
) -> Result<(), AllocError>
    requires analysis { IsRead (read analysis.now) }
    requires there { part < length analysis.now.spans.now }
    requires code { pc < length analysis.now.lowering.now.code }
    ensures { OnOk result ((m : _) → IsOne into.new.items m ↔ (IsOne into.old.items m ⊎ IsEntered (read analysis.now) part pc lock.now m)) }
{
    let span = analysis.spans[usize::from(part)];
    match analysis.lowering.code()[usize::from(pc)] {
        Instr::Call {
            first,
            function,
            ..
        } => {
            let callee = analysis.lowering.functions()[usize::from(function)];
            let view = view(analysis, span.function);
            add_entered(&view, first, callee.params, lock, into)
        }
        _ => Ok(()),
    }
}
