//! All that lists lack, section by section, in the order in which they are judged.
ghost use Rattle.std.specs.Prelude.{◌≡◌, ◌++◌, IfOk, OnOk, length, map};
ghost use Rattle.asl_code.specs.declared.lock.Lock.{Lock as AnyLock};
ghost use Rattle.asl_backward_flow.specs.Needed.{IsTold};
ghost use Rattle.asl_check.specs.declared.fault.CheckFault.TheVariants.{Uncovered, Unguarded};
ghost use Rattle.asl_check.specs.Missing.{AreAllLacks};

use crate::bare_locks::{bare_needs, bare_reads};
use crate::fault::CheckFault;
use crate::locks::copied;
use asl_backward_flow::Flow;
use asl_code::{Items, Lock};
use asl_lower::Lowering;
use asl_points_to::Classes;
use std::alloc::{AllocError, Global};

/// Adds that the section of a number needs these locks, and that its list lacks them.
fn add_uncovered(
    faults: &mut Vec<CheckFault>,
    number: u16,
    locks: &[Lock],
) -> Result<(), AllocError>
    ensures { OnOk result (faults.new.items ≡ faults.old.items ++ map (λ (a : AnyLock). Uncovered number a) locks.now) }
{
    for lock in locks {
        faults.push(CheckFault::Uncovered(number, copied(lock)))?;
    }
    Ok(())
}

/// Adds that the list of the section of a number reads these locks, and lacks them.
fn add_unguarded(
    faults: &mut Vec<CheckFault>,
    number: u16,
    locks: &[Lock],
) -> Result<(), AllocError>
    ensures { OnOk result (faults.new.items ≡ faults.old.items ++ map (λ (a : AnyLock). Unguarded number a) locks.now) }
{
    for lock in locks {
        faults.push(CheckFault::Unguarded(number, copied(lock)))?;
    }
    Ok(())
}

/// All that lists lack: of what sections need, by sections, and then of what lists read, by sections.
pub fn lacks(
    alloc: Global,
    lowering: &Lowering,
    classes: &Classes,
    flow: &Flow,
    lists: &[Items<Lock>],
) -> Result<Vec<CheckFault>, AllocError>
    requires { length lists.now ≡ length lowering.now.sections }
    ensures { IfOk result (λ v. AreAllLacks lowering.now classes.now (IsTold flow.now) lists.now v.items) }
{
    let mut faults = Vec::new(alloc);
    for (number, section) in lowering.sections().iter().enumerate() {
        let list = lists[number].as_slice();
        let bare = bare_needs(alloc, classes, section, list, flow, number as u16)?;
        add_uncovered(&mut faults, number as u16, bare.as_slice())?;
    }
    for (place, section) in lowering.sections().iter().enumerate() {
        let list = lists[place].as_slice();
        let bare = bare_reads(alloc, classes, section.function, list)?;
        add_unguarded(&mut faults, place as u16, bare.as_slice())?;
    }
    Ok(faults)
}
