//! Whether the list of each section covers what the section needs, and over what its own expressions read.
ghost use Rattle.std.specs.Prelude.{◌≡◌, IfOk, IfErr, length};
ghost use Rattle.asl_backward_flow.specs.Needed.{AreParts};
ghost use Rattle.asl_check.specs.Checked.{AreGuarded};
ghost use Rattle.asl_check.specs.KnownLists.{AreCovered, IsFirstLack, IsUncovered, IsUnguarded};

use crate::bare_reads::first_bare_read;
use crate::fault::CheckFault;
use crate::lacking::lacking;
use asl_backward_flow::Flow;
use asl_code::{Items, Lock};
use asl_lower::Lowering;
use asl_points_to::Classes;

/// Whether each list covers what is needed after the `acq` of its section. Else the first section whose list does not is named,
/// and the first lock that it lacks, of those that no other absorbs.
pub fn cover(
    lowering: &Lowering,
    classes: &Classes,
    flow: &Flow,
    lists: &[Items<Lock>],
) -> Result<(), CheckFault>
    requires count { length lists.now ≡ length lowering.now.sections }
    requires parts { AreParts flow.now }
    ensures covered { IfOk result (λ _. AreCovered lowering.now classes.now flow.now lists.now (length lowering.now.sections)) }
    ensures uncovered { IfErr result (IsUncovered lowering.now classes.now flow.now lists.now) }
{
    for (number, section) in lowering.sections().iter().enumerate() {
        let entry = u32::from(section.acquire) + 1;
        let list = lists[number].as_slice();
        if let Some(lock) = lacking(classes, section.function, list, flow, number as u16, entry) {
            return Err(CheckFault::Uncovered(number as u16, lock));
        }
    }
    Ok(())
}

/// Whether each list covers what its own expressions read. Else the first section whose list does not is named, and the first
/// lock that it lacks.
pub fn guard(
    lowering: &Lowering,
    classes: &Classes,
    lists: &[Items<Lock>],
) -> Result<(), CheckFault>
    requires { length lists.now ≡ length lowering.now.sections }
    ensures guarded { IfOk result (λ _. AreGuarded lowering.now classes.now lists.now (length lowering.now.sections)) }
    ensures unguarded { IfErr result (IsUnguarded lowering.now classes.now lists.now) }
{
    for (number, section) in lowering.sections().iter().enumerate() {
        let list = lists[number].as_slice();
        if let Some(lock) = first_bare_read(classes, section.function, list) {
            return Err(CheckFault::Unguarded(number as u16, lock));
        }
    }
    Ok(())
}

/// Whether each list covers what its section needs, and over what its own expressions read. Else the first that is wrong is named.
pub fn judge(
    lowering: &Lowering,
    classes: &Classes,
    flow: &Flow,
    lists: &[Items<Lock>],
) -> Result<(), CheckFault>
    requires count { length lists.now ≡ length lowering.now.sections }
    requires parts { AreParts flow.now }
    ensures covered { IfOk result (λ _. AreCovered lowering.now classes.now flow.now lists.now (length lowering.now.sections)) }
    ensures guarded { IfOk result (λ _. AreGuarded lowering.now classes.now lists.now (length lowering.now.sections)) }
    ensures first { IfErr result (IsFirstLack lowering.now classes.now flow.now lists.now) }
{
    match cover(lowering, classes, flow, lists) {
        Ok(()) => guard(lowering, classes, lists),
        Err(fault) => Err(fault),
    }
}
