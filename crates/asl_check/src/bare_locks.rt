//! All locks that the list of a section lacks: of those that the section needs, and of those that the list's expressions read.
ghost use Rattle.std.specs.Prelude.{◌≡◌, ◌+◌, IfOk, OnOk};
ghost use Rattle.asl_lower.specs.Regions.{Inside};
ghost use Rattle.asl_backward_flow.specs.Needed.{IsTold};
ghost use Rattle.asl_emitter.specs.Lists.{IsReduced};
ghost use Rattle.asl_check.specs.Checked.{reads_of};
ghost use Rattle.asl_check.specs.KnownLists.{AreBare, AreBareNeeds, IsOnceMore};

use crate::covers::{LIKELY, is_under_one};
use crate::locks::copied;
use asl_backward_flow::{Flow, Region};
use asl_code::Lock;
use asl_emitter::reduce;
use asl_lock_expr::add_dereferenced;
use asl_lower::Section;
use asl_points_to::Classes;
use indexmap::IndexSet;
use std::alloc::{AllocError, Global};

/// The locks that the section of a number needs at the pc, but for those that another of these absorbs, in the order of locks.
fn needed_locks(
    alloc: Global,
    classes: &Classes,
    function: u16,
    flow: &Flow,
    number: u16,
    pc: u32,
) -> Result<Vec<Lock>, AllocError>
    ensures { IfOk result (λ v. IsReduced classes.now function (IsTold flow.now (Inside number) pc) v.items) }
{
    let needed = flow.at(alloc, Region::Section(number), pc)?;
    reduce(alloc, classes, function, &needed)
}

/// The locks that are read when the expressions of a list are evaluated, in this order.
fn read_locks(alloc: Global, list: &[Lock]) -> Result<Vec<Lock>, AllocError>
    ensures { IfOk result (λ v. v.items ≡ reads_of list.now) }
{
    let mut reads = Vec::new(alloc);
    for lock in list {
        add_dereferenced(lock, &mut reads)?;
    }
    Ok(reads)
}

/// Puts the lock behind these, unless it is one of them.
fn add_once(locks: &mut IndexSet<Lock>, lock: Lock) -> Result<(), AllocError>
    ensures { OnOk result (IsOnceMore locks.old.keys lock locks.new.keys) }
{
    locks.insert(lock)?;
    Ok(())
}

/// Of these locks those that no lock of the list covers, each once, in the order in which they first stand there.
fn bare_locks(
    alloc: Global,
    classes: &Classes,
    function: u16,
    list: &[Lock],
    locks: &[Lock],
) -> Result<IndexSet<Lock>, AllocError>
    ensures { IfOk result (λ s. AreBare classes.now function list.now locks.now s.keys) }
{
    let mut bare = IndexSet::new(alloc);
    let mut likely = [0; LIKELY];
    for lock in locks {
        if is_under_one(classes, function, list, lock, &mut likely) {
            continue;
        }
        add_once(&mut bare, copied(lock))?;
    }
    Ok(bare)
}

/// All locks that a section needs after its `acq` and that no lock of its list covers, but for those that another lock that it
/// needs absorbs, in the order of locks.
pub fn bare_needs(
    alloc: Global,
    classes: &Classes,
    section: &Section,
    list: &[Lock],
    flow: &Flow,
    number: u16,
) -> Result<IndexSet<Lock>, AllocError>
    ensures { IfOk result (λ s. AreBareNeeds classes.now section.now.function list.now (IsTold flow.now (Inside number) (section.now.acquire + 1)) s.keys) }
{
    let entry = u32::from(section.acquire) + 1;
    let needed = needed_locks(alloc, classes, section.function, flow, number, entry)?;
    bare_locks(alloc, classes, section.function, list, &needed)
}

/// All locks that the evaluation of a list reads and that no lock of the list covers, in the order in which they are read.
pub fn bare_reads(
    alloc: Global,
    classes: &Classes,
    function: u16,
    list: &[Lock],
) -> Result<IndexSet<Lock>, AllocError>
    ensures { IfOk result (λ s. AreBare classes.now function list.now (reads_of list.now) s.keys) }
{
    let reads = read_locks(alloc, list)?;
    bare_locks(alloc, classes, function, list, &reads)
}
