//! The classes of a program.

ghost use Rattle.std.specs.Prelude.{◌≡◌, ◌↔◌, ◌+◌, ◌<◌, ◌≤◌, length, IfOk, IfErr, IsErrOf, OnOk};
ghost use Rattle.asl_lower.specs.LegalLowering.{IsLegalLowering};
ghost use Rattle.asl_points_to.specs.Classes.{AreClasses};
ghost use Rattle.asl_points_to.specs.Refused.{IsRefusedClasses};
ghost use Rattle.asl_points_to.specs.Found.{IsSettled, IsNumbering};
ghost use Rattle.asl_points_to.specs.Numbers.{AreNumbers};

use crate::class_draft::ClassDraft;
use crate::class_numbers::{ClassNumbers, number_classes};
use crate::class_table::Classes;
use crate::fault::ClassesFault;
use crate::settle::settle;
use crate::value_flows::program_flows;
use asl_code::image_limits::CLASSES;
use asl_lower::Lowering;
use std::alloc::{AllocError, Global};

/// The most classes that a program may have.
const MAX_CLASSES: usize = CLASSES as usize;

/// How many globals and sites a program has.
fn members(lowering: &Lowering) -> u32
    ensures count { result ≡ lowering.now.globals + lowering.now.sites }
    ensures kept { IsLegalLowering lowering.now }
{
    u32::from(lowering.globals()) + u32::from(lowering.sites())
}

/// The draft of the classes of a program in which nothing more is to flow.
fn settled(alloc: Global, lowering: &Lowering) -> Result<ClassDraft, AllocError>
    ensures { IfOk result (IsSettled lowering.now) }
{
    let flows = program_flows(alloc, lowering)?;
    let mut draft = ClassDraft::new(alloc, members(lowering), lowering.functions().len())?;
    settle(alloc, &mut draft, flows)?;
    Ok(draft)
}

/// The classes of a settled draft, with numbers for them. That they are too many is found without memory.
fn numbered(
    alloc: Global,
    lowering: &Lowering,
    draft: &ClassDraft,
    numbers: &ClassNumbers,
) -> Result<Classes, ClassesFault>
    requires draft { IsSettled lowering.now draft.now }
    requires numbers { AreNumbers draft.now.sets numbers.now.of.items numbers.now.firsts.items }
    ensures classes { IfOk result (IsNumbering lowering.now draft.now numbers.now.of.items numbers.now.firsts.items) }
    ensures few { OnOk result (length numbers.now.firsts.items ≤ 1024) }
    ensures many { IsErrOf result ClassesFault.TooManyClasses ↔ (1024 < length numbers.now.firsts.items) }
{
    if numbers.firsts.len() > MAX_CLASSES {
        return Err(ClassesFault::TooManyClasses);
    }
    Ok(Classes::numbered(alloc, lowering, draft, numbers)?)
}

/// The classes of a program: the least legal ones, numbered by their first members, globals before sites.
///
/// # Errors
///
/// `TooManyClasses` for more than 1,024; `OutOfMemory` where an allocation failed.
pub fn classes(alloc: Global, lowering: &Lowering) -> Result<Classes, ClassesFault>
    ensures classes { IfOk result (AreClasses lowering.now) }
    ensures few { IfOk result (λ c. c.count ≤ 1024) }
    ensures refused { IfErr result (IsRefusedClasses lowering.now) }
{
    let mut draft = settled(alloc, lowering)?;
    let numbers = number_classes(alloc, &mut draft.sets, members(lowering))?;
    numbered(alloc, lowering, &draft, &numbers)
}
