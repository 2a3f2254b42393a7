//! All reasons of a program.

ghost use Rattle.std.specs.Prelude.{◌≡◌, ◌<◌, ◌+◌, ◌^◌, IfOk, length};
ghost use Rattle.asl_lower.specs.Lowered.{Lowered};
ghost use Rattle.asl_lower.specs.LegalLowering.{IsLegalLowering};
ghost use Rattle.asl_class_reasons.specs.Draft.{IsSized, IsSettled, AreOf, IsLike, IsOwedAll};
ghost use Rattle.asl_class_reasons.specs.Reasons.{AreAllReasons};

use crate::draft::Draft;
use crate::flow::Owed;
use crate::flows::program_owed;
use crate::join_numbers::JoinNumbers;
use crate::place::Step;
use crate::settle::settle;
use crate::step_ends::StepEnds;
use asl_lower::Lowering;
use std::alloc::{AllocError, Global};
use std::marker::Model;

/// The reasons of a program why members share a class (`docs/ANALYSIS.md`, "Why one class").
#[derive(Drop)]
pub struct Reasons {
    pub(crate) draft: Draft,
    pub(crate) ends: StepEnds,
    pub(crate) joins: JoinNumbers,
    /// How many of the first steps joined places that were apart. The others make chains shorter.
    pub(crate) made: usize,
}

impl Model for Reasons {
    ghost use Rattle.asl_class_reasons.specs.Reasons.{Found};
    ghost use Rattle.asl_class_reasons.specs.Draft.{IsSized};
    ghost use Rattle.asl_class_reasons.specs.Following.{AreInTrees};

    ghost Value = { Found };

    ghost view = { λ r. record { members = r.draft.members; functions = r.draft.functions; steps = r.draft.steps.items } };

    ghost invariant = { λ r. IsSized r.draft × AreInTrees r.joins r.draft.members r.draft.steps.items r.made };
}

/// How many globals and sites a program has.
fn members(lowering: &Lowering) -> u32
    ensures count { result ≡ lowering.now.globals + lowering.now.sites }
    ensures few { result < 2 ^ 20 }
{
    u32::from(lowering.globals()) + u32::from(lowering.sites())
}

/// The draft in which these join nothing more, which are owed to a program, or all that are owed to one with the same members
/// and functions.
pub(crate) fn settled(
    alloc: Global,
    lowering: &Lowering,
    owed: &[Owed],
) -> Result<Draft, AllocError>
    requires { AreOf lowering.now owed.now }
    ensures kept { IsLegalLowering lowering.now }
    ensures sized { IfOk result IsSized }
    ensures settled { (l : Lowered) → IsLike lowering.now l → IsOwedAll l owed.now → IfOk result (IsSettled l) }
{
    let count = lowering.functions().len() as u32;
    let mut draft = Draft::new(alloc, members(lowering), count)?;
    settle(alloc, &mut draft, owed)?;
    Ok(draft)
}

/// All reasons of a program: for each two members that share a class a chain of them leads from one to the other.
pub fn reasons_of(alloc: Global, lowering: &Lowering) -> Result<Reasons, AllocError>
    ensures all { IfOk result (λ r. AreAllReasons lowering.now r.steps) }
    ensures members { IfOk result (λ r. r.members ≡ lowering.now.globals + lowering.now.sites) }
    ensures functions { IfOk result (λ r. r.functions ≡ length lowering.now.functions) }
{
    let owed = program_owed(alloc, lowering)?;
    let mut draft = settled(alloc, lowering, &owed)?;
    let made = draft.steps.len();
    for one in &owed {
        draft.shorten(*one)?;
    }
    let ends = StepEnds::new(alloc, &draft, draft.steps.as_slice())?;
    let joins = JoinNumbers::new(alloc, &draft)?;
    let made = joins.met(&draft, made);
    Ok(Reasons {
        draft,
        ends,
        joins,
        made,
    })
}

impl Reasons {
    /// The steps, each reasoned by those before it.
    pub fn steps(&self) -> &[Step]
        ensures { result.now ≡ self.now.steps }
    {
        self.draft.steps.as_slice()
    }
}
