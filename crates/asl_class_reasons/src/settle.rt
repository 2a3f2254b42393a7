//! Steps, until what is owed joins nothing more.

ghost use Rattle.std.specs.Prelude.{◌≡◌, ◌<◌, ◌≤◌, ◌^◌, ◌+◌, ℕ, true, false, IfOk, length, sum};
ghost use Rattle.asl_lower.specs.Lowered.{Lowered};
ghost use Rattle.asl_class_reasons.specs.Draft.{IsSized, IsFounded, IsGrown, AreThere, AreOf, HoldAll, drafted};

use crate::draft::Draft;
use crate::flow::Owed;
use crate::waking::make_when_woken;
use std::alloc::{AllocError, Global};

/// So many rounds are made before steps wait for what they lack.
const FEW_ROUNDS: u32 = 4;

/// Makes all steps that are owed, until they join nothing more. Few rounds are enough for most programs; where they are not, each step
/// waits for what it lacks, so that no program takes many rounds.
pub(crate) fn settle(alloc: Global, draft: &mut Draft, owed: &[Owed]) -> Result<(), AllocError>
    requires sized { IsSized draft.old }
    requires there { AreThere draft.old owed.now }
    ensures grown { IfOk result (λ _. IsGrown draft.old draft.new) }
    ensures founded { (l : Lowered) → IsFounded l draft.old → AreOf l owed.now → IfOk result (λ _. IsFounded l draft.new) }
    ensures holds { (l : Lowered) → IsFounded l draft.old → AreOf l owed.now → IfOk result (λ _. HoldAll (drafted l draft.new) owed.now) }
{
    let mut rounds = 0;
    loop {
        join_all_cells(draft)?;
        if !make_all(draft, owed)? {
            return Ok(());
        }
        rounds = after_round(alloc, draft, owed, rounds)?;
    }
}

/// How many rounds there were after one more; after a few, steps wait for what they lack.
fn after_round(
    alloc: Global,
    draft: &mut Draft,
    owed: &[Owed],
    rounds: u32,
) -> Result<u32, AllocError>
    requires sized { IsSized draft.old }
    requires there { AreThere draft.old owed.now }
    ensures grown { IfOk result (λ _. IsGrown draft.old draft.new) }
    ensures founded { (l : Lowered) → IsFounded l draft.old → AreOf l owed.now → IfOk result (λ _. IsFounded l draft.new) }
{
    let more = rounds.saturating_add(1);
    if more != FEW_ROUNDS {
        return Ok(more);
    }
    make_when_woken(alloc, draft, owed)?;
    Ok(more)
}

/// Joins what the cells of members of one class hold.
fn join_all_cells(draft: &mut Draft) -> Result<(), AllocError>
    requires sized { IsSized draft.old }
    ensures grown { IfOk result (λ _. IsGrown draft.old draft.new) }
    ensures founded { (l : Lowered) → IsFounded l draft.old → IfOk result (λ _. IsFounded l draft.new) }
{
    for member in 0..draft.members {
        draft.join_cells(member)?;
    }
    Ok(())
}

/// Makes the steps that are owed once, and says whether any joined places that were apart.
fn make_all(draft: &mut Draft, owed: &[Owed]) -> Result<bool, AllocError>
    requires sized { IsSized draft.old }
    requires there { AreThere draft.old owed.now }
    ensures grown { IfOk result (λ _. IsGrown draft.old draft.new) }
    ensures founded { (l : Lowered) → IsFounded l draft.old → AreOf l owed.now → IfOk result (λ _. IsFounded l draft.new) }
    ensures lower { IfOk result (λ more. more ≡ true → sum draft.new.sets < sum draft.old.sets) }
    ensures holds { (l : Lowered) → IsFounded l draft.old → AreOf l owed.now → IfOk result (λ more. more ≡ false → HoldAll (drafted l draft.new) owed.now) }
{
    let mut more = false;
    for one in owed {
        if draft.make(*one)? {
            more = true;
        }
    }
    Ok(more)
}
