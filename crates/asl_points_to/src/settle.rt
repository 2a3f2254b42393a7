//! Flows, until nothing more is to flow.

ghost use Rattle.std.specs.Prelude.{◌≡◌, ◌≤◌, ◌⊎◌, IfOk, IfSome, length, slice_get};
ghost use Rattle.std.specs.List.{All, Contains};
ghost use Rattle.asl_points_to.specs.declared.value_flow.Flow.{Flow as FlowValue};
ghost use Rattle.asl_points_to.specs.Classes.{Classed};
ghost use Rattle.asl_points_to.specs.Draft.{Holds, IsThere, IsDraft, IsForced, Keeps, HasFlowed, IsIdle};

use crate::class_draft::ClassDraft;
use crate::value_flow::Flow;
use crate::waiting::Waiting;
use std::alloc::{AllocError, Global};

/// So many rounds are made before flows wait for what they lack.
const FEW_ROUNDS: u32 = 4;

/// Lets each flow flow, until none of those that are left has anything to flow. A flow that has flowed once needs no other
/// look, and each round goes the other way than the one before it. Few rounds are enough for most programs; where they are not, each
/// flow that is left waits for what it lacks, so that no program takes many rounds.
pub fn settle(alloc: Global, draft: &mut ClassDraft, flows: Vec<Flow>) -> Result<(), AllocError>
    requires draft { IsDraft draft.old }
    requires there { All (IsThere (length draft.old.registers.items) (length draft.old.sets)) flows.items }
    ensures draft { IfOk result (λ _. IsDraft draft.new) }
    ensures keeps { IfOk result (λ _. Keeps draft.old draft.new) }
    ensures settled { IfOk result (λ _. (f : FlowValue) → Contains flows.items f → HasFlowed draft.new f ⊎ IsIdle draft.new f) }
    ensures forced { IfOk result (λ _. (c : Classed) → IsForced c draft.old → All (Holds c) flows.items → IsForced c draft.new) }
{
    let mut waiting = flows;
    let mut rounds = 0;
    loop {
        let before = waiting.len();
        waiting = round(alloc, draft, waiting)?;
        if waiting.len() == before {
            return Ok(());
        }
        rounds = after_round(alloc, draft, &waiting, rounds)?;
    }
}

/// How many rounds there were after one more; after a few, flows wait for what they lack.
fn after_round(
    alloc: Global,
    draft: &mut ClassDraft,
    flows: &[Flow],
    rounds: u32,
) -> Result<u32, AllocError>
    requires draft { IsDraft draft.old }
    requires there { All (IsThere (length draft.old.registers.items) (length draft.old.sets)) flows.now }
    ensures draft { IfOk result (λ _. IsDraft draft.new) }
    ensures keeps { IfOk result (λ _. Keeps draft.old draft.new) }
    ensures forced { IfOk result (λ _. (c : Classed) → IsForced c draft.old → All (Holds c) flows.now → IsForced c draft.new) }
{
    let more = rounds.saturating_add(1);
    if more != FEW_ROUNDS {
        return Ok(more);
    }
    flow_when_woken(alloc, draft, flows)?;
    Ok(more)
}

/// A flow with its number.
#[derive(Clone, Copy)]
struct Numbered {
    number: u32,
    flow: Flow,
}

/// Lets flows flow. One that has nothing to flow waits for what it lacks, and is looked at again once that is there.
fn flow_when_woken(alloc: Global, draft: &mut ClassDraft, flows: &[Flow]) -> Result<(), AllocError>
    requires draft { IsDraft draft.old }
    requires there { All (IsThere (length draft.old.registers.items) (length draft.old.sets)) flows.now }
    ensures draft { IfOk result (λ _. IsDraft draft.new) }
    ensures keeps { IfOk result (λ _. Keeps draft.old draft.new) }
    ensures forced { IfOk result (λ _. (c : Classed) → IsForced c draft.old → All (Holds c) flows.now → IsForced c draft.new) }
{
    let (functions, members) = (draft.registers.len(), draft.cells.len());
    let mut waiting = Waiting::new(alloc, flows.len(), functions, members)?;
    // (counted, since it is proved that each function returns; no run comes to the end)
    for _ in 0..u64::MAX {
        let Some(next) = next_flow(flows, &mut waiting) else {
            return Ok(());
        };
        look_at(draft, &mut waiting, next);
    }
    Ok(())
}

/// The flow that is to be looked at next.
fn next_flow(flows: &[Flow], waiting: &mut Waiting) -> Option<Numbered>
    ensures { IfSome result (λ next. Contains flows.now next.flow) }
{
    let number = waiting.pop()?;
    let flow = flow_at(flows, number)?;
    Some(Numbered { number, flow })
}

/// The flow of a number.
fn flow_at(flows: &[Flow], number: u32) -> Option<Flow>
    ensures { result ≡ slice_get flows.now number }
{
    flows.get(number as usize).copied()
}

/// Lets a flow flow, or wait for what it lacks.
fn look_at(draft: &mut ClassDraft, waiting: &mut Waiting, next: Numbered)
    requires draft { IsDraft draft.old }
    requires there { IsThere (length draft.old.registers.items) (length draft.old.sets) next.flow }
    ensures draft { IsDraft draft.new }
    ensures keeps { Keeps draft.old draft.new }
    ensures forced { (c : Classed) → IsForced c draft.old → Holds c next.flow → IsForced c draft.new }
{
    if draft.flow(waiting, next.flow) {
        return;
    }
    let lacking = draft.lacking(next.flow);
    waiting.wait(next.number, lacking);
}

/// Lets each flow flow that has something to flow, from the last to the first, and answers the others, the last first.
fn round(alloc: Global, draft: &mut ClassDraft, flows: Vec<Flow>) -> Result<Vec<Flow>, AllocError>
    requires draft { IsDraft draft.old }
    requires there { All (IsThere (length draft.old.registers.items) (length draft.old.sets)) flows.items }
    ensures draft { IfOk result (λ _. IsDraft draft.new) }
    ensures keeps { IfOk result (λ _. Keeps draft.old draft.new) }
    ensures fewer { IfOk result (λ left. length left.items ≤ length flows.items) }
    ensures flowed { IfOk result (λ left. (f : FlowValue) → Contains flows.items f → HasFlowed draft.new f ⊎ Contains left.items f) }
    ensures among { IfOk result (λ left. (f : FlowValue) → Contains left.items f → Contains flows.items f) }
    ensures idle { IfOk result (λ left. length left.items ≡ length flows.items → (f : FlowValue) → Contains left.items f → IsIdle draft.new f) }
    ensures forced { IfOk result (λ _. (c : Classed) → IsForced c draft.old → All (Holds c) flows.items → IsForced c draft.new) }
{
    let mut left = Vec::with_capacity(alloc, flows.len())?;
    let mut unwatched = Waiting::none(alloc);
    let mut waiting = flows;
    while let Some(flow) = waiting.pop() {
        if !draft.flow(&mut unwatched, flow) {
            left.push(flow)?;
        }
    }
    Ok(left)
}
