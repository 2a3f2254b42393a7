//! What told chains rest on: why two steps, one after the other, come to the same cells.
ghost use Rattle.std.specs.Prelude.{◌≡◌, ◌<◌, ◌+◌, List, true, false, IfOk, length, slice_get};
ghost use Rattle.asl_class_reasons.specs.Reasons.{Joined, AreReasonsOf};
ghost use Rattle.asl_class_reasons.specs.Following.{AreFollowing};
ghost use Rattle.asl_class_text.specs.declared.told.ToldPair.{ToldPair as PairValue};
ghost use Rattle.asl_class_text.specs.Grounds.{beside, address_at, address_in, address_by, address_of, is_cells, IsOf, Tells, most_grounds, AreGrounds};
ghost use Rattle.asl_class_text.specs.Kinds.{end_of};
ghost use Rattle.asl_class_text.specs.Made.{IsStraightAnywhere, AreStraight, AreStraightGrounds, IsChainAt, IsMet, IsGone, ArePairsGone, AreGroundsGone};

use crate::facts::Facts;
use crate::kinds::end_of;
use crate::making::chain_of;
use crate::phrases::owner;
use crate::told::{ToldGround, ToldGrounds, ToldPair, ToldStep};
use asl_class_reasons::{Cause, Following, Place, Reasons};
use asl_code::Instr;
use std::alloc::{AllocError, Global};

/// So many grounds of a class are told where not all are asked for, and so many where all are.
const MOST_USUAL: usize = 8;

const MOST: usize = 64;

/// How many grounds of a class are told at most.
pub(crate) fn most_grounds(all: bool) -> usize
    ensures { result ≡ most_grounds all }
{
    if all { MOST } else { MOST_USUAL }
}

/// A register of the function of another.
fn beside(place: Place, register: u8) -> Place
    ensures { result ≡ beside place register }
{
    match place {
        Place::Register { function, .. } => Place::Register { function, register },
        _ => place,
    }
}

/// The register with the address by which a load or a store between these places comes to cells.
fn address_at(instr: Instr, from: Place, into: Place) -> Place
    ensures { result ≡ address_at instr from into }
{
    match instr {
        Instr::Load { address, .. } => beside(into, address),
        Instr::Store { address, .. } => beside(from, address),
        _ => from,
    }
}

/// So by the instruction at a pc.
fn address_in(facts: &Facts<'_>, pc: u16, from: Place, into: Place) -> Place
    ensures { result ≡ address_in (slice_get facts.now.lowering.code pc) from into }
{
    match facts.lowering.code().get(usize::from(pc)) {
        Some(instr) => address_at(*instr, from, into),
        None => from,
    }
}

/// By what a step comes to cells: a register with their address, or the member from whose cells it leads.
fn address_of(facts: &Facts<'_>, told: ToldStep) -> Place
    ensures { result ≡ address_of facts.now.lowering told }
{
    match told.step.cause {
        Cause::Instruction(pc) => address_in(facts, pc, told.step.from, told.step.into),
        Cause::SameClass => Place::Member(owner(told.step.from)),
    }
}

/// Whether a place is the cells of a class.
fn is_cells(place: Place) -> bool
    ensures { result ≡ is_cells place }
{
    match place {
        Place::Cells(_) => true,
        Place::Member(_) => false,
        Place::Register { .. } => false,
    }
}

/// Whether a ground is of these two places, in either order.
fn is_of(ground: &ToldGround, one: Place, other: Place) -> bool
    ensures yes { result ≡ true → IsOf ground.now one other }
    ensures no { result ≡ false → ¬ IsOf ground.now one other }
{
    if ground.one == one && ground.other == other {
        return true;
    }
    ground.one == other && ground.other == one
}

/// Whether some ground of these is of the two places.
fn is_told(grounds: &[ToldGround], one: Place, other: Place) -> bool
    ensures yes { result ≡ true → Tells grounds.now one other }
    ensures no { result ≡ false → ¬ Tells grounds.now one other }
{
    for ground in grounds {
        if is_of(ground, one, other) {
            return true;
        }
    }
    false
}

/// Adds why two places point to one class, where two steps meet by them, unless that is told, and as far as there is room.
fn push_ground(
    alloc: Global,
    facts: &Facts<'_>,
    reasons: &Reasons,
    following: &Following,
    most: usize,
    before: ToldStep,
    after: ToldStep,
    grounds: &mut ToldGrounds,
) -> Result<(), AllocError>
    requires reasons { AreReasonsOf facts.now.lowering reasons.now }
    requires following { AreFollowing facts.now.lowering reasons.now.steps following.now }
    requires joined { is_cells (end_of before) ≡ true → Joined reasons.now.steps (address_of facts.now.lowering before) (address_of facts.now.lowering after) }
    ensures { IfOk result (λ _. IsMet facts.now.lowering reasons.now.steps most before after grounds.old grounds.new) }
{
    if !is_cells(end_of(before)) {
        return Ok(());
    }
    let one = address_of(facts, before);
    let other = address_of(facts, after);
    if one == other || is_told(&grounds.items, one, other) {
        return Ok(());
    }
    if grounds.items.len() >= most {
        grounds.more = true;
        return Ok(());
    }
    let chain = chain_of(alloc, facts, reasons, following, one, other)?;
    grounds.items.push(ToldGround { one, other, chain })?;
    Ok(())
}

/// Adds what a chain rests on.
fn push_grounds(
    alloc: Global,
    facts: &Facts<'_>,
    reasons: &Reasons,
    following: &Following,
    most: usize,
    chain: &[ToldStep],
    grounds: &mut ToldGrounds,
) -> Result<(), AllocError>
    requires reasons { AreReasonsOf facts.now.lowering reasons.now }
    requires following { AreFollowing facts.now.lowering reasons.now.steps following.now }
    requires straight { IsStraightAnywhere facts.now.lowering reasons.now.steps chain.now }
    ensures { IfOk result (λ _. IsGone facts.now.lowering reasons.now.steps most chain.now (length chain.now) grounds.old grounds.new) }
{
    for number in 1..chain.len() {
        let before = chain[number - 1];
        let after = chain[number];
        push_ground(
            alloc, facts, reasons, following, most, before, after, grounds,
        )?;
    }
    Ok(())
}

/// What the chains of these pairs rest on.
fn pairs_grounds(
    alloc: Global,
    facts: &Facts<'_>,
    reasons: &Reasons,
    following: &Following,
    most: usize,
    pairs: &[ToldPair],
) -> Result<ToldGrounds, AllocError>
    requires reasons { AreReasonsOf facts.now.lowering reasons.now }
    requires following { AreFollowing facts.now.lowering reasons.now.steps following.now }
    requires straight { AreStraight facts.now.lowering reasons.now.steps pairs.now }
    ensures { IfOk result (ArePairsGone facts.now.lowering reasons.now.steps most pairs.now (length pairs.now)) }
{
    let items = Vec::new(alloc);
    let mut grounds = ToldGrounds { items, more: false };
    for pair in pairs {
        push_grounds(
            alloc,
            facts,
            reasons,
            following,
            most,
            &pair.chain,
            &mut grounds,
        )?;
    }
    Ok(grounds)
}

/// The steps of a ground's chain.
fn steps_of(
    alloc: Global,
    grounds: &[ToldGround],
    number: usize,
) -> Result<Vec<ToldStep>, AllocError>
    requires { number < length grounds.now }
    ensures { IfOk result (λ v. IsChainAt grounds.now number v.items) }
{
    let mut steps = Vec::new(alloc);
    steps.extend_from_slice(&grounds[number].chain)?;
    Ok(steps)
}

/// Adds what the chain of the ground of a number rests on, if there is one.
fn push_own(
    alloc: Global,
    facts: &Facts<'_>,
    reasons: &Reasons,
    following: &Following,
    most: usize,
    number: usize,
    grounds: &mut ToldGrounds,
) -> Result<(), AllocError>
    requires reasons { AreReasonsOf facts.now.lowering reasons.now }
    requires following { AreFollowing facts.now.lowering reasons.now.steps following.now }
    requires straight { AreStraightGrounds facts.now.lowering reasons.now.steps grounds.old.items.items }
    ensures { (ps : List PairValue) → AreGroundsGone facts.now.lowering reasons.now.steps most ps number grounds.old → IfOk result (λ _. AreGroundsGone facts.now.lowering reasons.now.steps most ps (number + 1) grounds.new) }
{
    if number < grounds.items.len() {
        let chain = steps_of(alloc, &grounds.items, number)?;
        push_grounds(alloc, facts, reasons, following, most, &chain, grounds)?;
    }
    Ok(())
}

/// What the chains of these pairs rest on, and what that rests on in turn.
pub(crate) fn grounds_of(
    alloc: Global,
    facts: &Facts<'_>,
    reasons: &Reasons,
    following: &Following,
    most: usize,
    pairs: &[ToldPair],
) -> Result<ToldGrounds, AllocError>
    requires reasons { AreReasonsOf facts.now.lowering reasons.now }
    requires following { AreFollowing facts.now.lowering reasons.now.steps following.now }
    requires straight { AreStraight facts.now.lowering reasons.now.steps pairs.now }
    ensures { IfOk result (AreGrounds facts.now.lowering reasons.now.steps most pairs.now) }
{
    let mut grounds = pairs_grounds(alloc, facts, reasons, following, most, pairs)?;
    for number in 0..most {
        push_own(alloc, facts, reasons, following, most, number, &mut grounds)?;
    }
    Ok(grounds)
}
