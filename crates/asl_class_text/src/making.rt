//! What is told of the classes of a program.
ghost use Rattle.std.specs.Prelude.{◌≡◌, ◌≢◌, ◌<◌, ◌≤◌, ◌^◌, ◌++◌, length, IfOk, OnOk};
ghost use Rattle.asl_class_reasons.specs.declared.place.Place.TheVariants.{Member};
ghost use Rattle.asl_class_reasons.specs.Reasons.{IsChain, Joined, AreReasonsOf};
ghost use Rattle.asl_class_reasons.specs.Following.{AreFollowing};
ghost use Rattle.asl_class_text.specs.Chains.{IsToldChain, IsStraightChain};
ghost use Rattle.asl_class_text.specs.Texts.{shown};
ghost use Rattle.asl_class_text.specs.Classes.{one_of, members_of, IsOther, AreOthers, ArePairs, IsToldClass, AreToldClasses};
ghost use Rattle.asl_class_text.specs.Made.{AreJoined, AreAllJoined, AreClassesJoined};

use crate::chain::told_chain;
use crate::facts::Facts;
use crate::grounds::{grounds_of, most_grounds};
use crate::parting::{all_trials, class_trials, parting};
use crate::told::{ToldClass, ToldPair, ToldStep};
use asl_class_reasons::{Following, Place, Reasons, StraightChain};
use std::alloc::{AllocError, Global};

/// So many members are told where not all are; where there are more, one less than that and how many are left.
const MOST_TOLD: usize = 8;

/// How many of so many members are told.
pub(crate) fn shown(all: bool, count: usize) -> usize
    ensures count { result ≡ shown all count }
    ensures low { result ≤ count }
{
    if all || count <= MOST_TOLD {
        count
    } else {
        MOST_TOLD - 1
    }
}

/// Adds a member, if it is of the class.
fn push_if(members: &mut Vec<u32>, class: u16, member: usize, of: u16) -> Result<(), AllocError>
    requires { member < 2 ^ 32 }
    ensures { OnOk result (members.new.items ≡ members.old.items ++ one_of class member of) }
{
    if of == class {
        members.push(member as u32)?;
    }
    Ok(())
}

/// The members of a class, by the class of each.
fn members_of(alloc: Global, classes: &[u16], class: u16) -> Result<Vec<u32>, AllocError>
    requires { length classes.now < 2 ^ 20 }
    ensures { IfOk result (λ v. v.items ≡ members_of classes.now class) }
{
    let mut members = Vec::new(alloc);
    for (member, of) in classes.iter().enumerate() {
        push_if(&mut members, class, member, *of)?;
    }
    Ok(members)
}

/// The steps of a straight chain from one place to another.
fn steps_of(
    alloc: Global,
    straight: &StraightChain,
    from: Place,
    into: Place,
) -> Result<Vec<ToldStep>, AllocError>
    requires { IsChain straight.now.steps.items from straight.now.links.items into }
    ensures { IfOk result (λ chain. IsToldChain straight.now.steps.items from chain.items into) }
{
    match told_chain(alloc, &straight.steps, from, &straight.links, into)? {
        Some(chain) => Ok(chain),
        None => unreachable!(),
    }
}

/// A chain from one place to another that is no circle.
pub(crate) fn chain_of(
    alloc: Global,
    facts: &Facts<'_>,
    reasons: &Reasons,
    following: &Following,
    from: Place,
    into: Place,
) -> Result<Vec<ToldStep>, AllocError>
    requires reasons { AreReasonsOf facts.now.lowering reasons.now }
    requires following { AreFollowing facts.now.lowering reasons.now.steps following.now }
    requires two { from ≢ into }
    requires joined { Joined reasons.now.steps from into }
    ensures { IfOk result (λ chain. IsStraightChain facts.now.lowering reasons.now.steps from into chain.items) }
{
    let Some(straight) = reasons.straight_chain(alloc, &facts.lowering, following, from, into)?
    else {
        unreachable!()
    };
    steps_of(alloc, &straight, from, into)
}

/// Why a member shares the class of the first.
fn pair_of(
    alloc: Global,
    facts: &Facts<'_>,
    reasons: &Reasons,
    following: &Following,
    trials: &mut u32,
    first: u32,
    second: u32,
) -> Result<ToldPair, AllocError>
    requires reasons { AreReasonsOf facts.now.lowering reasons.now }
    requires following { AreFollowing facts.now.lowering reasons.now.steps following.now }
    requires order { first < second }
    requires joined { Joined reasons.now.steps (Member first) (Member second) }
    ensures { IfOk result (IsOther facts.now.lowering reasons.now.steps first second) }
{
    let from = Place::Member(first);
    let into = Place::Member(second);
    let chain = chain_of(alloc, facts, reasons, following, from, into)?;
    let without = parting(alloc, facts, trials, first, second, &chain)?;
    Ok(ToldPair {
        first,
        second,
        chain,
        without,
    })
}

/// Why other members share the class of the first.
fn pairs_of(
    alloc: Global,
    facts: &Facts<'_>,
    reasons: &Reasons,
    following: &Following,
    trials: &mut u32,
    first: u32,
    others: &[u32],
) -> Result<Vec<ToldPair>, AllocError>
    requires reasons { AreReasonsOf facts.now.lowering reasons.now }
    requires following { AreFollowing facts.now.lowering reasons.now.steps following.now }
    requires joined { AreJoined reasons.now.steps first others.now }
    ensures { IfOk result (λ v. AreOthers facts.now.lowering reasons.now.steps first others.now (length others.now) v.items) }
{
    let mut pairs = Vec::new(alloc);
    for second in others {
        let pair = pair_of(alloc, facts, reasons, following, trials, first, *second)?;
        pairs.push(pair)?;
    }
    Ok(pairs)
}

/// Why these members share a class.
fn told_pairs(
    alloc: Global,
    facts: &Facts<'_>,
    reasons: &Reasons,
    following: &Following,
    trials: &mut u32,
    told: &[u32],
) -> Result<Vec<ToldPair>, AllocError>
    requires reasons { AreReasonsOf facts.now.lowering reasons.now }
    requires following { AreFollowing facts.now.lowering reasons.now.steps following.now }
    requires joined { AreAllJoined reasons.now.steps told.now }
    ensures { IfOk result (λ v. ArePairs facts.now.lowering reasons.now.steps told.now v.items) }
{
    match told.split_first() {
        Some((first, others)) if others.len() > 0 => pairs_of(
            alloc, facts, reasons, following, trials, *first, others,
        ),
        _ => Ok(Vec::new(alloc)),
    }
}

/// What is told of a class.
#[tactic(auto, using(crate::proofs::Members::told_joined))]
pub(crate) fn told_class(
    alloc: Global,
    facts: &Facts<'_>,
    reasons: &Reasons,
    following: &Following,
    trials: &mut u32,
    all: bool,
    class: u16,
) -> Result<ToldClass, AllocError>
    requires few { length facts.now.classes.items < 2 ^ 20 }
    requires reasons { AreReasonsOf facts.now.lowering reasons.now }
    requires following { AreFollowing facts.now.lowering reasons.now.steps following.now }
    requires joined { AreClassesJoined reasons.now.steps facts.now.classes.items }
    ensures { IfOk result (IsToldClass facts.now.lowering facts.now.classes.items reasons.now.steps all class) }
{
    let members = members_of(alloc, &facts.classes, class)?;
    let told = &members[..shown(all, members.len())];
    let pairs = told_pairs(alloc, facts, reasons, following, trials, told)?;
    let grounds = grounds_of(alloc, facts, reasons, following, most_grounds(all), &pairs)?;
    Ok(ToldClass {
        class,
        members,
        pairs,
        grounds,
    })
}

/// What is told of all classes.
pub(crate) fn told_classes(
    alloc: Global,
    facts: &Facts<'_>,
    reasons: &Reasons,
    following: &Following,
    all: bool,
) -> Result<Vec<ToldClass>, AllocError>
    requires few { length facts.now.classes.items < 2 ^ 20 }
    requires reasons { AreReasonsOf facts.now.lowering reasons.now }
    requires following { AreFollowing facts.now.lowering reasons.now.steps following.now }
    requires joined { AreClassesJoined reasons.now.steps facts.now.classes.items }
    ensures { IfOk result (λ v. AreToldClasses facts.now.lowering facts.now.classes.items facts.now.count reasons.now.steps all v.items) }
{
    let mut classes = Vec::new(alloc);
    let mut left = all_trials(facts);
    for class in 0..facts.count {
        let given = class_trials(left);
        let mut trials = given;
        classes.push(told_class(alloc, facts, reasons, following, &mut trials, all, class)?)?;
        left = left.saturating_sub(given.saturating_sub(trials));
    }
    Ok(classes)
}
