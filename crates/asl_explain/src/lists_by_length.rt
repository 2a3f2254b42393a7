//! The lists of a program for each length of paths.
ghost use Rattle.std.specs.Prelude.{◌≡◌, ◌≤◌, ◌+◌, IfOk, IfSome, OnOk, IsTrue, length};
ghost use Rattle.asl_lower.specs.Lowered.{Lowered};
ghost use Rattle.asl_points_to.specs.Classes.{Classed};
ghost use Rattle.asl_emitter.specs.BuiltImage.{AreFitted};
ghost use Rattle.asl_explain.specs.Analysed.{read, IsAnalysed, AreEachFitted, AreFittedAt, AreFittedFrom};
ghost use Rattle.asl_explain.specs.Lengths.{AreNeedsBelow};

use crate::explain_analysis::ExplainAnalysis;
use crate::explained_value::Lists;
use crate::links::copied;
use crate::short_paths::{is_settled, needed_limit};
use asl_backward_flow::{FlowFault, needed};
use asl_code::{Items, Lock};
use asl_emitter::lists;
use std::alloc::{AllocError, Global};

/// The same list.
fn same_list(alloc: Global, list: &[Lock]) -> Result<Items<Lock>, AllocError>
    ensures { IfOk result (λ copy. copy ≡ list.now) }
{
    let mut copies = Vec::with_capacity(alloc, list.len())?;
    for lock in list {
        copies.push(copied(lock)?)?;
    }
    Ok(Items::from_vec(copies))
}

/// The same lists.
fn same_lists(alloc: Global, lists: &[Items<Lock>]) -> Result<Items<Items<Lock>>, AllocError>
    ensures { IfOk result (λ copies. copies ≡ lists.now) }
{
    let mut copies = Vec::with_capacity(alloc, lists.len())?;
    for list in lists {
        copies.push(same_list(alloc, list.as_slice())?)?;
    }
    Ok(Items::from_vec(copies))
}

/// The same lists, or that the same region needs too many locks.
fn same_as(alloc: Global, lists: &Lists) -> Result<Lists, AllocError>
    ensures { IfOk result (λ copy. copy ≡ lists.now) }
{
    match lists {
        Lists::Inferred(lists) => Ok(Lists::Inferred(same_lists(alloc, lists.as_slice())?)),
        Lists::TooManyLocks(region) => Ok(Lists::TooManyLocks(*region)),
    }
}

/// The lists with paths of at most so many operations, and whether they are known to be those with longer ones, too.
#[derive(Drop)]
struct AtLength {
    lists: Lists,
    is_last: bool,
}

/// Whether all that is needed has shorter paths than it may have, and none of more operations than so many: then it is the same with
/// paths of at most so many. All that is needed has paths of fewer operations than the limit, if one is known.
fn is_same(analysis: &ExplainAnalysis, limit: Option<usize>, k_limit: u32) -> bool
    requires below { IfSome limit (AreNeedsBelow (read analysis.now)) }
    requires short { k_limit ≤ 8 }
    ensures { IsTrue result → AreNeedsBelow (read analysis.now) analysis.now.k_limit × AreNeedsBelow (read analysis.now) (k_limit + 1) }
{
    match limit {
        Some(limit) => limit <= analysis.k_limit as usize && limit <= k_limit as usize + 1,
        None => false,
    }
}

/// The lists with paths of at most so many operations: these, which are those of the analysis, where all that is needed is the same.
fn lists_at(
    alloc: Global,
    analysis: &ExplainAnalysis,
    own: &[Items<Lock>],
    limit: Option<usize>,
    k_limit: u32,
) -> Result<AtLength, AllocError>
    requires analysed { IsAnalysed analysis.now }
    requires below { IfSome limit (AreNeedsBelow (read analysis.now)) }
    requires own { AreFitted analysis.now.lowering analysis.now.classes analysis.now.flow (length analysis.now.lowering.sections) own.now }
    requires short { k_limit ≤ 8 }
    ensures lists { IfOk result (λ at. AreFittedAt analysis.now.lowering analysis.now.classes k_limit at.lists) }
    ensures longer { IfOk result (λ at. IsTrue at.is_last → AreFittedFrom analysis.now.lowering analysis.now.classes k_limit at.lists) }
{
    if is_same(analysis, limit, k_limit) {
        return Ok(AtLength {
            lists: Lists::Inferred(same_lists(alloc, own)?),
            is_last: false,
        });
    }
    inferred_at(alloc, analysis, k_limit)
}

/// The lists that are inferred with paths of at most so many operations.
fn inferred_at(
    alloc: Global,
    analysis: &ExplainAnalysis,
    k_limit: u32,
) -> Result<AtLength, AllocError>
    requires analysed { IsAnalysed analysis.now }
    requires short { k_limit ≤ 8 }
    ensures lists { IfOk result (λ at. AreFittedAt analysis.now.lowering analysis.now.classes k_limit at.lists) }
    ensures longer { IfOk result (λ at. IsTrue at.is_last → AreFittedFrom analysis.now.lowering analysis.now.classes k_limit at.lists) }
{
    let (lowering, classes) = (&analysis.lowering, &analysis.classes);
    match needed(alloc, lowering, classes, k_limit) {
        Ok(flow) => {
            let is_last = is_settled(&flow, lowering, classes, k_limit);
            let inferred = lists(alloc, lowering, classes, &flow)?;
            let lists = Lists::Inferred(inferred);
            Ok(AtLength { lists, is_last })
        }
        Err(FlowFault::TooManyLocks(region)) => {
            let lists = Lists::TooManyLocks(region);
            Ok(AtLength {
                lists,
                is_last: false,
            })
        }
        Err(FlowFault::OutOfMemory) => Err(AllocError),
    }
}

/// Adds these lists for each number from the first up to the last, which is left out.
fn add_same(
    alloc: Global,
    lists: &Lists,
    first: u32,
    last: u32,
    by_length: &mut Vec<Lists>,
) -> Result<(), AllocError>
    requires order { first ≤ last }
    requires count { length by_length.old.items ≡ first }
    ensures count { OnOk result (length by_length.new.items ≡ last) }
    ensures each { OnOk result ((l : Lowered) (c : Classed) → AreFittedFrom l c first lists.now → AreEachFitted l c by_length.old.items → AreEachFitted l c by_length.new.items) }
{
    for _ in first..last {
        by_length.push(same_as(alloc, lists)?)?;
    }
    Ok(())
}

/// Adds the lists with paths of at most so many operations, for each number from the first up to the last, which is left out.
fn add_lists(
    alloc: Global,
    analysis: &ExplainAnalysis,
    own: &[Items<Lock>],
    limit: Option<usize>,
    first: u32,
    last: u32,
    by_length: &mut Vec<Lists>,
) -> Result<(), AllocError>
    requires analysed { IsAnalysed analysis.now }
    requires below { IfSome limit (AreNeedsBelow (read analysis.now)) }
    requires own { AreFitted analysis.now.lowering analysis.now.classes analysis.now.flow (length analysis.now.lowering.sections) own.now }
    requires order { first ≤ last }
    requires short { last ≤ 9 }
    requires count { length by_length.old.items ≡ first }
    requires each { AreEachFitted analysis.now.lowering analysis.now.classes by_length.old.items }
    ensures count { OnOk result (length by_length.new.items ≡ last) }
    ensures each { OnOk result (AreEachFitted analysis.now.lowering analysis.now.classes by_length.new.items) }
{
    for k_limit in first..last {
        let AtLength { lists, is_last } = lists_at(alloc, analysis, own, limit, k_limit)?;
        if is_last {
            add_same(alloc, &lists, k_limit, last, by_length)?;
            return Ok(());
        }
        by_length.push(lists)?;
    }
    Ok(())
}

/// The lists with paths of at most 0 to 8 operations; those of as many as the analysis has are at hand.
pub(crate) fn by_length(
    alloc: Global,
    analysis: &ExplainAnalysis,
    own: &[Items<Lock>],
) -> Result<Items<Lists>, AllocError>
    requires analysed { IsAnalysed analysis.now }
    requires own { AreFitted analysis.now.lowering analysis.now.classes analysis.now.flow (length analysis.now.lowering.sections) own.now }
    ensures count { IfOk result (λ lists. length lists ≡ 9) }
    ensures each { IfOk result (AreEachFitted analysis.now.lowering analysis.now.classes) }
{
    let mut by_length = Vec::new(alloc);
    let k_limit = analysis.k_limit;
    let limit = needed_limit(analysis);
    add_lists(alloc, analysis, own, limit, 0, k_limit, &mut by_length)?;
    by_length.push(Lists::Inferred(same_lists(alloc, own)?))?;
    add_lists(alloc, analysis, own, limit, k_limit + 1, 9, &mut by_length)?;
    Ok(Items::from_vec(by_length))
}
