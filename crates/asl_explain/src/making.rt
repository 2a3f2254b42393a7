//! Why the lists of a program are as they are.
ghost use Rattle.std.specs.Prelude.{◌≡◌, ◌↔◌, suc, IfOk, OnOk, IsTrue, length};
ghost use Rattle.asl_code.specs.declared.lock.Lock.{Lock as AnyLock};
ghost use Rattle.asl_lower.specs.Regions.{Inside};
ghost use Rattle.asl_lock_expr.specs.Links.{IsOne};
ghost use Rattle.asl_lock_expr.specs.Order.{AreInOrder};
ghost use Rattle.asl_soundness.specs.Covering.{CoversLock};
ghost use Rattle.asl_explain.specs.Chains.{Needs};
ghost use Rattle.asl_explain.specs.Explained.{AreChains, AreNeeds, IsListed, IsOneOf, locks_of};
ghost use Rattle.asl_explain.specs.Analysed.{read, IsAnalysed, AreListed, AreSections, IsMade};
ghost use Rattle.asl_explain.specs.Known.{AreKnown};

use crate::confirm::is_chain;
use crate::ended::ended_of_sections;
use crate::explain_analysis::ExplainAnalysis;
use crate::explained_value::{Chain, Explanation, Listed, Need};
use crate::known::Known;
use crate::links::copied;
use crate::lists_by_length::by_length;
use crate::search::Searcher;
use asl_backward_flow::Region;
use asl_code::{Items, Lock};
use asl_emitter::{covers, lists, suffices_for};
use asl_lower::Section;
use asl_points_to::Classes;
use std::alloc::{AllocError, Global};

/// Those of the chains that come to a lock of the section after an instruction at a pc: all, as far as a search is right.
fn confirmed(
    alloc: Global,
    analysis: &ExplainAnalysis,
    section: u16,
    pc: u16,
    lock: &Lock,
    found: Vec<Chain>,
    known: &mut Known,
) -> Result<Items<Chain>, AllocError>
    requires analysed { IsAnalysed analysis.now }
    requires known { AreKnown (read analysis.now) known.old }
    ensures known { OnOk result (AreKnown (read analysis.now) known.new) }
    ensures chains { IfOk result (AreChains (read analysis.now) (Inside section) (suc pc) lock.now) }
{
    let mut chains = Vec::new(alloc);
    for chain in found {
        let steps = chain.steps.as_slice();
        if is_chain(alloc, analysis, known, section, pc, lock, steps)? {
            chains.push(chain)?;
        }
    }
    Ok(Items::from_vec(chains))
}

/// Whether the first lock covers the second in a function.
fn covers_lock(classes: &Classes, function: u16, lock: &Lock, other: &Lock) -> bool
    ensures { IsTrue result ↔ CoversLock classes.now function lock.now other.now }
{
    match lock {
        Lock::Root(effect) => covers(*effect, other.effect()),
        _ => suffices_for(classes, function, lock, other),
    }
}

/// Those of the locks that a lock covers, in their order.
fn under(
    alloc: Global,
    classes: &Classes,
    function: u16,
    lock: &Lock,
    all: &[Lock],
) -> Result<Vec<Lock>, AllocError>
    ensures locks { IfOk result (λ v. (n : AnyLock) → IsOne v.items n ↔ (IsOne all.now n × CoversLock classes.now function lock.now n)) }
    ensures order { IfOk result (λ v. AreInOrder all.now → AreInOrder v.items) }
{
    let mut under = Vec::new(alloc);
    for other in all {
        if covers_lock(classes, function, lock, other) {
            under.push(copied(other)?)?;
        }
    }
    Ok(under)
}

/// A lock under one of the section's list, with the chains that come to it at the section's start.
fn find_need(
    alloc: Global,
    analysis: &ExplainAnalysis,
    searcher: &mut Searcher,
    known: &mut Known,
    number: u16,
    section: Section,
    listed: &Lock,
    lock: &Lock,
) -> Result<Need, AllocError>
    requires analysed { IsAnalysed analysis.now }
    requires known { AreKnown (read analysis.now) known.old }
    ensures known { OnOk result (AreKnown (read analysis.now) known.new) }
    ensures lock { IfOk result (λ d. d.lock ≡ lock.now) }
    ensures chains { IfOk result (λ d. AreChains (read analysis.now) (Inside number) (suc section.acquire) lock.now d.chains) }
{
    let found = searcher.chains(analysis, number, section, listed, lock)?;
    Ok(Need {
        lock: copied(lock)?,
        chains: confirmed(alloc, analysis, number, section.acquire, lock, found, known)?,
    })
}

/// The locks under one of the section's list, each with the chains that come to it at the section's start.
fn needs_of(
    alloc: Global,
    analysis: &ExplainAnalysis,
    searcher: &mut Searcher,
    known: &mut Known,
    number: u16,
    section: Section,
    listed: &Lock,
    locks: &[Lock],
) -> Result<Items<Need>, AllocError>
    requires analysed { IsAnalysed analysis.now }
    requires known { AreKnown (read analysis.now) known.old }
    requires needed { (n : AnyLock) → IsOne locks.now n → Needs (read analysis.now) (Inside number) (suc section.acquire) n }
    ensures known { OnOk result (AreKnown (read analysis.now) known.new) }
    ensures needs { IfOk result (AreNeeds (read analysis.now) number section) }
    ensures locks { IfOk result (λ needs. (n : AnyLock) → IsOneOf needs n ↔ IsOne locks.now n) }
    ensures same { IfOk result (λ needs. locks_of needs ≡ locks.now) }
{
    let mut needs = Vec::with_capacity(alloc, locks.len())?;
    searcher.begin_needs()?;
    for lock in locks {
        needs.push(find_need(
            alloc, analysis, searcher, known, number, section, listed, lock,
        )?)?;
    }
    Ok(Items::from_vec(needs))
}

/// A lock of the list of a section, which needs all these at its start.
fn list_lock(
    alloc: Global,
    analysis: &ExplainAnalysis,
    searcher: &mut Searcher,
    known: &mut Known,
    number: u16,
    section: Section,
    all: &[Lock],
    lock: &Lock,
) -> Result<Listed, AllocError>
    requires analysed { IsAnalysed analysis.now }
    requires all { (n : AnyLock) → IsOne all.now n ↔ Needs (read analysis.now) (Inside number) (suc section.acquire) n }
    requires order { AreInOrder all.now }
    requires known { AreKnown (read analysis.now) known.old }
    ensures known { OnOk result (AreKnown (read analysis.now) known.new) }
    ensures lock { IfOk result (λ d. d.lock ≡ lock.now) }
    ensures listed { IfOk result (IsListed (read analysis.now) number section) }
{
    let under = under(alloc, &analysis.classes, section.function, lock, all)?;
    Ok(Listed {
        lock: copied(lock)?,
        needs: needs_of(
            alloc, analysis, searcher, known, number, section, lock, &under,
        )?,
    })
}

/// The locks of the list of a section, which needs all these at its start.
fn all_listed(
    alloc: Global,
    analysis: &ExplainAnalysis,
    searcher: &mut Searcher,
    known: &mut Known,
    number: u16,
    section: Section,
    all: &[Lock],
    list: &[Lock],
) -> Result<Items<Listed>, AllocError>
    requires analysed { IsAnalysed analysis.now }
    requires all { (n : AnyLock) → IsOne all.now n ↔ Needs (read analysis.now) (Inside number) (suc section.acquire) n }
    requires order { AreInOrder all.now }
    requires known { AreKnown (read analysis.now) known.old }
    ensures known { OnOk result (AreKnown (read analysis.now) known.new) }
    ensures listed { IfOk result (AreListed (read analysis.now) number section list.now) }
{
    let mut listed_locks = Vec::new(alloc);
    for lock in list {
        listed_locks.push(list_lock(
            alloc, analysis, searcher, known, number, section, all, lock,
        )?)?;
    }
    Ok(Items::from_vec(listed_locks))
}

/// The locks of the list of a section.
pub(crate) fn explained_section(
    alloc: Global,
    analysis: &ExplainAnalysis,
    searcher: &mut Searcher,
    known: &mut Known,
    number: u16,
    section: Section,
    list: &[Lock],
) -> Result<Items<Listed>, AllocError>
    requires analysed { IsAnalysed analysis.now }
    requires known { AreKnown (read analysis.now) known.old }
    ensures known { OnOk result (AreKnown (read analysis.now) known.new) }
    ensures listed { IfOk result (AreListed (read analysis.now) number section list.now) }
{
    searcher.begin_section();
    let start = u32::from(section.acquire) + 1;
    let all = analysis.flow.at(alloc, Region::Section(number), start)?;
    all_listed(
        alloc, analysis, searcher, known, number, section, &all, list,
    )
}

/// For each section the locks of its list.
fn explained_sections(
    alloc: Global,
    analysis: &ExplainAnalysis,
    searcher: &mut Searcher,
    known: &mut Known,
    lists: &[Items<Lock>],
) -> Result<Items<Items<Listed>>, AllocError>
    requires analysed { IsAnalysed analysis.now }
    requires count { length lists.now ≡ length analysis.now.lowering.sections }
    requires known { AreKnown (read analysis.now) known.old }
    ensures known { OnOk result (AreKnown (read analysis.now) known.new) }
    ensures sections { IfOk result (AreSections (read analysis.now) lists.now (length analysis.now.lowering.sections)) }
{
    let mut sections = Vec::new(alloc);
    for (number, section) in analysis.lowering.sections().iter().enumerate() {
        let list = lists[number].as_slice();
        let number = number as u16;
        sections.push(explained_section(
            alloc, analysis, searcher, known, number, *section, list,
        )?)?;
    }
    Ok(Items::from_vec(sections))
}

/// Why the lists of a program are as they are, with all chains.
pub fn explanation_of(alloc: Global, analysis: &ExplainAnalysis) -> Result<Explanation, AllocError>
    requires { IsAnalysed analysis.now }
    ensures { IfOk result (IsMade analysis.now) }
{
    let own = lists(alloc, &analysis.lowering, &analysis.classes, &analysis.flow)?;
    let mut searcher = Searcher::new(alloc, analysis)?;
    let mut known = Known::new(alloc);
    Ok(Explanation {
        sections: explained_sections(alloc, analysis, &mut searcher, &mut known, own.as_slice())?,
        ended: ended_of_sections(alloc, analysis, &mut searcher)?,
        by_length: by_length(alloc, analysis, own.as_slice())?,
    })
}
