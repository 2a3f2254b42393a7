//! The needs that end at a `new`, since the object is new there.
ghost use Rattle.std.specs.Prelude.{◌≡◌, ◌↔◌, ℕ, [], Some, IfOk, IfSome, OnOk, IsTrue, slice_get};
ghost use Rattle.asl_lock_expr.specs.Order.{AreInOrder};
ghost use Rattle.asl_explain.specs.Chains.{IsDropped};
ghost use Rattle.asl_explain.specs.Explained.{IsEnding, AreEnded, AreAllEnded};
ghost use Rattle.asl_explain.specs.Analysed.{read, IsAnalysed, IsMadeAt, HasAdded, AreEndedOf};
ghost use Rattle.asl_explain.specs.Endings.{Has, IsPlaceOf, IsLockAt, EndsSomewhere};

use crate::confirm::{is_ending, is_on, made_at, made_inside};
use crate::explain_analysis::ExplainAnalysis;
use crate::explained_value::{Ended, Ending};
use crate::links::copied;
use crate::search::Searcher;
use asl_backward_flow::Region;
use asl_code::{Items, Lock};
use asl_lock_expr::add_in_order;
use asl_lower::Section;
use std::alloc::{AllocError, Global};

/// The pcs of the `new` of a section.
fn news_of(
    alloc: Global,
    analysis: &ExplainAnalysis,
    section: Section,
) -> Result<Vec<u16>, AllocError>
    ensures { IfOk result (λ v. (pc to : ℕ) → IsMadeAt (read analysis.now) section pc to → Has pc v.items) }
{
    let mut news = Vec::new(alloc);
    for pc in section.acquire..section.release {
        if made_at(analysis, pc).is_some() {
            news.push(pc)?;
        }
    }
    Ok(news)
}

/// A section, by its number and its place in the flow.
#[derive(Clone, Copy)]
struct Place {
    number: u16,
    section: Section,
    place: usize,
}

/// Whether a lock of a section, which the flow has by this number, ends at the pc: a `new` stands there that sets the register on which the
/// lock begins, and the section needs the lock after it.
fn ends_at(analysis: &ExplainAnalysis, at: Place, pc: u16, which: usize, lock: &Lock) -> bool
    requires analysed { IsAnalysed analysis.now }
    requires there { slice_get analysis.now.lowering.sections at.number ≡ Some at.section }
    requires placed { IsLockAt analysis.now at.number at.place which lock.now }
    ensures { IsTrue result ↔ IsDropped (read analysis.now) at.number pc lock.now }
{
    let Some(to) = made_inside(analysis, at.section, pc) else {
        return false;
    };
    is_on(to, lock) && analysis.flow.needs(at.place, u32::from(pc) + 1, which)
}

/// Whether it ends at one of these pcs, which has each `new` of the section.
fn ends(analysis: &ExplainAnalysis, at: Place, news: &[u16], which: usize, lock: &Lock) -> bool
    requires analysed { IsAnalysed analysis.now }
    requires there { slice_get analysis.now.lowering.sections at.number ≡ Some at.section }
    requires placed { IsLockAt analysis.now at.number at.place which lock.now }
    requires news { (pc to : ℕ) → IsMadeAt (read analysis.now) at.section pc to → Has pc news.now }
    ensures { IsTrue result ↔ EndsSomewhere (read analysis.now) at.number lock.now }
{
    for pc in news {
        if ends_at(analysis, at, *pc, which, lock) {
            return true;
        }
    }
    false
}

/// Adds a lock of a section, if it ends at a `new` of it.
fn add_if_ended(
    analysis: &ExplainAnalysis,
    at: Place,
    news: &[u16],
    which: usize,
    lock: &Lock,
    locks: &mut Vec<Lock>,
) -> Result<(), AllocError>
    requires analysed { IsAnalysed analysis.now }
    requires there { slice_get analysis.now.lowering.sections at.number ≡ Some at.section }
    requires placed { IsLockAt analysis.now at.number at.place which lock.now }
    requires news { (pc to : ℕ) → IsMadeAt (read analysis.now) at.section pc to → Has pc news.now }
    requires order { AreInOrder locks.old.items }
    ensures { OnOk result (HasAdded (λ m. (lock.now ≡ m) × EndsSomewhere (read analysis.now) at.number m) locks.old.items locks.new.items) }
{
    if !ends(analysis, at, news, which, lock) {
        return Ok(());
    }
    add_in_order(locks, copied(lock)?)?;
    Ok(())
}

/// The locks of a section at a place that end at a `new` of it, each once, in order.
fn ended_at(alloc: Global, analysis: &ExplainAnalysis, at: Place) -> Result<Vec<Lock>, AllocError>
    requires analysed { IsAnalysed analysis.now }
    requires there { slice_get analysis.now.lowering.sections at.number ≡ Some at.section }
    requires placed { IsPlaceOf analysis.now at.number at.place }
    ensures { IfOk result (λ v. HasAdded (EndsSomewhere (read analysis.now) at.number) [] v.items) }
{
    let news = news_of(alloc, analysis, at.section)?;
    let mut locks = Vec::new(alloc);
    let all = analysis.flow.locks(at.place);
    for (which, lock) in all.iter().enumerate() {
        add_if_ended(analysis, at, &news, which, lock, &mut locks)?;
    }
    Ok(locks)
}

/// The locks that a section needs after a `new` of it that sets the register on which they begin, each once, in order.
pub(crate) fn ended_locks(
    alloc: Global,
    analysis: &ExplainAnalysis,
    number: u16,
    section: Section,
) -> Result<Vec<Lock>, AllocError>
    requires analysed { IsAnalysed analysis.now }
    requires there { slice_get analysis.now.lowering.sections number ≡ Some section }
    ensures { IfOk result (λ v. HasAdded (EndsSomewhere (read analysis.now) number) [] v.items) }
{
    match analysis.flow.place(Region::Section(number)) {
        Some(place) => ended_at(
            alloc,
            analysis,
            Place {
                number,
                section,
                place,
            },
        ),
        None => Ok(Vec::new(alloc)),
    }
}

/// The `new` and the chain that a search found, if the chain comes to the lock after the `new`, and the lock ends there.
fn confirmed_ending(
    alloc: Global,
    analysis: &ExplainAnalysis,
    number: u16,
    section: Section,
    lock: &Lock,
    found: Option<Ending>,
) -> Result<Option<Ending>, AllocError>
    requires analysed { IsAnalysed analysis.now }
    requires there { slice_get analysis.now.lowering.sections number ≡ Some section }
    ensures { IfOk result (λ ending. IfSome ending (IsEnding (read analysis.now) number lock.now)) }
{
    let Some(ending) = found else {
        return Ok(None);
    };
    if is_ending(alloc, analysis, number, section, lock, &ending)? {
        Ok(Some(ending))
    } else {
        Ok(None)
    }
}

/// A lock that the section of a number needs after a `new`, with the cheapest chain that comes to it there, if a search finds one.
fn find_ended(
    alloc: Global,
    analysis: &ExplainAnalysis,
    searcher: &mut Searcher,
    number: u16,
    section: Section,
    news: &[u16],
    lock: &Lock,
) -> Result<Ended, AllocError>
    requires analysed { IsAnalysed analysis.now }
    requires there { slice_get analysis.now.lowering.sections number ≡ Some section }
    ensures lock { IfOk result (λ e. e.lock ≡ lock.now) }
    ensures told { IfOk result (λ e. IfSome e.ending (IsEnding (read analysis.now) number e.lock)) }
{
    let found = searcher.ending(analysis, number, section, news, lock)?;
    let ending = confirmed_ending(alloc, analysis, number, section, lock, found)?;
    Ok(Ended {
        lock: copied(lock)?,
        ending,
    })
}

/// These locks, each with the cheapest chain that comes to it after a `new` of the section of a number, if a search finds one.
fn all_ended(
    alloc: Global,
    analysis: &ExplainAnalysis,
    searcher: &mut Searcher,
    number: u16,
    section: Section,
    locks: &[Lock],
) -> Result<Items<Ended>, AllocError>
    requires analysed { IsAnalysed analysis.now }
    requires there { slice_get analysis.now.lowering.sections number ≡ Some section }
    ensures { IfOk result (AreEndedOf (read analysis.now) number locks.now) }
{
    let news = news_of(alloc, analysis, section)?;
    let mut ended = Vec::new(alloc);
    for lock in locks {
        ended.push(find_ended(alloc, analysis, searcher, number, section, &news, lock)?)?;
    }
    Ok(Items::from_vec(ended))
}

/// The locks that end at a `new` of the section of a number.
pub(crate) fn ended_of(
    alloc: Global,
    analysis: &ExplainAnalysis,
    searcher: &mut Searcher,
    number: u16,
    section: Section,
) -> Result<Items<Ended>, AllocError>
    requires analysed { IsAnalysed analysis.now }
    requires there { slice_get analysis.now.lowering.sections number ≡ Some section }
    ensures { IfOk result (AreEnded (read analysis.now) number) }
{
    let locks = ended_locks(alloc, analysis, number, section)?;
    let ended = all_ended(alloc, analysis, searcher, number, section, &locks)?;
    Ok(ended)
}

/// For each section the locks that end at a `new` of it.
pub fn ended_of_sections(
    alloc: Global,
    analysis: &ExplainAnalysis,
    searcher: &mut Searcher,
) -> Result<Items<Items<Ended>>, AllocError>
    requires { IsAnalysed analysis.now }
    ensures { IfOk result (AreAllEnded (read analysis.now)) }
{
    let mut sections = Vec::new(alloc);
    for (number, section) in analysis.lowering.sections().iter().enumerate() {
        let number = number as u16;
        sections.push(ended_of(alloc, analysis, searcher, number, *section)?)?;
    }
    Ok(Items::from_vec(sections))
}
