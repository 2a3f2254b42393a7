//! The text of an explanation: one section after the other is explained, told, and let go.
ghost use Rattle.std.specs.Prelude.{◌≡◌, ◌++◌, Some, IfOk, OnOk, length, slice_get, string_bytes};
ghost use Rattle.std.specs.List.{flat_map};
ghost use Rattle.asl_explain.specs.Analysed.{read, IsAnalysed};
ghost use Rattle.asl_explain.specs.Known.{AreKnown};
ghost use Rattle.asl_explain.specs.Told.{section_in, section_words, count_words, head_told, lock_told, section_told};
ghost use Rattle.asl_explain.specs.ClassReasons.{lock_block};
ghost use Rattle.asl_explain.specs.Telling.{Tells, TellsSection, TellsSections, given};

use crate::class_reasons::{ClassTeller, push_lock_block};
use crate::ended::ended_of;
use crate::explain_analysis::ExplainAnalysis;
use crate::explained_value::{Ended, Listed};
use crate::known::Known;
use crate::making::explained_section;
use crate::search::{Others, Searcher, Statements};
use crate::text::{MAX_EXPLAINED, Teller, push_between, push_plural};
use asl_code::{Items, Lock};
use asl_lower::Section;
use std::alloc::AllocError;
use std::fmt::Write;

/// The text of the sections of an analysis with these lists.
pub fn text_of(
    teller: &Teller<'_>,
    analysis: &ExplainAnalysis,
    lists: &[Items<Lock>],
) -> Result<String, AllocError>
    requires analysed { IsAnalysed analysis.now }
    requires count { length lists.now ≡ length analysis.now.lowering.sections }
    ensures { IfOk result (λ text. TellsSections (read analysis.now) lists.now (given teller.now) (length analysis.now.lowering.sections) (string_bytes text)) }
{
    let mut searcher = searcher_of(teller, analysis)?;
    let mut known = Known::new(teller.alloc);
    let mut text = String::new(teller.alloc);
    for (number, section) in analysis.lowering.sections().iter().enumerate() {
        let list = lists[number].as_slice();
        let number = number as u16;
        push_explained(
            teller,
            analysis,
            &mut searcher,
            &mut known,
            &mut text,
            number,
            *section,
            list,
        )?;
    }
    Ok(text)
}

/// The searcher of an analysis, which keeps what is told.
fn searcher_of(teller: &Teller<'_>, analysis: &ExplainAnalysis) -> Result<Searcher, AllocError> {
    let mut searcher = Searcher::new(teller.alloc, analysis)?;
    if !teller.all {
        searcher.tell_first(MAX_EXPLAINED);
    }
    Ok(searcher)
}

/// Adds the section of a number with this list. What is found of it is let go.
fn push_explained(
    teller: &Teller<'_>,
    analysis: &ExplainAnalysis,
    searcher: &mut Searcher,
    known: &mut Known,
    text: &mut String,
    number: u16,
    section: Section,
    list: &[Lock],
) -> Result<(), AllocError>
    requires analysed { IsAnalysed analysis.now }
    requires there { slice_get analysis.now.lowering.sections number ≡ Some section }
    requires known { AreKnown (read analysis.now) known.old }
    ensures known { OnOk result (AreKnown (read analysis.now) known.new) }
    ensures tells { OnOk result (TellsSection (read analysis.now) number section list.now (given teller.now) (string_bytes text.old) (string_bytes text.new)) }
{
    let alloc = teller.alloc;
    let listed = explained_section(alloc, analysis, searcher, known, number, section, list)?;
    let ended = ended_of(alloc, analysis, searcher, number, section)?;
    push_section(
        teller,
        text,
        usize::from(number),
        listed.as_slice(),
        ended.as_slice(),
        searcher.others(),
    )?;
    Ok(())
}

/// Adds the number of a section.
fn push_number(text: &mut String, number: usize) -> Result<(), AllocError>
    ensures { OnOk result (string_bytes text.new ≡ string_bytes text.old ++ section_words number) }
{
    write!(text, "section {number}, ")
}

/// Adds how many locks a section takes.
fn push_count(text: &mut String, count: usize) -> Result<(), AllocError>
    ensures { OnOk result (string_bytes text.new ≡ string_bytes text.old ++ count_words count) }
{
    write!(text, ": takes {count} lock")
}

/// Adds a section with these locks, those that end in it, and the statements of which no chain is kept.
fn push_section(
    teller: &Teller<'_>,
    text: &mut String,
    number: usize,
    listed: &[Listed],
    ended: &[Ended],
    others: &Others,
) -> Result<(), AllocError>
    ensures { OnOk result (Tells (section_told (given teller.now) number listed.now ended.now) (string_bytes text.old) (string_bytes text.new)) }
{
    let section = teller.section(number);
    push_between(text, number)?;
    push_head(teller, text, number, section, listed)?;
    push_locks(teller, text, number, listed, others)?;
    teller.push_ended(text, section.function, ended)?;
    text.push_str("\n")?;
    teller.push_lengths(text, number)?;
    Ok(())
}

/// Adds the first line of a section, and why expressions became classes.
fn push_head(
    teller: &Teller<'_>,
    text: &mut String,
    number: usize,
    section: Section,
    listed: &[Listed],
) -> Result<(), AllocError>
    requires { section ≡ section_in (given teller.now).facts number }
    ensures { OnOk result (Tells (head_told (given teller.now) number (length listed.now)) (string_bytes text.old) (string_bytes text.new)) }
{
    push_number(text, number)?;
    teller.push_place_of_section(text, section)?;
    push_count(text, listed.len())?;
    push_plural(text, listed.len())?;
    text.push_str(teller.coarse_words(number, section, listed)?.as_str())?;
    Ok(())
}

/// Adds the locks of the list of a section.
fn push_locks(
    teller: &Teller<'_>,
    text: &mut String,
    section: usize,
    listed: &[Listed],
    others: &Others,
) -> Result<(), AllocError>
    ensures { OnOk result (Tells (flat_map (lock_told (given teller.now) section) listed.now) (string_bytes text.old) (string_bytes text.new)) }
{
    for (place, lock) in listed.iter().enumerate() {
        push_lock(teller, text, section, lock, others.under(place))?;
    }
    Ok(())
}

/// Adds a lock of the list of a section, with the statements of the needs under it of which no chain is kept.
fn push_lock(
    teller: &Teller<'_>,
    text: &mut String,
    section: usize,
    listed: &Listed,
    others: &[Statements],
) -> Result<(), AllocError>
    ensures { OnOk result (Tells (lock_told (given teller.now) section listed.now) (string_bytes text.old) (string_bytes text.new)) }
{
    let function = teller.section(section).function;
    teller.push_lock_line(text, function, &listed.lock)?;
    teller.push_chains(text, function, listed)?;
    teller.push_others(text, function, listed, others)?;
    push_block(teller, text, section, &listed.lock)?;
    Ok(())
}

/// Adds why the members of a lock's class share it, if it is on a class.
fn push_block(
    teller: &Teller<'_>,
    text: &mut String,
    section: usize,
    lock: &Lock,
) -> Result<(), AllocError>
    ensures { OnOk result (string_bytes text.new ≡ string_bytes text.old ++ lock_block (given teller.now).facts (given teller.now).all (given teller.now).classes section lock.now) }
{
    let classes = ClassTeller {
        reasoned: teller.places.reasoned,
        told: teller.told,
        all: teller.all,
    };
    push_lock_block(teller.alloc, text, &classes, section, lock)
}
