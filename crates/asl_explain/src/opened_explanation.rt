//! An explanation whose sections are explained as they are asked for, so that one can be let go before the next.
ghost use Rattle.std.specs.Prelude.{◌≡◌, ◌≤◌, ◌<◌, IfOk, IfErr, OnOk, length};
ghost use Rattle.asl_emitter.specs.BuiltImage.{AreFitted};
ghost use Rattle.asl_explain.specs.Explained.{IsRefusedExplanation};
ghost use Rattle.asl_explain.specs.Analysed.{read, IsAnalysed};
ghost use Rattle.asl_explain.specs.Opened.{section_count, HasRest, HasEndedBelow, IsReady, IsOpened, IsSearchOf, IsSectionOf};

use crate::ended::ended_locks;
use crate::explain_analysis::ExplainAnalysis;
use crate::explained_source::analysis_of;
use crate::explained_value::Listed;
use crate::fault::ExplainFault;
use crate::known::Known;
use crate::lists_by_length::by_length;
use crate::making::explained_section;
use crate::search::Searcher;
use asl_code::{Items, Lock};
use asl_emitter::{InferFault, lists};
use std::alloc::{AllocError, Global};

/// The explanation of a source, whose sections are explained as they are asked for.
#[derive(Drop)]
pub struct OpenedExplanation {
    analysis: ExplainAnalysis,
    lists: Items<Items<Lock>>,
}

/// What was found in the bodies of functions, and what is known of steps there, for the sections that are still to be explained.
#[derive(Drop)]
pub struct SectionSearch {
    searcher: Searcher,
    known: Known,
}

/// Opens the explanation of a source. What `section` answers for all numbers, in order, are the sections of an explanation of it.
///
/// # Errors
///
/// As `explain`.
pub fn open_explanation(
    alloc: Global,
    source: &[u8],
    k: u32,
) -> Result<OpenedExplanation, ExplainFault>
    requires { k ≤ 8 }
    ensures opened { IfOk result (IsOpened source.now k) }
    ensures refused { IfErr result (IsRefusedExplanation source.now k) }
{
    let analysis = analysis_of(alloc, source, k)?;
    match whole_lists(alloc, &analysis) {
        Ok(lists) => Ok(OpenedExplanation { analysis, lists }),
        Err(_) => Err(ExplainFault::Infer(InferFault::OutOfMemory)),
    }
}

/// The lists of an analysis, of which there is a whole explanation.
fn whole_lists(alloc: Global, analysis: &ExplainAnalysis) -> Result<Items<Items<Lock>>, AllocError>
    requires { IsAnalysed analysis.now }
    ensures lists { IfOk result (AreFitted analysis.now.lowering analysis.now.classes analysis.now.flow (length analysis.now.lowering.sections)) }
    ensures rest { IfOk result (λ _. HasRest analysis.now) }
{
    let own = lists(alloc, &analysis.lowering, &analysis.classes, &analysis.flow)?;
    make_ended(alloc, analysis)?;
    let _ = by_length(alloc, analysis, own.as_slice())?;
    Ok(own)
}

/// Finds the locks that end in each section, and lets them go: an explanation has them, though nobody asks for them here.
fn make_ended(alloc: Global, analysis: &ExplainAnalysis) -> Result<(), AllocError>
    requires { IsAnalysed analysis.now }
    ensures { OnOk result (HasEndedBelow (read analysis.now) (length analysis.now.lowering.sections)) }
{
    for (number, section) in analysis.lowering.sections().iter().enumerate() {
        ended_locks(alloc, analysis, number as u16, *section)?;
    }
    Ok(())
}

impl OpenedExplanation {
    /// How many sections there are.
    pub fn section_count(&self) -> usize
        ensures { result ≡ section_count self.now }
    {
        self.analysis.lowering.sections().len()
    }

    /// A search that has found nothing.
    ///
    /// # Errors
    ///
    /// An allocation failed.
    pub fn search(&self, alloc: Global) -> Result<SectionSearch, AllocError>
        ensures { IfOk result (IsSearchOf self.now) }
    {
        let searcher = Searcher::new(alloc, &self.analysis)?;
        let known = Known::new(alloc);
        Ok(SectionSearch { searcher, known })
    }

    /// The locks of the list of the section of this number, explained as `explain` does. What the search finds in the bodies of functions
    /// it keeps for other sections.
    ///
    /// # Errors
    ///
    /// An allocation failed.
    pub fn section(
        &self,
        alloc: Global,
        search: &mut SectionSearch,
        number: usize,
    ) -> Result<Items<Listed>, AllocError>
        requires ready { IsReady self.now }
        requires there { number < section_count self.now }
        requires search { IsSearchOf self.now search.old }
        ensures search { OnOk result (IsSearchOf self.now search.new) }
        ensures section { IfOk result (IsSectionOf self.now number) }
    {
        let section = self.analysis.lowering.sections()[number];
        let list = self.lists.as_slice()[number].as_slice();
        let number = number as u16;
        explained_section(
            alloc,
            &self.analysis,
            &mut search.searcher,
            &mut search.known,
            number,
            section,
            list,
        )
    }
}
