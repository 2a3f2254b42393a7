//! The explanation of a source.
ghost use Rattle.std.specs.Prelude.{◌≡◌, ◌≤◌, ◌++◌, IfOk, IfErr, OnOk, length, string_bytes};
ghost use Rattle.asl_emitter.specs.Sources.{IsAcceptedSource};
ghost use Rattle.asl_explain.specs.Explained.{IsExplanation, IsRefusedExplanation};
ghost use Rattle.asl_warnings.specs.Texts.{warnings_text};
ghost use Rattle.asl_explain.specs.Told.{IsText, parting_words};
ghost use Rattle.asl_explain.specs.Analysed.{read, IsAnalysed, IsOfSource};
ghost use Rattle.asl_explain.specs.Telling.{AreToldBy, IsTextOf, TellsSections};

use crate::class_reasons::{ClassTold, told_classes};
use crate::explain_analysis::{ExplainAnalysis, analyse};
use crate::explained_text::text_of;
use crate::explained_value::{Explanation, Lists};
use crate::fault::ExplainFault;
use crate::lists_by_length::by_length;
use crate::making::explanation_of;
use crate::source_places::places_of;
use crate::text::Teller;
use asl_class_text::{Reasoned, reasoned_source};
use asl_code::{Items, Lock};
use asl_emitter::{InferFault, lists};
use asl_syntax::parse;
use asl_warnings::warnings_text;
use std::alloc::{AllocError, Global};

/// What is known of a source.
pub(crate) fn analysis_of(
    alloc: Global,
    source: &[u8],
    k: u32,
) -> Result<ExplainAnalysis, ExplainFault>
    requires { k ≤ 8 }
    ensures analysed { IfOk result (IsOfSource source.now k) }
    ensures refused { IfErr result (IsRefusedExplanation source.now k) }
{
    let ast = match parse(alloc, source) {
        Ok(ast) => ast,
        Err(fault) => return Err(ExplainFault::Source(fault)),
    };
    match analyse(alloc, &ast, k) {
        Ok(analysis) => Ok(analysis),
        Err(fault) => Err(ExplainFault::Infer(fault)),
    }
}

/// Why the lists that are inferred for a source are as they are, with paths of at most `k` operations: under each lock what the
/// section needs that the lock covers, with a chain of steps for each statement that needs it.
///
/// # Errors
///
/// The first fault of the source, as `compile` answers it; `OutOfMemory` where an allocation failed.
pub fn explain(alloc: Global, source: &[u8], k: u32) -> Result<Explanation, ExplainFault>
    requires { k ≤ 8 }
    ensures explained { IfOk result (IsExplanation source.now k) }
    ensures refused { IfErr result (IsRefusedExplanation source.now k) }
{
    let analysis = analysis_of(alloc, source, k)?;
    match explanation_of(alloc, &analysis) {
        Ok(explanation) => Ok(explanation),
        Err(_) => Err(ExplainFault::Infer(InferFault::OutOfMemory)),
    }
}

/// The explanation as a text; with `all` each chain is told.
///
/// # Errors
///
/// As `explain`.
pub fn explained(alloc: Global, source: &[u8], k: u32, all: bool) -> Result<String, ExplainFault>
    requires { k ≤ 8 }
    ensures told { IfOk result (λ text. IsText source.now k all (string_bytes text)) }
    ensures accepted { IfOk result (λ _. IsAcceptedSource source.now k) }
    ensures refused { IfErr result (IsRefusedExplanation source.now k) }
{
    let analysis = analysis_of(alloc, source, k)?;
    match told(alloc, source, &analysis, all) {
        Ok(text) => Ok(text),
        Err(_) => Err(ExplainFault::Infer(InferFault::OutOfMemory)),
    }
}

/// The text of the explanation of an analysed source.
fn told(
    alloc: Global,
    source: &[u8],
    analysis: &ExplainAnalysis,
    all: bool,
) -> Result<String, AllocError>
    requires { IsAnalysed analysis.now }
    ensures { IfOk result (λ text. IsTextOf analysis.now source.now all (string_bytes text)) }
{
    let inferred = lists(alloc, &analysis.lowering, &analysis.classes, &analysis.flow)?;
    let own = inferred.as_slice();
    let by_length = by_length(alloc, analysis, own)?;
    let Ok(reasoned) = reasoned_source(alloc, source) else {
        return Err(AllocError);
    };
    let told = told_of(alloc, &reasoned, own, all)?;
    let mut text = lists_text(
        alloc,
        analysis,
        own,
        by_length.as_slice(),
        &reasoned,
        &told,
        all,
    )?;
    push_warnings(alloc, &mut text, &reasoned)?;
    Ok(text)
}

/// What is told of the classes on which the lists have locks.
fn told_of(
    alloc: Global,
    reasoned: &Reasoned<'_>,
    lists: &[Items<Lock>],
    all: bool,
) -> Result<Vec<Option<ClassTold>>, AllocError>
    ensures { IfOk result (λ v. AreToldBy reasoned.now all lists.now reasoned.now.known.facts.count v.items) }
{
    let known = reasoned.known();
    told_classes(alloc, reasoned, all, lists, known.facts.count)
}

/// The text of the lists of an analysis, which are these, and those of each length.
fn lists_text(
    alloc: Global,
    analysis: &ExplainAnalysis,
    lists: &[Items<Lock>],
    by_length: &[Lists],
    reasoned: &Reasoned<'_>,
    told: &[Option<ClassTold>],
    all: bool,
) -> Result<String, AllocError>
    requires analysed { IsAnalysed analysis.now }
    requires count { length lists.now ≡ length analysis.now.lowering.sections }
    ensures { IfOk result (λ text. TellsSections (read analysis.now) lists.now (record { facts = reasoned.now.known.facts; k_limit = analysis.now.k_limit; by_length = by_length.now; classes = told.now; all = all }) (length analysis.now.lowering.sections) (string_bytes text)) }
{
    let places = places_of(alloc, reasoned)?;
    let teller = Teller {
        alloc,
        analysis,
        places: &places,
        by_length,
        told,
        all,
    };
    text_of(&teller, analysis, lists)
}

/// Adds what the source may lack, behind an empty line where something stands before it.
fn push_warnings(
    alloc: Global,
    text: &mut String,
    reasoned: &Reasoned<'_>,
) -> Result<(), AllocError>
    ensures { OnOk result (string_bytes text.new ≡ string_bytes text.old ++ (parting_words (string_bytes text.old) (warnings_text reasoned.now.known) ++ warnings_text reasoned.now.known)) }
{
    let warnings = warnings_text(alloc, reasoned.known())?;
    let between = parting(text.as_str(), warnings.as_str());
    text.push_str(between)?;
    text.push_str(warnings.as_str())?;
    Ok(())
}

/// An empty line between two parts; nothing where there is only one.
fn parting(first: &str, second: &str) -> &'static str
    ensures { result.now ≡ parting_words first.now second.now }
{
    if first.is_empty() || second.is_empty() {
        ""
    } else {
        "\n"
    }
}
