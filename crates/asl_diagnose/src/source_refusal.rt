//! What is told of a source that is refused.
ghost use Rattle.std.specs.Prelude.{◌≡◌, ◌≢◌, ◌≤◌, ℕ, true, false, IfOk, OnErr};
ghost use Rattle.asl_syntax.specs.AstView.{tree_of};
ghost use Rattle.asl_syntax.specs.Parsed.{Parses};
ghost use Rattle.asl_syntax.specs.Fault.{IsFault};
ghost use Rattle.asl_emitter.specs.Refused.{IsLowered, IsRefusedInference};
ghost use Rattle.asl_diagnose_text.specs.Position.{IsPosition};
ghost use Rattle.asl_diagnose_text.specs.SyntaxPlaces.{IsExpectedFor};
ghost use Rattle.asl_diagnose.specs.InferPlaces.{IsInferPlace};
ghost use Rattle.asl_diagnose.specs.Diagnosed.{IsSourceDiagnosed, IsSourceDiagnosis, HasFirst, HasKinds, HasBringers, MayLackMemory};
ghost use Rattle.asl_diagnose.specs.Crowded.{IsCrowded};

use crate::diagnosis::{Diagnosis, Refusal};
use crate::infer_place::infer_place;
use crate::search::{Search, find_bringers};
use asl_diagnose_text::{Expected, column, expected_at_stop, line, syntax_place};
use asl_emitter::{InferFault, infer};
use asl_syntax::{Ast, SyntaxFault, parse};
use std::alloc::{AllocError, Global};

/// What is told of a source, for paths of at most `k` operations: nothing where a program is inferred for it.
///
/// # Errors
///
/// An allocation failed. Of a text that is no program this hides nothing, but for `Grammar`.
pub fn diagnose_source(
    alloc: Global,
    source: &[u8],
    k: u32,
) -> Result<Option<Diagnosis>, AllocError>
    requires { k ≤ 8 }
    ensures told { IfOk result (IsSourceDiagnosed source.now k) }
    ensures memory { OnErr result (MayLackMemory source.now) }
{
    match parse(alloc, source) {
        Ok(ast) => diagnose_tree(alloc, source, &ast, k),
        Err(fault) => Ok(Some(told_syntax(alloc, source, fault)?)),
    }
}

/// What is told of a source that is a program, by its tree, for paths of at most `k` operations: nothing where lists are inferred for it.
///
/// # Errors
///
/// An allocation failed. As of `infer`, this hides no fault of the lowering, which needs no memory to be judged.
pub fn diagnose_tree(
    alloc: Global,
    source: &[u8],
    ast: &Ast<'_>,
    k: u32,
) -> Result<Option<Diagnosis>, AllocError>
    requires small { k ≤ 8 }
    requires parses { Parses source.now (tree_of ast.now) }
    ensures told { IfOk result (IsSourceDiagnosed source.now k) }
    ensures memory { OnErr result (IsLowered (tree_of ast.now)) }
{
    match infer(alloc, ast, k) {
        Ok(program) => {
            let _ = program;
            Ok(None)
        }
        Err(fault) => Ok(Some(told_infer(alloc, source, ast, fault, k)?)),
    }
}

/// Whether memory was all that was wanting.
fn is_memory(fault: &SyntaxFault) -> bool
    ensures real { result ≡ false → fault.now ≢ SyntaxFault.OutOfMemory }
    ensures memory { result ≡ true → fault.now ≡ SyntaxFault.OutOfMemory }
{
    matches!(fault, SyntaxFault::OutOfMemory)
}

/// What is told of a source that is no program.
fn told_syntax(alloc: Global, source: &[u8], fault: SyntaxFault) -> Result<Diagnosis, AllocError>
    requires { IsFault source.now fault }
    ensures told { IfOk result (λ told. (k : ℕ) → IsSourceDiagnosis source.now k told) }
    ensures memory { OnErr result (MayLackMemory source.now) }
{
    if is_memory(&fault) {
        return Err(AllocError);
    }
    let expected = expected_for(alloc, source, &fault)?;
    let (at, first) = syntax_place(source, &fault);
    let line = line(source, at);
    let column = column(source, at);
    Ok(Diagnosis {
        refusal: Refusal::Syntax(fault),
        at,
        line,
        column,
        expected: expected.kinds,
        may_end: expected.may_end,
        first,
        bringers: None,
        is_cut: false,
    })
}

/// With what a program continues, where the fault is that none does.
fn expected_for(alloc: Global, source: &[u8], fault: &SyntaxFault) -> Result<Expected, AllocError>
    requires { IsFault source.now fault.now }
    ensures stop { IfOk result (λ e. IsExpectedFor source.now fault.now e.kinds.items e.may_end) }
    ensures others { IfOk result (λ e. HasKinds (Refusal.Syntax fault.now) e.kinds.items e.may_end) }
    ensures memory { OnErr result ((place : ℕ) × IsFault source.now (SyntaxFault.Grammar place)) }
{
    match fault {
        SyntaxFault::Grammar(_) => expected_at_stop(alloc, source),
        SyntaxFault::NotAscii(_)
        | SyntaxFault::Token(_)
        | SyntaxFault::Limit(_)
        | SyntaxFault::Twice(_)
        | SyntaxFault::Unknown(_)
        | SyntaxFault::Arity(_)
        | SyntaxFault::NoMain
        | SyntaxFault::OutOfMemory => Ok(Expected {
            kinds: Vec::new(alloc),
            may_end: false,
        }),
    }
}

/// What is told of a program for which no lists are inferred.
fn told_infer(
    alloc: Global,
    source: &[u8],
    ast: &Ast<'_>,
    fault: InferFault,
    k: u32,
) -> Result<Diagnosis, AllocError>
    requires small { k ≤ 8 }
    requires parses { Parses source.now (tree_of ast.now) }
    requires refused { IsRefusedInference (tree_of ast.now) k fault }
    ensures memory { OnErr result (IsLowered (tree_of ast.now)) }
    ensures real { IfOk result (λ _. fault ≢ InferFault.OutOfMemory) }
    ensures refusal { IfOk result (λ told. told.refusal ≡ Refusal.Infer fault) }
    ensures place { IfOk result (λ told. IsInferPlace source.now fault told.at) }
    ensures position { IfOk result (λ told. IsPosition source.now told.at told.line told.column) }
    ensures first { IfOk result (λ told. HasFirst told.refusal told.first) }
    ensures kinds { IfOk result (λ told. HasKinds told.refusal told.expected.items told.may_end) }
    ensures bringers { IfOk result (λ told. HasBringers source.now k told.refusal told.bringers) }
{
    if is_memory_of(fault) {
        return Err(AllocError);
    }
    let at = infer_place(source, ast, fault);
    let bringers = bringers_for(alloc, source, fault, k)?;
    let line = line(source, at);
    let column = column(source, at);
    Ok(Diagnosis {
        refusal: Refusal::Infer(fault),
        at,
        line,
        column,
        expected: Vec::new(alloc),
        may_end: false,
        first: None,
        bringers: bringers.found,
        is_cut: bringers.is_cut,
    })
}

/// The statements that bring most of the locks, where a region needs too many.
fn bringers_for(
    alloc: Global,
    source: &[u8],
    fault: InferFault,
    k: u32,
) -> Result<Search, AllocError>
    requires { k ≤ 8 }
    ensures bringers { IfOk result (λ search. HasBringers source.now k (Refusal.Infer fault) search.found) }
    ensures memory { OnErr result (IsCrowded fault) }
{
    match fault {
        InferFault::TooManyLocks(region) => find_bringers(alloc, source, region, k),
        InferFault::Registers(_)
        | InferFault::CodeSize
        | InferFault::AccessOutsideSection(_, _)
        | InferFault::TooManyClasses
        | InferFault::OutOfMemory => Ok(Search {
            found: None,
            is_cut: false,
        }),
    }
}

/// Whether memory was all that was wanting.
fn is_memory_of(fault: InferFault) -> bool
    ensures real { result ≡ false → fault ≢ InferFault.OutOfMemory }
    ensures memory { result ≡ true → fault ≡ InferFault.OutOfMemory }
{
    matches!(fault, InferFault::OutOfMemory)
}
