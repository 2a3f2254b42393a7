//! The place of a fault of a program for which no lists are inferred.
ghost use Rattle.std.specs.Prelude.{◌≡◌, ◌<◌, ℕ};
ghost use Rattle.asl_grammar.specs.Lex.{tokens_of};
ghost use Rattle.asl_syntax.specs.AstView.{tree_of};
ghost use Rattle.asl_syntax.specs.Parsed.{Parses};
ghost use Rattle.asl_emitter.specs.Refused.{IsRefusedInference};
ghost use Rattle.asl_diagnose_text.specs.Places.{words_in, IsWordAt};
ghost use Rattle.asl_diagnose.specs.InferPlaces.{IsInferPlace, IsRegionPlace};

use asl_backward_flow::Region;
use asl_diagnose_text::{Word, accesses_before, numbered, overfull_function};
use asl_emitter::InferFault;
use asl_syntax::Ast;

/// The place of a fault of a program.
pub(crate) fn infer_place(source: &[u8], ast: &Ast<'_>, fault: InferFault) -> usize
    requires parses { Parses source.now (tree_of ast.now) }
    requires refused { (k : ℕ) × IsRefusedInference (tree_of ast.now) k fault }
    ensures { IsInferPlace source.now fault result }
{
    match fault {
        InferFault::Registers(function) => word_place(source, Word::Fn, usize::from(function)),
        InferFault::CodeSize => word_place(source, Word::Fn, overfull_function(ast)),
        InferFault::AccessOutsideSection(_, pc) => {
            word_place(source, Word::Star, accesses_before(ast, pc))
        }
        InferFault::TooManyLocks(region) => region_place(source, region),
        InferFault::TooManyClasses | InferFault::OutOfMemory => source.len(),
    }
}

/// The word that a region begins with.
fn region_place(source: &[u8], region: Region) -> usize
    requires section { (n : ℕ) → region ≡ Region.Section n → n < words_in Word.Atomic (tokens_of source.now) }
    requires body { (n : ℕ) → region ≡ Region.Body n → n < words_in Word.Fn (tokens_of source.now) }
    ensures { IsRegionPlace source.now region result }
{
    match region {
        Region::Section(section) => word_place(source, Word::Atomic, usize::from(section)),
        Region::Body(function) => word_place(source, Word::Fn, usize::from(function)),
    }
}

/// The place of a word with so many of it before.
fn word_place(source: &[u8], word: Word, number: usize) -> usize
    requires { number < words_in word (tokens_of source.now) }
    ensures { IsWordAt (tokens_of source.now) word number result }
{
    match numbered(source, word, number) {
        Some(at) => at,
        None => unreachable!(),
    }
}
