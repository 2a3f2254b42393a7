//! What is told of a text that is refused.

use crate::most::Bringers;
use asl_assembler::AsmFault;
use asl_diagnose_text::TokenKind;
use asl_emitter::InferFault;
use asl_syntax::SyntaxFault;

/// Why a text is refused.
#[derive(Drop)]
pub enum Refusal {
    /// The source is no program.
    Syntax(SyntaxFault),
    /// No lists are inferred for the source.
    Infer(InferFault),
    /// The assembly text is no program.
    Asm(AsmFault),
}

/// What is told of a text that is refused.
#[derive(Drop)]
pub struct Diagnosis {
    /// Why it is refused.
    pub refusal: Refusal,
    /// The place, in bytes from 0.
    pub at: usize,
    /// The line of the place, from 1.
    pub line: usize,
    /// The place in its line, in bytes from 1.
    pub column: usize,
    /// For `Grammar` the kinds of token with which a program continues there, else none.
    pub expected: Vec<TokenKind>,
    /// For `Grammar` whether a program may end there.
    pub may_end: bool,
    /// For `Twice` the place of the first of the two declarations.
    pub first: Option<usize>,
    /// For `TooManyLocks` statements that bring most of the locks, if there are few such ones.
    pub bringers: Option<Bringers>,
    /// For `TooManyLocks` whether the search for these statements ended before its last try, since the text is long.
    pub is_cut: bool,
}
