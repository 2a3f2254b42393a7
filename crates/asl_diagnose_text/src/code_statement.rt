//! Which statement of a program an instruction is of.

ghost use Rattle.std.specs.Prelude.{◌<◌, IfOk, IsSome};
ghost use Rattle.asl_grammar.specs.Reader.{bytes_left};

use crate::token_walk::{Step, Walk};
use asl_grammar::control::{Act, Control, Opening};
use asl_grammar::lexer::{Found, Tokens};
use asl_grammar::token::{Mark, Token};
use std::alloc::{AllocError, Global};

/// Whose block is open.
#[derive(Clone, Copy, PartialEq, Eq)]
enum Block {
    Then,
    Else,
    While,
    Atomic,
}

/// How many instructions the tokens so far have, and which blocks are open.
#[derive(Drop)]
struct Coder<'t> {
    walk: Walk<'t>,
    blocks: Vec<Block>,
    pc: usize,
    arguments: usize,
    statement: usize,
}

impl<'t> Coder<'t> {
    /// At the start of a text, before its first function.
    fn new(alloc: Global) -> Coder<'t> {
        Coder {
            walk: Walk::new(alloc),
            blocks: Vec::new(alloc),
            pc: 0,
            arguments: 0,
            statement: 0,
        }
    }

    /// Notes where statements begin.
    fn begin(&mut self, step: &Step<'t>) {
        if matches!(step.before, Control::StatementStart | Control::ItemStart) {
            self.statement = step.spot.at;
        }
    }

    /// Counts what a token completes, with these tokens after it.
    fn count(&mut self, act: Act<'t>, rest: &Tokens<'t>) -> Result<(), AllocError> {
        let more = match act {
            Act::Emit(_) => 1,
            Act::Finish(_) => 1,
            Act::Argument(_) => {
                self.arguments = self.arguments.saturating_add(1);
                0
            }
            Act::EmitCall(_, _) => {
                let arguments = self.arguments;
                self.arguments = 0;
                arguments.saturating_add(1)
            }
            Act::Begin(opening) => self.open(opening, rest)?,
            Act::Close => self.close(),
            _ => 0,
        };
        self.pc = self.pc.saturating_add(more);
        Ok(())
    }

    /// Opens a block: how many instructions stand before its first.
    fn open(&mut self, opening: Opening<'t>, rest: &Tokens<'t>) -> Result<usize, AllocError> {
        match opening {
            Opening::OfIf(_) => {
                self.blocks.push(Block::Then)?;
                Ok(1)
            }
            Opening::OfElse => {
                self.blocks.push(Block::Else)?;
                Ok(if closes(rest) { 0 } else { 1 })
            }
            Opening::OfWhile(_) => {
                self.blocks.push(Block::While)?;
                Ok(1)
            }
            Opening::OfAtomic => {
                self.blocks.push(Block::Atomic)?;
                Ok(1)
            }
        }
    }

    /// Closes a block: how many instructions stand after its last.
    fn close(&mut self) -> usize {
        match self.blocks.pop() {
            Some(Block::While) | Some(Block::Atomic) => 1,
            _ => 0,
        }
    }

    /// Goes past the next token. Answers what it completes, or nothing at the end.
    fn next(&mut self, tokens: &mut Tokens<'t>) -> Result<Option<Step<'t>>, AllocError>
        ensures { IfOk result (λ step. IsSome step → bytes_left tokens.new < bytes_left tokens.old) }
    {
        let Found::Token(spot) = tokens.next() else {
            return Ok(None);
        };
        let Some(step) = self.walk.take(spot)? else {
            return Ok(None);
        };
        self.begin(&step);
        self.count(step.act, tokens)?;
        Ok(Some(step))
    }

    /// Whether a section is open.
    fn is_in_section(&self) -> bool {
        for block in &self.blocks {
            if *block == Block::Atomic {
                return true;
            }
        }
        false
    }
}

/// Whether a block ends here.
fn closes(tokens: &Tokens<'_>) -> bool {
    let mut ahead = *tokens;
    match ahead.next() {
        Found::Token(spot) => matches!(spot.token, Token::Fixed(Mark::CloseBrace)),
        _ => false,
    }
}

/// Where the statement of the instruction at a pc begins; of an instruction of `if`, `while`, `atomic` or a return the statement whose word
/// or brace stands there.
pub fn statement_of(alloc: Global, text: &[u8], pc: usize) -> Result<Option<usize>, AllocError> {
    let mut coder = Coder::new(alloc);
    let mut tokens = Tokens::new(text);
    'reading: while coder.next(&mut tokens)?.is_some() {
        if coder.pc > pc {
            return Ok(Some(coder.statement));
        }
    }
    Ok(None)
}

/// How many instructions the code of a program has.
pub fn code_len(alloc: Global, text: &[u8]) -> Result<usize, AllocError> {
    let mut coder = Coder::new(alloc);
    let mut tokens = Tokens::new(text);
    'reading: while coder.next(&mut tokens)?.is_some() {}
    Ok(coder.pc)
}

/// The place of the first call of a function that stands in no section of its function.
pub fn call_outside(alloc: Global, text: &[u8], name: &[u8]) -> Result<Option<usize>, AllocError> {
    let mut coder = Coder::new(alloc);
    let mut tokens = Tokens::new(text);
    'reading: while let Some(step) = coder.next(&mut tokens)? {
        if let Act::EmitCall(_, callee) = step.act {
            if callee == name && !coder.is_in_section() {
                return Ok(Some(coder.statement));
            }
        }
    }
    Ok(None)
}
