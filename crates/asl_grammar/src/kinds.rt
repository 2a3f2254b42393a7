//! The kinds of the blocks that are open.

ghost use Rattle.std.specs.Prelude.{◌≡◌, ◌<◌, reverse, length};
ghost use Rattle.asl_grammar.specs.Seen.{innermost};

use crate::control::Kind;
use arrayvec::ArrayVec;
use std::alloc::{AllocError, Global};

/// The kinds of the open blocks, the innermost last. The first 63 take no memory.
#[derive(Drop)]
pub struct Kinds {
    shallow: ArrayVec<Kind, 63>,
    deep: Vec<Kind>,
    ghost in_order: { length shallow.items < 63 → length deep.items ≡ 0 },
}

/// The last of some kinds; that of a body, where there is none.
fn last_kind(kinds: &[Kind]) -> Kind
    ensures { result ≡ innermost (reverse kinds.now) }
{
    match kinds.last() {
        Some(kind) => *kind,
        None => Kind::Body,
    }
}

impl Kinds {
    ghost use Rattle.std.specs.Prelude.{◌≤◌, [], ◌∷◌, ◌++◌, IfOk, OnErr};
    ghost use Rattle.asl_grammar.specs.Seen.{outer_kinds};
    ghost use Rattle.asl_grammar.specs.SeenView.{kinds_in};

    /// No block is open.
    pub fn new(alloc: Global) -> Kinds
        ensures { kinds_in result ≡ [] }
    {
        Kinds {
            shallow: ArrayVec::new(),
            deep: Vec::new(alloc),
        }
    }

    /// The kind of the innermost open block.
    pub fn innermost(&self) -> Kind
        ensures { result ≡ innermost (reverse (kinds_in self.now)) }
    {
        if self.deep.is_empty() {
            last_kind(self.shallow.as_slice())
        } else {
            last_kind(self.deep.as_slice())
        }
    }

    /// Opens a block. Memory is asked for only where 63 are open.
    pub fn push(&mut self, kind: Kind) -> Result<(), AllocError>
        ensures ok { IfOk result (λ _. kinds_in self.new ≡ kinds_in self.old ++ kind ∷ []) }
        ensures err { OnErr result (63 ≤ length (kinds_in self.old)) }
    {
        if self.shallow.len() < 63 {
            self.shallow.push(kind);
        } else {
            self.deep.push(kind)?;
        }
        Ok(())
    }

    /// Closes the innermost block, if there is one.
    pub fn pop(&mut self)
        ensures { reverse (kinds_in self.new) ≡ outer_kinds (reverse (kinds_in self.old)) }
    {
        if self.deep.pop().is_none() {
            let _ = self.shallow.pop();
        }
    }
}
