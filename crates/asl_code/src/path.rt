//! The paths of lock expressions.

ghost use Rattle.std.specs.Prelude.{◌≡◌, ◌<◌, ◌≤◌, [], ◌∷◌, ◌++◌, length};

use arrayvec::ArrayVec;
use std::marker::Model;

/// One operation of a path.
#[derive(Clone, Copy, PartialEq, Eq, PartialOrd, Ord, Hash)]
pub enum Op {
    /// `*`: reads the cell, which must hold an address.
    Deref,
    /// `.i`: goes `i` cells on in the same object.
    Off(u8),
}

impl Default for Op {
    ghost use Rattle.std.specs.Prelude.{◌≡◌};
    ghost use Rattle.asl_code.specs.declared.path.Op.TheVariants.{Deref};

    ghost is_default = { λ op. op ≡ Deref };

    fn default() -> Self {
        Op::Deref
    }
}

/// The operations of a lock expression from its base on, eight at the most. Contracts see the list of them.
#[derive(Clone, Drop, PartialEq, Eq, PartialOrd, Ord, Hash)]
pub struct Path {
    ops: ArrayVec<Op, 8>,
}

impl Model for Path {
    ghost use Rattle.std.specs.Prelude.{List, length, ◌≤◌};
    ghost use Rattle.asl_code.specs.declared.path.Op.{Op};

    ghost Value = { List Op };

    ghost view = { λ p. p.ops.items };

    ghost invariant = { λ p. length p.ops.items ≤ 8 };

    ghost inverse = { λ ops. record { ops = record { items = ops } } };
}

impl Path {
    /// The most operations that a path has.
    pub const MAX_LEN: usize = 8;

    /// The path of no operation.
    pub fn new() -> Self
        ensures { result ≡ [] }
    {
        Path {
            ops: ArrayVec::new(),
        }
    }

    /// The operations in order, from the base on.
    pub fn as_slice(&self) -> &[Op]
        ensures items { result.now ≡ self.now }
        ensures bound { length result.now ≤ 8 }
    {
        self.ops.as_slice()
    }

    /// How many operations the path has.
    pub fn len(&self) -> usize
        ensures count { result ≡ length self.now }
        ensures bound { result ≤ 8 }
    {
        self.ops.len()
    }

    /// Adds `op` at the end.
    pub fn push(&mut self, op: Op)
        requires { length self.old < 8 }
        ensures { self.new ≡ self.old ++ op ∷ [] }
    {
        self.ops.push(op);
    }
}

impl Default for Path {
    ghost is_default = { λ p. p ≡ [] };

    fn default() -> Self {
        Path::new()
    }
}
