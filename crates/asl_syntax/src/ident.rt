//! Names where they stand in a text.

ghost use Rattle.std.specs.Prelude.{◌≡◌, ◌≤◌, length};

use crate::name::Name;
use std::marker::Model;

/// A name of a text, 64 bytes at the most. It is lent by the text. Contracts see the list of its bytes.
#[derive(Drop)]
pub struct Ident<'t> {
    bytes: &'t [u8],
}

impl<'t> Model for Ident<'t> {
    ghost use Rattle.std.specs.Prelude.{List, ℕ, length, ◌≤◌};

    ghost Value = { List ℕ };

    ghost view = { λ n. n.bytes.now };

    ghost invariant = { λ n. length n.bytes.now ≤ 64 };
}

impl<'t> Ident<'t> {
    /// The name of these bytes, which are not too many.
    #[inline(always)]
    pub fn new(bytes: &'t [u8]) -> Ident<'t>
        requires { length bytes.now ≤ 64 }
        ensures { result ≡ bytes.now }
    {
        Ident { bytes }
    }

    /// The bytes of the name.
    #[inline(always)]
    pub fn as_slice(&self) -> &'t [u8]
        ensures bytes { result.now ≡ self.now }
        ensures bound { length result.now ≤ 64 }
    {
        self.bytes
    }

    /// The name with bytes of its own, which needs no text.
    pub fn to_name(&self) -> Name
        ensures { result ≡ self.now }
    {
        Name::from_slice(self.as_slice())
    }
}
