//! Names of the source.

ghost use Rattle.std.specs.Prelude.{◌≡◌, ◌≤◌, length};

use arrayvec::ArrayVec;
use std::fmt;
use std::fmt::Write;
use std::marker::Model;

/// A name of the source, 64 bytes at the most. Contracts see the list of its bytes.
#[derive(Debug, Drop, PartialEq, Eq)]
pub struct Name {
    bytes: ArrayVec<u8, 64>,
}

impl Model for Name {
    ghost use Rattle.std.specs.Prelude.{List, ℕ, length, ◌≤◌};

    ghost Value = { List ℕ };

    ghost view = { λ n. n.bytes.items };

    ghost invariant = { λ n. length n.bytes.items ≤ 64 };

    ghost inverse = { λ bytes. record { bytes = record { items = bytes } } };
}

impl Name {
    /// The name of these bytes, which are not too many.
    pub fn from_slice(bytes: &[u8]) -> Name
        requires { length bytes.now ≤ 64 }
        ensures { result ≡ bytes.now }
    {
        let mut name = ArrayVec::new();
        for b in bytes {
            name.push(*b);
        }
        Name { bytes: name }
    }

    /// The bytes of the name.
    pub fn as_slice(&self) -> &[u8]
        ensures bytes { result.now ≡ self.now }
        ensures bound { length result.now ≤ 64 }
    {
        self.bytes.as_slice()
    }
}

impl fmt::Display for Name {
    ghost use Rattle.std.specs.Prelude.{Some, encode_utf8_all};

    ghost output = { λ n. Some (encode_utf8_all n) };

    fn fmt<W: fmt::Write>(&self, f: &mut fmt::Formatter<W>) -> fmt::Result {
        for b in self.as_slice() {
            f.write_char(char::from(*b))?;
        }
        Ok(())
    }
}
