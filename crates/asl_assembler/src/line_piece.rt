//! A piece of text that is written from its end to its front, so that a number needs no count of its digits.

ghost use Rattle.std.specs.Prelude.{◌≡◌, ◌+◌, ◌<◌, ◌≤◌, [], ◌∷◌, ◌++◌, length, OnOk};
ghost use Rattle.std.specs.Fmt.{decimal, signed_decimal};

use std::alloc::AllocError;
use std::marker::Model;

/// How many bytes a piece has room for: no line of an instruction is longer.
const ROOM: usize = 64;

/// A piece of text of at most 64 bytes. Contracts see its bytes.
#[derive(Drop)]
pub(crate) struct Piece {
    bytes: [u8; ROOM],
    start: usize,
}

impl Model for Piece {
    ghost use Rattle.std.specs.Prelude.{ℕ, List, drop, ◌≤◌};

    ghost Value = { List ℕ };

    ghost view = { λ piece. drop piece.start piece.bytes };

    ghost invariant = { λ piece. piece.start ≤ 64 };
}

impl Piece {
    /// The piece of no byte.
    pub(crate) fn new() -> Self
        ensures { result ≡ [] }
    {
        Piece {
            bytes: [0; ROOM],
            start: ROOM,
        }
    }

    /// The bytes that are written.
    fn as_slice(&self) -> &[u8]
        ensures { result.now ≡ self.now }
    {
        let (_, written) = self.bytes.split_at(self.start);
        written
    }

    /// Adds the piece to the end of a text.
    pub(crate) fn add_to(&self, text: &mut Vec<u8>) -> Result<(), AllocError>
        ensures { OnOk result (text.new.items ≡ text.old.items ++ self.now) }
    {
        text.extend_from_slice(self.as_slice())
    }

    /// Writes a byte in front.
    #[inline(always)]
    pub(crate) fn byte(&mut self, byte: u8)
        requires { length self.old < 64 }
        ensures { self.new ≡ byte ∷ self.old }
    {
        self.start -= 1;
        self.bytes[self.start] = byte;
    }

    /// Writes bytes in front.
    #[inline(always)]
    pub(crate) fn word(&mut self, word: &[u8])
        requires { length word.now + length self.old ≤ 64 }
        ensures { self.new ≡ word.now ++ self.old }
    {
        let end = self.start;
        self.start -= word.len();
        self.bytes[self.start..end].copy_from_slice(word);
    }

    /// Writes a comma and a space in front.
    #[inline(always)]
    pub(crate) fn comma(&mut self)
        requires { length self.old + 2 ≤ 64 }
        ensures { self.new ≡ 44 ∷ 32 ∷ self.old }
    {
        self.word(b", ");
    }

    /// Writes the decimal digits of a number in front.
    pub(crate) fn number(&mut self, number: u32)
        requires { length self.old + 10 ≤ 64 }
        ensures written { self.new ≡ decimal number ++ self.old }
        ensures short { length self.new ≤ length self.old + 10 }
    {
        let mut left = number;
        while left >= 10 {
            self.byte(b'0' + (left % 10) as u8);
            left /= 10;
        }
        self.byte(b'0' + left as u8);
    }

    /// Writes the decimal digits of an integer in front, and `-` before them where it is below 0.
    pub(crate) fn integer(&mut self, integer: i32)
        requires { length self.old + 11 ≤ 64 }
        ensures written { self.new ≡ signed_decimal integer ++ self.old }
        ensures short { length self.new ≤ length self.old + 11 }
    {
        self.number(integer.unsigned_abs());
        if integer >= 0 {
            return;
        }
        self.byte(b'-');
    }

    /// Writes a register in front, as `r0`.
    #[inline(always)]
    pub(crate) fn register(&mut self, register: u8)
        requires { length self.old + 11 ≤ 64 }
        ensures written { self.new ≡ 114 ∷ (decimal register ++ self.old) }
        ensures short { length self.new ≤ length self.old + 11 }
    {
        self.number(u32::from(register));
        self.byte(b'r');
    }

    /// Writes a global in front, as `g0`.
    pub(crate) fn global(&mut self, global: u16)
        requires { length self.old + 11 ≤ 64 }
        ensures written { self.new ≡ 103 ∷ (decimal global ++ self.old) }
        ensures short { length self.new ≤ length self.old + 11 }
    {
        self.number(u32::from(global));
        self.byte(b'g');
    }
}
