//! What the program reads and writes: readers that fail only where nothing is known of their bytes, and writers that fail only where they
//! are not known to have room.
ghost use Rattle.std.specs.Prelude.{◌≡◌, ◌<◌, ◌≤◌, ◌-◌, [], IfOk, OnErr, IsNone, Some, length, take, vec_len, vec_capacity};
ghost use Rattle.std.specs.Io.{ReadsAtMost};
ghost use Rattle.std.specs.Io.KnownBytes.{Appends, ReadConsumes};
ghost use Rattle.asl_tool.specs.Streams.{KeepsRoom, LacksRoom};

use std::io;
use std::io::{ErrorKind, Read, Stderr, Stdin, Stdout, Write};

/// A reader that fails only where nothing is known of its bytes.
pub trait ByteSource: Read {
    /// Reads as `read` does.
    ///
    /// # Errors
    ///
    /// The reader failed, or was interrupted; one whose bytes are known does not.
    fn take_bytes(&mut self, buffer: &mut [u8]) -> io::Result<usize>
        ensures bound { ReadsAtMost result buffer.new }
        ensures bytes { ReadConsumes (Self.remaining self.old) (Self.remaining self.new) result buffer.new }
        ensures unknown { OnErr result (IsNone (Self.remaining self.old)) };
}

/// A writer of which it may be known how many more bytes it takes for sure.
pub trait ByteSink: Write {
    ghost use Rattle.std.specs.Prelude.{ℕ, Option, None};

    /// How many more bytes it takes for sure, where that is known.
    ghost room: { Self → Option ℕ } = { λ _. None };

    /// Writes one byte or more, and says how many.
    ///
    /// # Errors
    ///
    /// The writer failed, was interrupted, or took no byte; one that has room for all does not.
    fn put_some(&mut self, bytes: &[u8]) -> io::Result<usize>
        requires { 0 < length bytes.now }
        ensures some { IfOk result (λ count. (0 < count) × (count ≤ length bytes.now)) }
        ensures bytes { IfOk result (λ count. Appends (Self.contents self.old) (Self.contents self.new) (take count bytes.now)) }
        ensures kept { OnErr result (Appends (Self.contents self.old) (Self.contents self.new) []) }
        ensures left { IfOk result (λ count. KeepsRoom (room self.old) (room self.new) count) }
        ensures full { OnErr result (LacksRoom (room self.old) bytes.now) };
}

/// Writes as `write` does, and says how many bytes were taken. Where none was, that is an error.
pub fn write_some<W: Write>(writer: &mut W, bytes: &[u8]) -> io::Result<usize>
    ensures some { IfOk result (λ count. (0 < count) × (count ≤ length bytes.now)) }
    ensures bytes { IfOk result (λ count. Appends (W.contents writer.old) (W.contents writer.new) (take count bytes.now)) }
    ensures kept { OnErr result (Appends (W.contents writer.old) (W.contents writer.new) []) }
{
    match writer.write(bytes) {
        Ok(0) => Err(io::Error::from(ErrorKind::WriteZero)),
        Ok(count) => Ok(count),
        Err(error) => Err(error),
    }
}

impl ByteSource for Stdin {
    fn take_bytes(&mut self, buffer: &mut [u8]) -> io::Result<usize> {
        self.read(buffer)
    }
}

impl ByteSink for Stdout {
    fn put_some(&mut self, bytes: &[u8]) -> io::Result<usize> {
        write_some(self, bytes)
    }
}

impl ByteSink for Stderr {
    fn put_some(&mut self, bytes: &[u8]) -> io::Result<usize> {
        write_some(self, bytes)
    }
}

/// Bytes in memory: reading them does not fail.
impl ByteSource for &[u8] {
    fn take_bytes(&mut self, buffer: &mut [u8]) -> io::Result<usize> {
        self.read(buffer)
    }
}

/// A vector takes for sure as many bytes as it has capacity for.
impl ByteSink for Vec<u8> {
    ghost room = { λ all. Some (vec_capacity all - vec_len all) };

    fn put_some(&mut self, bytes: &[u8]) -> io::Result<usize> {
        self.extend_from_slice(bytes)?;
        Ok(bytes.len())
    }
}
