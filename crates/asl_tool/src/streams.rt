//! Reading the whole of the input, and writing the whole of the output.
ghost use Rattle.std.specs.Prelude.{◌≡◌, ◌<◌, ◌≤◌, ◌++◌, ℕ, List, length, IfOk, IfErr, IfSome, OnOk, OnErr};
ghost use Rattle.std.specs.Io.KnownBytes.{Appends};
ghost use Rattle.asl_tool.specs.Streams.{AppendsPart, IsReadFault, LacksRoom, Tells, most_input};

use crate::byte_streams::{ByteSink, ByteSource};
use std::alloc::Global;
use thiserror::Error;

/// The most bytes that an input may have.
pub const MAX_INPUT: usize = 268_435_456;

/// Why the input was not read to its end.
#[derive(Clone, Copy, Debug, PartialEq, Eq, Error)]
pub enum ReadFault {
    /// The reader failed; a read that was interrupted counts too. One whose bytes are known does not.
    #[error("Read")]
    Read,
    /// There are more than 268,435,456 bytes.
    #[error("TooLong")]
    TooLong,
    /// Memory ran out.
    #[error("OutOfMemory")]
    OutOfMemory,
}

/// The writer failed, or took no byte; a write that was interrupted counts too.
#[derive(Clone, Copy, Debug, PartialEq, Eq, Error)]
#[error("Write")]
pub struct WriteFault;

/// Reads to the end of the input.
///
/// # Errors
///
/// `TooLong`, `Read`, or `OutOfMemory` where an allocation failed: the input is then read on and not kept, so that want of
/// memory hides neither an input that is too long nor a reader that fails.
pub fn read_whole<R: ByteSource>(alloc: Global, reader: &mut R) -> Result<Vec<u8>, ReadFault>
    ensures whole { IfOk result (λ all. IfSome (R.remaining reader.old) (λ bytes. all.items ≡ bytes)) }
    ensures short { IfOk result (λ all. length all.items ≤ most_input) }
    ensures fault { IfErr result (IsReadFault (R.remaining reader.old)) }
{
    let mut kept = Some(Vec::new(alloc));
    let mut read = 0;
    let mut buffer = [0u8; 4096];
    // (counted, since it is proved that each function returns; no run comes to the end)
    for _ in 0..u64::MAX {
        let count = match reader.take_bytes(&mut buffer) {
            Ok(count) => count,
            Err(_) => return Err(ReadFault::Read),
        };
        if count == 0 {
            return kept.ok_or(ReadFault::OutOfMemory);
        }
        if count > MAX_INPUT - read {
            return Err(ReadFault::TooLong);
        }
        read += count;
        kept = with_bytes(kept, &buffer[..count]);
    }
    Err(ReadFault::TooLong)
}

/// What was kept with the bytes after it, as long as there is memory for all.
fn with_bytes(kept: Option<Vec<u8>>, bytes: &[u8]) -> Option<Vec<u8>>
    ensures { (front : List ℕ) → IfSome kept (λ all. all.items ≡ front) → IfSome result (λ all. all.items ≡ front ++ bytes.now) }
{
    let mut all = kept?;
    match all.extend_from_slice(bytes) {
        Ok(()) => Some(all),
        Err(_refused) => None,
    }
}

/// Writes all of `bytes`.
///
/// # Errors
///
/// The writer failed, or took no byte; it holds a first part of the bytes then. One that is known to have room for all does not fail.
pub fn write_whole<W: ByteSink>(writer: &mut W, bytes: &[u8]) -> Result<(), WriteFault>
    ensures ok { OnOk result (Appends (W.contents writer.old) (W.contents writer.new) bytes.now) }
    ensures err { OnErr result (AppendsPart (W.contents writer.old) (W.contents writer.new) bytes.now) }
    ensures full { OnErr result (LacksRoom (W.room writer.old) bytes.now) }
    ensures told { Tells (W.room writer.old) (W.contents writer.old) (W.contents writer.new) bytes.now }
{
    let mut rest = bytes;
    while !rest.is_empty() {
        let count = match writer.put_some(rest) {
            Ok(count) => count,
            Err(_) => return Err(WriteFault),
        };
        rest = rest.split_at(count).1;
    }
    Ok(())
}
