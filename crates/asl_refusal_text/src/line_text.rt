//! A line that is made without allocation.
ghost use Rattle.std.specs.Prelude.{◌≡◌, ◌+◌, ◌<◌, ◌≤◌, ◌++◌, length, OnOk, OnErr};
ghost use Rattle.std.specs.Fmt.{decimal};
ghost use Rattle.asl_refusal_text.specs.FaultText.{numbered, around};

use arrayvec::{ArrayVec, CapacityError};
use itoa::Buffer;

/// A line of at most 256 bytes. No line of a fault is longer: the longest text that a call here adds has at most 241.
pub type Line = ArrayVec<u8, 256>;

/// Adds bytes.
pub fn push_bytes(line: &mut Line, bytes: &[u8]) -> Result<(), CapacityError>
    ensures text { OnOk result (line.new.items ≡ line.old.items ++ bytes.now) }
    ensures adds { length line.new.items ≤ length line.old.items + length bytes.now }
    ensures room { OnErr result (256 < length line.old.items + length bytes.now) }
{
    line.try_extend_from_slice(bytes)
}

/// Adds a text.
pub fn push(line: &mut Line, text: &str) -> Result<(), CapacityError>
    ensures text { OnOk result (line.new.items ≡ line.old.items ++ text.now) }
    ensures adds { length line.new.items ≤ length line.old.items + length text.now }
    ensures room { OnErr result (256 < length line.old.items + length text.now) }
{
    push_bytes(line, text.as_bytes())
}

/// Adds a number.
pub fn push_number(line: &mut Line, number: usize) -> Result<(), CapacityError>
    ensures text { OnOk result (line.new.items ≡ line.old.items ++ decimal number) }
    ensures adds { length line.new.items ≤ length line.old.items + 20 }
    ensures room { OnErr result (256 < length line.old.items + 20) }
{
    let mut digits = Buffer::new();
    push(line, digits.format(number))
}

/// Adds a name with a number.
pub fn push_numbered(line: &mut Line, name: &str, number: usize) -> Result<(), CapacityError>
    ensures text { OnOk result (line.new.items ≡ line.old.items ++ numbered name.now number) }
    ensures adds { length line.new.items ≤ length line.old.items + length name.now + 22 }
    ensures room { OnErr result (256 < length line.old.items + length name.now + 22) }
{
    push(line, name)?;
    push(line, "(")?;
    push_number(line, number)?;
    push(line, ")")
}

/// Adds a name with a text.
pub fn push_around(line: &mut Line, name: &str, text: &[u8]) -> Result<(), CapacityError>
    ensures text { OnOk result (line.new.items ≡ line.old.items ++ around name.now text.now) }
    ensures adds { length line.new.items ≤ length line.old.items + length name.now + length text.now + 2 }
    ensures room { OnErr result (256 < length line.old.items + length name.now + length text.now + 2) }
{
    push(line, name)?;
    push(line, "(")?;
    push_bytes(line, text)?;
    push(line, ")")
}
