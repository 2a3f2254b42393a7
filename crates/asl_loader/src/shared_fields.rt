//! Readers and writers of the parts that images and journals share. A reader answers what stands at the front of the bytes and
//! the bytes after it, or what stopped it. Where memory is refused the reading continues and keeps nothing (`with_item`), so that
//! running out of memory hides nothing that is wrong with the bytes. A writer adds the part's bytes to those before; where memory is
//! refused, it adds none.

ghost use Rattle.std.specs.Prelude.{◌≡◌, ◌<◌, ◌^◌, ℕ, List, [], ◌∷◌, ◌++◌, length, IfOk, OnOk, OnErr};
ghost use Rattle.std.specs.Int.{w16, w32};
ghost use Rattle.asl_code.specs.declared.value.Effect.{Effect};
ghost use Rattle.asl_loader.specs.Bytes.{one, two, effect_field};
ghost use Rattle.asl_loader.specs.SharedFields.{Gives, IsKept, Writes, byte_at, number_at, below_at, letters_at, version_at, effect_at};

use crate::fault::Stop;
use asl_code::{Effect, Items, is_version};
use std::alloc::AllocError;

/// The field at the front of the bytes is bad.
pub fn bad(bytes: &[u8]) -> Stop
    ensures { result ≡ Stop.Bad (length bytes.now) }
{
    Stop::Bad(bytes.len())
}

/// A byte.
///
/// # Errors
///
/// `Stop::Short` where there is none.
#[tactic(auto, unfolding(crate::specs::SharedFields::byte_at))]
pub fn byte_at(bytes: &[u8]) -> Result<(u8, &[u8]), Stop>
    ensures { Gives (λ x. (x.0, x.1.now)) result (byte_at bytes.now) }
{
    match bytes {
        [] => Err(Stop::Short),
        [first, rest @ ..] => Ok((*first, rest)),
    }
}

/// A number of two bytes, the high one first.
///
/// # Errors
///
/// `Stop::Short` where the bytes end before it does.
pub fn two_at(bytes: &[u8]) -> Result<(u16, &[u8]), Stop>
    ensures { Gives (λ x. (x.0, x.1.now)) result (number_at w16 bytes.now) }
{
    if bytes.len() < 2 {
        return Err(Stop::Short);
    }
    let (front, rest) = bytes.split_at(2);
    Ok((u16::from_be_bytes([front[0], front[1]]), rest))
}

/// A number of four bytes, the highest first.
///
/// # Errors
///
/// `Stop::Short` where the bytes end before it does.
pub fn four_at(bytes: &[u8]) -> Result<(u32, &[u8]), Stop>
    ensures { Gives (λ x. (x.0, x.1.now)) result (number_at w32 bytes.now) }
{
    if bytes.len() < 4 {
        return Err(Stop::Short);
    }
    let (front, rest) = bytes.split_at(4);
    let number = u32::from_be_bytes([front[0], front[1], front[2], front[3]]);
    Ok((number, rest))
}

/// The four letters, as a number; others are bad.
///
/// # Errors
///
/// `Stop::Short` where the bytes end before it does; `Stop::Bad`, with how many bytes are left at its front, for other bytes.
#[tactic(auto, unfolding(crate::specs::SharedFields::letters_at))]
pub fn letters_at(letters: u32, bytes: &[u8]) -> Result<(u32, &[u8]), Stop>
    ensures { Gives (λ x. (x.0, x.1.now)) result (letters_at letters bytes.now) }
{
    let (number, rest) = four_at(bytes)?;
    if number == letters {
        Ok((number, rest))
    } else {
        Err(bad(bytes))
    }
}

/// A version that there is; another is bad.
///
/// # Errors
///
/// `Stop::Short` where the bytes end before it does; `Stop::Bad`, with how many bytes are left at its front, for another.
#[tactic(auto, unfolding(crate::specs::SharedFields::version_at))]
pub fn version_at(bytes: &[u8]) -> Result<(u16, &[u8]), Stop>
    ensures { Gives (λ x. (x.0, x.1.now)) result (version_at bytes.now) }
{
    let (version, rest) = two_at(bytes)?;
    if is_version(u32::from(version)) {
        Ok((version, rest))
    } else {
        Err(bad(bytes))
    }
}

/// A byte below the limit; another is bad.
///
/// # Errors
///
/// `Stop::Short` where there is none; `Stop::Bad`, with how many bytes are left at its front, for another.
#[tactic(auto, unfolding(crate::specs::SharedFields::below_at))]
pub fn below_at(limit: u32, bytes: &[u8]) -> Result<(u8, &[u8]), Stop>
    ensures read { Gives (λ x. (x.0, x.1.now)) result (below_at limit bytes.now) }
    ensures below { IfOk result (λ x. x.0 < limit) }
{
    let (byte, rest) = byte_at(bytes)?;
    if u32::from(byte) < limit {
        Ok((byte, rest))
    } else {
        Err(bad(bytes))
    }
}

/// An effect: 0 reads, 1 writes.
///
/// # Errors
///
/// `Stop::Short` where there is none; `Stop::Bad`, with how many bytes are left at its front, for another byte.
#[tactic(auto, unfolding(crate::specs::SharedFields::effect_at))]
pub fn effect_at(bytes: &[u8]) -> Result<(Effect, &[u8]), Stop>
    ensures { Gives (λ x. (x.0, x.1.now)) result (effect_at bytes.now) }
{
    let (effect, rest) = below_at(2, bytes)?;
    if effect == 0 {
        Ok((Effect::Read, rest))
    } else {
        Ok((Effect::Write, rest))
    }
}

/// The items with one more, as long as there is memory for all.
pub fn with_item<T: Drop>(kept: Option<Items<T>>, item: T) -> Option<Items<T>>
    ensures { (front : List T) → IsKept kept front → IsKept result (front ++ item ∷ []) }
{
    let mut items = kept?;
    match items.push(item) {
        Ok(()) => Some(items),
        Err(_refused) => None,
    }
}

/// Writes a byte.
///
/// # Errors
/// An allocation failed.
pub fn put_byte(out: &mut Vec<u8>, number: u8) -> Result<(), AllocError>
    ensures added { OnOk result (Writes ℕ (λ n. n < 256) (λ n. one n ∷ []) out.old.items out.new.items number) }
    ensures kept { OnErr result (out.new.items ≡ out.old.items) }
{
    out.push(number)?;
    Ok(())
}

/// Writes a number of two bytes, the high one first.
///
/// # Errors
/// An allocation failed.
pub fn put_two(out: &mut Vec<u8>, number: u16) -> Result<(), AllocError>
    ensures added { OnOk result (Writes ℕ (λ n. n < 2 ^ 16) (λ n. two n ∷ []) out.old.items out.new.items number) }
    ensures kept { OnErr result (out.new.items ≡ out.old.items) }
{
    out.extend_from_slice(&number.to_be_bytes())
}

/// Writes an effect: 0 reads, 1 writes.
///
/// # Errors
/// An allocation failed.
pub fn put_effect(out: &mut Vec<u8>, effect: Effect) -> Result<(), AllocError>
    ensures added { OnOk result (Writes Effect (λ e. Unit {0}) (λ e. effect_field e ∷ []) out.old.items out.new.items effect) }
    ensures kept { OnErr result (out.new.items ≡ out.old.items) }
{
    match effect {
        Effect::Read => put_byte(out, 0),
        Effect::Write => put_byte(out, 1),
    }
}
