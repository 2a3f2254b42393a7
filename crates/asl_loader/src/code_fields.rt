//! The classes, functions and instructions at the front of the bytes of an image.
ghost use Rattle.std.specs.Prelude.{◌≡◌, ◌≤◌, length, take};
ghost use Rattle.std.specs.Int.{w16};
ghost use Rattle.asl_loader.specs.SharedFields.{Gives, number_at};
ghost use Rattle.asl_loader.specs.ImageFields.{Keeps, instr_at, function_at, items_at};

use crate::fault::Stop;
use crate::shared_fields::{byte_at, two_at, with_item};
use asl_code::{Function, Instr, Items, get_instr};
use std::alloc::Global;

/// The instruction in the next eight bytes, and the bytes behind them.
fn instr_at(bytes: &[u8]) -> Result<(Instr, &[u8]), Stop>
    ensures { Gives (λ x. (x.0, x.1.now)) result (instr_at bytes.now) }
{
    if bytes.len() < 8 {
        return Err(Stop::Short);
    }
    match get_instr(&eight_of(bytes)) {
        Ok(instr) => Ok((instr, &bytes[8..])),
        Err(place) => Err(Stop::Bad(bytes.len() - place)),
    }
}

/// The first eight bytes.
fn eight_of(bytes: &[u8]) -> [u8; 8]
    requires { 8 ≤ length bytes.now }
    ensures { result ≡ take 8 bytes.now }
{
    [
        bytes[0], bytes[1], bytes[2], bytes[3], bytes[4], bytes[5], bytes[6], bytes[7],
    ]
}

#[tactic(auto, unfolding(crate::specs::ImageFields::function_at))]
fn function_at(bytes: &[u8]) -> Result<(Function, &[u8]), Stop>
    ensures { Gives (λ x. (x.0, x.1.now)) result (function_at bytes.now) }
{
    let (params, rest) = byte_at(bytes)?;
    let (regs, rest) = byte_at(rest)?;
    let (len, rest) = two_at(rest)?;
    let len = u32::from(len);
    Ok((Function { params, regs, len }, rest))
}

/// So many classes of globals, or none where memory was refused, and the bytes behind them.
pub(crate) fn classes_of(
    alloc: Global,
    count: u16,
    bytes: &[u8],
) -> Result<(Option<Items<u16>>, &[u8]), Stop>
    ensures { Keeps (λ x. x.0) (λ x. x.1.now) result (items_at (number_at w16) count bytes.now) }
{
    let mut classes = Some(Items::new(alloc));
    let mut rest = bytes;
    for _ in 0..count {
        let (class, after) = two_at(rest)?;
        classes = with_item(classes, class);
        rest = after;
    }
    Ok((classes, rest))
}

/// So many functions, or none where memory was refused, and the bytes behind them.
pub(crate) fn functions_of(
    alloc: Global,
    count: u16,
    bytes: &[u8],
) -> Result<(Option<Items<Function>>, &[u8]), Stop>
    ensures { Keeps (λ x. x.0) (λ x. x.1.now) result (items_at function_at count bytes.now) }
{
    let mut functions = Some(Items::new(alloc));
    let mut rest = bytes;
    for _ in 0..count {
        let (function, after) = function_at(rest)?;
        functions = with_item(functions, function);
        rest = after;
    }
    Ok((functions, rest))
}

/// So many instructions, or none where memory was refused, and the bytes behind them.
pub(crate) fn code_of(
    alloc: Global,
    count: u16,
    bytes: &[u8],
) -> Result<(Option<Items<Instr>>, &[u8]), Stop>
    ensures { Keeps (λ x. x.0) (λ x. x.1.now) result (items_at instr_at count bytes.now) }
{
    let mut code = Some(Items::new(alloc));
    let mut rest = bytes;
    for _ in 0..count {
        let (instr, after) = instr_at(rest)?;
        code = with_item(code, instr);
        rest = after;
    }
    Ok((code, rest))
}
