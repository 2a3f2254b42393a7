//! Templates: texts with places for numbers.
ghost use Rattle.std.specs.Prelude.{◌≡◌, ℕ, ◌+◌, ◌<◌, ◌^◌, List, ◌∷◌, ◌++◌, IfOk, OnErr, OnOk, drop};
ghost use Rattle.asl_parallel_c.specs.Template.{filled, first_digits, repeated};

use crate::growth::Growth;
use itoa::Buffer;
use std::alloc::AllocError;

/// Adds the template, each `@` of it replaced by the next of the numbers.
pub(crate) fn fill<G: Growth>(
    growth: G,
    text: &mut Vec<u8>,
    template: &[u8],
    numbers: &[u32],
) -> Result<(), AllocError>
    ensures filled { OnOk result (text.new.items ≡ text.old.items ++ filled template.now numbers.now) }
    ensures growth { OnErr result (G.refused growth) }
{
    let mut rest = numbers;
    for byte in template {
        rest = put_next(growth, text, *byte, rest)?;
    }
    Ok(())
}

/// Adds the template for each of so many numbers, from the first on, each `@` of it replaced by the number.
pub(crate) fn repeat<G: Growth>(
    growth: G,
    text: &mut Vec<u8>,
    template: &[u8],
    first: u32,
    count: u32,
) -> Result<(), AllocError>
    requires { first + count < 2 ^ 32 }
    ensures repeated { OnOk result (text.new.items ≡ text.old.items ++ repeated template.now first count) }
    ensures growth { OnErr result (G.refused growth) }
{
    for number in first..first + count {
        fill(growth, text, template, &[number, number])?;
    }
    Ok(())
}

/// Adds the next byte of a template, or the first of the numbers, and answers which numbers are left.
fn put_next<'a, G: Growth>(
    growth: G,
    text: &mut Vec<u8>,
    byte: u8,
    numbers: &'a [u32],
) -> Result<&'a [u32], AllocError>
    ensures written { IfOk result (λ rest. (bytes : List ℕ)
        → text.new.items ++ filled bytes rest.now ≡ text.old.items ++ filled (byte ∷ bytes) numbers.entry.now) }
    ensures growth { OnErr result (G.refused growth) }
{
    if byte == b'@' {
        put_first(growth, text, numbers)?;
        return Ok(after_first(numbers));
    }
    growth.append(text, &[byte])?;
    Ok(numbers)
}

/// Adds the digits of the first number, if there is one.
fn put_first<G: Growth>(growth: G, text: &mut Vec<u8>, numbers: &[u32]) -> Result<(), AllocError>
    ensures written { OnOk result (text.new.items ≡ text.old.items ++ first_digits numbers.now) }
    ensures growth { OnErr result (G.refused growth) }
{
    let mut digits = Buffer::new();
    match numbers {
        [] => Ok(()),
        [first, ..] => growth.append(text, digits.format(*first).as_bytes()),
    }
}

/// The numbers after the first.
fn after_first(numbers: &[u32]) -> &[u32]
    ensures { result.now ≡ drop 1 numbers.now }
{
    match numbers {
        [] => numbers,
        [_, rest @ ..] => rest,
    }
}
