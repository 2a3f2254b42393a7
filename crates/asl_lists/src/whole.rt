//! A source without `main`, with what calls its entries.
ghost use Rattle.std.specs.Prelude.{◌≡◌, ◌++◌, map, IfOk, string_bytes};
ghost use Rattle.asl_lists.specs.Driver.{IsWhole};

use crate::driver::{driver, entries_of};
use std::alloc::{AllocError, Global};

/// A source with what calls its entries.
#[derive(Drop)]
pub struct Whole {
    /// The source, and behind it what calls its entries.
    pub text: Vec<u8>,
    /// What calls its entries.
    pub driver: String,
}

/// The source, with what calls its functions of these names behind it: for each a function `_entryN`, which makes a new object for each
/// argument, and a `main` that calls these under a branch. Each has as many arguments as the function has parameters in the source; where
/// the source has no such function, none.
///
/// # Errors
///
/// An allocation failed.
pub fn with_entries(alloc: Global, source: &[u8], names: &[String]) -> Result<Whole, AllocError>
    ensures { IfOk result (IsWhole source.now (map string_bytes names.now)) }
{
    let entries = entries_of(alloc, source, names)?;
    let driver = driver(alloc, &entries)?;
    let text = joined(alloc, source, driver.as_str())?;
    Ok(Whole { text, driver })
}

/// The source, with what calls its entries behind it.
fn joined(alloc: Global, source: &[u8], driver: &str) -> Result<Vec<u8>, AllocError>
    ensures { IfOk result (λ whole. whole.items ≡ source.now ++ driver.now) }
{
    let mut whole = Vec::with_capacity(alloc, source.len())?;
    whole.extend_from_slice(source)?;
    whole.extend_from_slice(driver.as_bytes())?;
    Ok(whole)
}
