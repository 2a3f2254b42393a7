//! From a source to the document of its lists.
ghost use Rattle.std.specs.Prelude.{◌≤◌, map, IfOk, IfErr, IfSome, string_bytes};
ghost use Rattle.asl_explain.specs.Opened.{IsOpened};
ghost use Rattle.asl_lists.specs.Listed.{AreFacts, HasEntries, HasRefusedEntries, IsDocument, IsListed, IsRefusedLists, IsRefusedWhole, IsToldFor};

use crate::document::document_text;
use crate::facts::Facts;
use crate::fault::ListsFault;
use crate::greatest::{Found, explained_at};
use crate::whole::with_entries;
use asl_lower::lower;
use asl_map::{line_table, map_of};
use asl_points_to::classes;
use asl_syntax::parse;
use std::alloc::{AllocError, Global};

/// What is known of an accepted source, which may be refused only where memory runs out.
fn facts_of(alloc: Global, source: &[u8]) -> Result<Facts, AllocError>
    ensures { IfOk result (AreFacts source.now) }
{
    let Ok(map) = map_of(alloc, source) else {
        return Err(AllocError);
    };
    let Ok(ast) = parse(alloc, source) else {
        return Err(AllocError);
    };
    let Ok(lowering) = lower(alloc, &ast) else {
        return Err(AllocError);
    };
    let Ok(classes) = classes(alloc, &lowering) else {
        return Err(AllocError);
    };
    Ok(Facts {
        lines: line_table(alloc, source)?,
        map,
        lowering,
        classes,
    })
}

/// The document of an explained source, the last part of which calls its entries.
fn told(alloc: Global, source: &[u8], found: &Found, driver: &str) -> Result<String, AllocError>
    requires { IsOpened source.now found.now.k found.now.opened }
    ensures { IfOk result (λ text. IsDocument source.now found.now.k driver.now (string_bytes text)) }
{
    let facts = facts_of(alloc, source)?;
    document_text(alloc, &facts, found.k, driver, &found.opened)
}

/// The document of a source, the last part of which calls its entries.
fn listed_whole(
    alloc: Global,
    source: &[u8],
    k: Option<u32>,
    driver: &str,
) -> Result<String, ListsFault>
    requires { IfSome k (λ n. n ≤ 8) }
    ensures told { IfOk result (λ text. IsToldFor source.now k driver.now (string_bytes text)) }
    ensures refused { IfErr result (IsRefusedWhole source.now k) }
{
    let found = match explained_at(alloc, source, k) {
        Ok(found) => found,
        Err(fault) => return Err(ListsFault::Refused(fault)),
    };
    match told(alloc, source, &found, driver) {
        Ok(text) => Ok(text),
        Err(_) => Err(ListsFault::OutOfMemory),
    }
}

/// The document of the lists that are inferred for a source, with paths of at most `k` operations, or with the longest with which no
/// region needs too many locks. Where entries are named, the source has no `main`, and one is added that calls them.
///
/// # Errors
///
/// The first fault of the source, as `compile` answers it; `OutOfMemory` where an allocation failed.
pub fn listed(
    alloc: Global,
    source: &[u8],
    k: Option<u32>,
    entries: &[String],
) -> Result<String, ListsFault>
    requires { IfSome k (λ n. n ≤ 8) }
    ensures told { IfOk result (λ text. IsListed source.now k (map string_bytes entries.now) (string_bytes text)) }
    ensures refused { IfErr result (IsRefusedLists source.now k (map string_bytes entries.now)) }
{
    if entries.is_empty() {
        return listed_whole(alloc, source, k, "");
    }
    listed_entries(alloc, source, k, entries)
}

/// The document of a source with entries.
fn listed_entries(
    alloc: Global,
    source: &[u8],
    k: Option<u32>,
    names: &[String],
) -> Result<String, ListsFault>
    requires { IfSome k (λ n. n ≤ 8) }
    ensures told { IfOk result (λ text. HasEntries source.now k (map string_bytes names.now) (string_bytes text)) }
    ensures refused { IfErr result (HasRefusedEntries source.now k (map string_bytes names.now)) }
{
    let whole = with_entries(alloc, source, names)?;
    listed_whole(alloc, &whole.text, k, whole.driver.as_str())
}
