//! The text that calls the entries of a source which has no `main` of its own.
ghost use Rattle.std.specs.Prelude.{◌≡◌, ◌++◌, ℕ, Some, false, true, map, slice_get, IfOk, OnOk, string_bytes};
ghost use Rattle.asl_syntax.specs.View.{item_of};
ghost use Rattle.asl_syntax.specs.Rules.{parameter_counts, differs};
ghost use Rattle.asl_lists.specs.Numbered.{numbered};
ghost use Rattle.asl_lists.specs.Driver.{objects, arguments, caller, call, driver, bare_main, AreEntries};

use asl_syntax::tree::Item;
use asl_syntax::{SyntaxFault, parse};
use std::alloc::{AllocError, Global};
use std::fmt::Write;

/// A function that is called from outside.
#[derive(Clone, Copy)]
pub struct Entry<'a> {
    /// Its name.
    pub name: &'a str,
    /// How many parameters it has.
    pub parameters: usize,
}

/// The objects that are made for so many parameters.
fn objects(parameters: usize) -> &'static str
    ensures { result.now ≡ objects parameters }
{
    match parameters {
        0 => "",
        1 => "  a = new 255;\n",
        2 => "  a = new 255;\n  b = new 255;\n",
        3 => "  a = new 255;\n  b = new 255;\n  c = new 255;\n",
        _ => "  a = new 255;\n  b = new 255;\n  c = new 255;\n  d = new 255;\n",
    }
}

/// So many arguments.
fn arguments(parameters: usize) -> &'static str
    ensures { result.now ≡ arguments parameters }
{
    match parameters {
        0 => "",
        1 => "a",
        2 => "a, b",
        3 => "a, b, c",
        _ => "a, b, c, d",
    }
}

/// Adds the function that calls an entry.
fn push_caller(text: &mut String, number: usize, entry: &Entry<'_>) -> Result<(), AllocError>
    ensures { OnOk result (string_bytes text.new ≡ string_bytes text.old ++ caller number entry.now) }
{
    let name = entry.name;
    let objects = objects(entry.parameters);
    let arguments = arguments(entry.parameters);
    write!(
        text,
        "fn _entry{number}() {{\n{objects}  r = {name}({arguments});\n  z = 0;\n  return z;\n}}\n"
    )
}

/// Adds the functions that call the entries.
fn push_callers(text: &mut String, entries: &[Entry<'_>]) -> Result<(), AllocError>
    ensures { OnOk result (string_bytes text.new ≡ string_bytes text.old ++ numbered caller 0 entries.now) }
{
    for (number, entry) in entries.iter().enumerate() {
        push_caller(text, number, entry)?;
    }
    Ok(())
}

/// Adds a call of `main`.
fn push_call(text: &mut String, number: usize) -> Result<(), AllocError>
    ensures { OnOk result ((e : Entry) → string_bytes text.new ≡ string_bytes text.old ++ call number e) }
{
    write!(text, "  if t {{ r = _entry{number}(); }}\n")
}

/// Adds the calls of `main`.
fn push_calls(text: &mut String, entries: &[Entry<'_>]) -> Result<(), AllocError>
    ensures { OnOk result (string_bytes text.new ≡ string_bytes text.old ++ numbered call 0 entries.now) }
{
    for (number, _) in entries.iter().enumerate() {
        push_call(text, number)?;
    }
    Ok(())
}

/// What is added to a source with these entries.
pub fn driver(alloc: Global, entries: &[Entry<'_>]) -> Result<String, AllocError>
    ensures { IfOk result (λ text. string_bytes text ≡ driver entries.now) }
{
    let mut text = String::new(alloc);
    text.push_str("\n")?;
    push_callers(&mut text, entries)?;
    text.push_str("fn main(t) {\n  r = t;\n")?;
    push_calls(&mut text, entries)?;
    text.push_str("  return r;\n}\n")?;
    Ok(text)
}

/// How many parameters the function of a name has, if it is one of the items.
fn parameters_of(items: &[Item<'_>], name: &str) -> Option<usize>
    ensures { result ≡ parameter_counts (map item_of items.now) name.now }
{
    for item in items {
        if let Item::Function(function) = item {
            if function.name.as_slice() == name.as_bytes() {
                return Some(function.parameters.len());
            }
        }
    }
    None
}

/// The entry of a name, whose function is perhaps one of the items.
fn entry_of<'a>(items: &[Item<'_>], name: &'a str) -> Entry<'a>
    ensures named { result.name.now ≡ name.now }
    ensures fits { differs (parameter_counts (map item_of items.now) name.now) result.parameters ≡ false }
{
    let parameters = match parameters_of(items, name) {
        Some(count) => count,
        None => 0,
    };
    Entry { name, parameters }
}

/// The source with a `main` that calls nothing.
fn with_main(alloc: Global, source: &[u8]) -> Result<Vec<u8>, AllocError>
    ensures { IfOk result (λ whole. whole.items ≡ source.now ++ bare_main) }
{
    let mut whole = source.to_vec(alloc)?;
    whole.extend_from_slice("\nfn main(t) {\n  return t;\n}\n".as_bytes())?;
    Ok(whole)
}

/// The entries of a source, by the parameters of the functions of these names.
pub fn entries_of<'a>(
    alloc: Global,
    source: &[u8],
    names: &'a [String],
) -> Result<Vec<Entry<'a>>, AllocError>
    ensures { IfOk result (λ entries. AreEntries source.now (map string_bytes names.now) entries.items) }
{
    let whole = with_main(alloc, source)?;
    match parse(alloc, &whole) {
        Ok(ast) => named_entries(alloc, ast.items(), names),
        Err(fault) if is_lack(&fault) => Err(AllocError),
        Err(_) => named_entries(alloc, &[], names),
    }
}

/// Whether the refusal says that memory ran out.
fn is_lack(fault: &SyntaxFault) -> bool
    ensures { fault.now ≡ SyntaxFault.OutOfMemory → result ≡ true }
{
    matches!(fault, SyntaxFault::OutOfMemory)
}

/// The entries of these names.
fn named_entries<'a>(
    alloc: Global,
    items: &[Item<'_>],
    names: &'a [String],
) -> Result<Vec<Entry<'a>>, AllocError>
    ensures named { IfOk result (λ entries. map (λ (e : Entry). e.name.now) entries.items ≡ map string_bytes names.now) }
    ensures fit { IfOk result (λ entries. (n : ℕ) (e : Entry) → slice_get entries.items n ≡ Some e → differs (parameter_counts (map item_of items.now) e.name.now) e.parameters ≡ false) }
{
    let mut entries = Vec::new(alloc);
    for name in names {
        entries.push(entry_of(items, name.as_str()))?;
    }
    Ok(entries)
}
