//! Names in the text.
ghost use Rattle.std.specs.Prelude.{◌≡◌, ◌++◌, None, Some, IsTrue, MatchOption, OnErr, OnOk};
ghost use Rattle.std.specs.List.{list_all};
ghost use Rattle.asl_parallel_c.specs.Names.{callee, comment, comment_at, comment_of, is_word_byte, local_comment, name_in, name_of};

use crate::growth::Growth;
use crate::options::{Extern, Options};
use crate::template::fill;
use std::alloc::AllocError;

/// The name of the first that stands for the function, if one does.
pub(crate) fn extern_name(externs: &[Extern], function: u16) -> Option<&str>
    ensures { MatchOption result (name_in externs.now function ≡ None) (λ name. name_in externs.now function ≡ Some name.now) }
{
    for other in externs {
        if other.function == function {
            return Some(other.name.as_str());
        }
    }
    None
}

/// The name of its own that the function has in C: that of the C function in its place, or by which C calls it.
pub(crate) fn own_name(options: &Options, function: u16) -> Option<&str>
    ensures { MatchOption result (name_of options.now function ≡ None) (λ name. name_of options.now function ≡ Some name.now) }
{
    match extern_name(options.externs.as_slice(), function) {
        Some(name) => Some(name),
        None => extern_name(options.entries.as_slice(), function),
    }
}

/// Adds the C name of a function: its own, else `aslr_f` and its number.
pub(crate) fn put_callee<G: Growth>(
    growth: G,
    text: &mut Vec<u8>,
    options: &Options,
    function: u16,
) -> Result<(), AllocError>
    ensures written { OnOk result (text.new.items ≡ text.old.items ++ callee options.now function) }
    ensures growth { OnErr result (G.refused growth) }
{
    match own_name(options, function) {
        Some(name) => growth.append(text, name.as_bytes()),
        None => fill(growth, text, b"aslr_f@", &[u32::from(function)]),
    }
}

/// Whether a name has only letters, digits and `_`, so that it ends no comment.
fn is_word(name: &[u8]) -> bool
    ensures { result ≡ list_all is_word_byte name.now }
{
    name.iter().all(|byte| is_word_byte(*byte))
}

/// Whether it is a letter, a digit or `_`.
fn is_word_byte(byte: u8) -> bool
    ensures { result ≡ is_word_byte byte }
{
    byte.is_ascii_alphanumeric() || byte == b'_'
}

/// Adds the comment of a function's name, where it is known.
pub(crate) fn put_comment<G: Growth>(
    growth: G,
    text: &mut Vec<u8>,
    options: &Options,
    function: u16,
) -> Result<(), AllocError>
    ensures written { OnOk result (text.new.items ≡ text.old.items ++ comment options.now function) }
    ensures growth { OnErr result (G.refused growth) }
{
    put_comment_at(growth, text, options.names.as_slice(), u32::from(function))
}

/// Adds the comment of a local's name, where it is known.
pub(crate) fn put_local_comment<G: Growth>(
    growth: G,
    text: &mut Vec<u8>,
    options: &Options,
    function: u16,
    register: u32,
) -> Result<(), AllocError>
    ensures written { OnOk result (text.new.items ≡ text.old.items ++ local_comment options.now function register) }
    ensures growth { OnErr result (G.refused growth) }
{
    match options.locals.get(usize::from(function)) {
        Some(names) => put_comment_at(growth, text, names.as_slice(), register),
        None => Ok(()),
    }
}

/// Adds the comment of the name of this number, where there is one.
fn put_comment_at<G: Growth>(
    growth: G,
    text: &mut Vec<u8>,
    names: &[String],
    number: u32,
) -> Result<(), AllocError>
    ensures written { OnOk result (text.new.items ≡ text.old.items ++ comment_at names.now number) }
    ensures growth { OnErr result (G.refused growth) }
{
    match names.get(number as usize) {
        Some(name) => put_name(growth, text, name.as_bytes()),
        None => Ok(()),
    }
}

/// Adds the comment of a name that is a word.
fn put_name<G: Growth>(growth: G, text: &mut Vec<u8>, name: &[u8]) -> Result<(), AllocError>
    ensures written { OnOk result (text.new.items ≡ text.old.items ++ comment_of name.now) }
    ensures growth { OnErr result (G.refused growth) }
{
    if is_word(name) {
        growth.append(text, b" /* ")?;
        growth.append(text, name)?;
        return growth.append(text, b" */");
    }
    Ok(())
}
