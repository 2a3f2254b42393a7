//! Names of functions as words.
ghost use Rattle.std.specs.Prelude.{◌≡◌, true, map, string_bytes, IfOk, IfErr};
ghost use Rattle.std.specs.List.{All, list_all};
ghost use Rattle.clap.specs.Walk.{texts};
ghost use Rattle.asl_command_line.specs.Names.{is_name, is_name_byte, is_name_start};
ghost use Rattle.asl_command_line.specs.Reading.{IsEntriesFault};

use std::alloc::Global;

/// Why an argument's words are no names.
pub enum EntriesFault<'a> {
    /// This one is none.
    NoName(&'a str),
    /// Memory ran out.
    OutOfMemory,
}

/// Whether a name may begin with the byte.
fn is_name_start(byte: u8) -> bool
    ensures { result ≡ is_name_start byte }
{
    byte.is_ascii_alphabetic() || byte == b'_'
}

/// Whether a name may continue with the byte.
fn is_name_byte(byte: u8) -> bool
    ensures { result ≡ is_name_byte byte }
{
    byte.is_ascii_alphanumeric() || byte == b'_'
}

/// Whether a name may continue with the bytes.
fn are_name_bytes(bytes: &[u8]) -> bool
    ensures { result ≡ list_all is_name_byte bytes.now }
{
    bytes.iter().all(|byte| is_name_byte(*byte))
}

/// Whether the word is a name.
pub(crate) fn is_name(word: &str) -> bool
    ensures { result ≡ is_name word.now }
{
    match word.as_bytes().split_first() {
        Some((first, rest)) => is_name_start(*first) && are_name_bytes(rest),
        None => false,
    }
}

/// The names that are these words.
pub fn entries<'a>(alloc: Global, words: &[&'a str]) -> Result<Vec<String>, EntriesFault<'a>>
    ensures ok { IfOk result (λ entries. (map string_bytes entries.items ≡ texts words.now) × All (λ entry. is_name entry ≡ true) (map string_bytes entries.items)) }
    ensures err { IfErr result (IsEntriesFault (texts words.now)) }
{
    let mut entries = Vec::new(alloc);
    for word in words {
        if !is_name(word) {
            return Err(EntriesFault::NoName(word));
        }
        let Ok(entry) = String::from_str(alloc, word) else {
            return Err(EntriesFault::OutOfMemory);
        };
        if entries.push(entry).is_err() {
            return Err(EntriesFault::OutOfMemory);
        }
    }
    Ok(entries)
}
