//! Bytes of a text, written so that a terminal shows each as one character.

ghost use Rattle.std.specs.Prelude.{◌≡◌, ◌<◌, ◌++◌, map, OnOk, string_bytes};
ghost use Rattle.asl_diagnose_text.specs.Shown.{below, quoted, shown};

use std::alloc::AllocError;

/// The character that is shown for a byte: itself, where it is printable ASCII or a tab.
fn shown(byte: u8) -> char
    ensures shown { result ≡ shown byte }
    ensures ascii { result < 128 }
{
    if byte == b'\t' || b' ' <= byte && byte <= b'~' {
        char::from(byte)
    } else {
        '?'
    }
}

/// Adds bytes.
pub fn push_bytes(message: &mut String, bytes: &[u8]) -> Result<(), AllocError>
    ensures { OnOk result (string_bytes message.new ≡ string_bytes message.old ++ map shown bytes.now) }
{
    for byte in bytes {
        message.push(shown(*byte))?;
    }
    Ok(())
}

/// Adds bytes between backticks, at most forty of them.
pub fn push_quoted(message: &mut String, bytes: &[u8]) -> Result<(), AllocError>
    ensures { OnOk result (string_bytes message.new ≡ string_bytes message.old ++ quoted bytes.now) }
{
    let shown = &bytes[..bytes.len().min(40)];
    message.push_str("`")?;
    push_bytes(message, shown)?;
    message.push_str(if shown.len() < bytes.len() {
        "..`"
    } else {
        "`"
    })
}

/// What stands below a byte: a tab below a tab, else a blank.
fn below(byte: u8) -> char
    ensures below { result ≡ below byte }
    ensures ascii { result < 128 }
{
    if byte == b'\t' { '\t' } else { ' ' }
}

/// Adds a blank for each byte, and a tab for each tab, so that what follows stands below what follows the bytes.
pub fn push_blanks(message: &mut String, bytes: &[u8]) -> Result<(), AllocError>
    ensures { OnOk result (string_bytes message.new ≡ string_bytes message.old ++ map below bytes.now) }
{
    for byte in bytes {
        message.push(below(*byte))?;
    }
    Ok(())
}
