//! Lines and columns of a text.

ghost use Rattle.std.specs.Prelude.{◌≡◌, take, min, length};
ghost use Rattle.asl_grammar.specs.Lex.{is_blank};
ghost use Rattle.asl_diagnose_text.specs.Position.{IsColumn, IsEndBefore, IsLineStart, line_behind};

/// The bytes before a place.
fn before(text: &[u8], at: usize) -> &[u8]
    ensures { result.now ≡ take at text.now }
{
    &text[..at.min(text.len())]
}

/// The line of a place, from 1.
pub fn line(text: &[u8], at: usize) -> usize
    ensures { result ≡ line_behind (take at text.now) }
{
    let feeds = before(text, at)
        .iter()
        .filter(|byte| **byte == b'\n')
        .count();
    feeds + 1
}

/// Where the last line of some bytes begins: after their last line feed, or at their front.
fn last_line(bytes: &[u8]) -> usize
    ensures { IsLineStart bytes.now result }
{
    let mut start = 0;
    for (i, byte) in bytes.iter().enumerate() {
        if *byte == b'\n' {
            start = i + 1;
        }
    }
    start
}

/// Where the line of a place begins: after the last line feed before it, or at the front of the text.
pub fn line_start(text: &[u8], at: usize) -> usize
    ensures { IsLineStart (take at text.now) result }
{
    last_line(before(text, at))
}

/// The column of a place, in bytes from 1.
pub fn column(text: &[u8], at: usize) -> usize
    ensures { IsColumn (take at text.now) result }
{
    let bytes = before(text, at);
    let start = last_line(bytes);
    bytes.len() - start + 1
}

/// Whether a byte stands between tokens alone.
fn is_blank(byte: u8) -> bool
    ensures { result ≡ is_blank byte }
{
    byte == b' ' || byte == b'\t' || byte == b'\n' || byte == b'\r'
}

/// Where the last token before a place ends: behind the last byte before it that is no blank.
pub fn end_before(text: &[u8], at: usize) -> usize
    ensures { IsEndBefore text.now at result }
{
    let mut end = at.min(text.len());
    while end > 0 && is_blank(text[end - 1]) {
        end -= 1;
    }
    end
}
