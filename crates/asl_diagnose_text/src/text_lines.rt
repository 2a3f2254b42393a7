//! The lines of an assembly text, and the words of a line.

ghost use Rattle.std.specs.Prelude.{◌≡◌, ◌+◌, ◌<◌, ◌≤◌, drop, length, IfSome, IfNone};
ghost use Rattle.std.specs.List.{prefix_len};
ghost use Rattle.asl_assembler.specs.Words.{is_separator, words_of};
ghost use Rattle.asl_diagnose_text.specs.Position.{first_of, line_behind, BeginsLine};
ghost use Rattle.asl_assembler.specs.Reading.{is_line_byte, is_word_byte};

/// A line of a text: its number from 1, and its bytes.
#[derive(Clone, Copy)]
pub struct TextLine<'t> {
    pub number: usize,
    pub line: &'t [u8],
}

/// The lines that are left.
#[derive(Clone, Copy)]
pub struct TextLines<'t> {
    rest: &'t [u8],
    number: usize,
}

/// How many bytes stand before the first line feed.
fn line_len(text: &[u8]) -> usize
    ensures { result ≡ prefix_len is_line_byte text.now }
{
    text.iter().take_while(|byte| **byte != b'\n').count()
}

/// What stands after the first byte.
fn after_first(bytes: &[u8]) -> &[u8]
    ensures { result.now ≡ drop 1 bytes.now }
{
    match bytes {
        [] => bytes,
        [_, rest @ ..] => rest,
    }
}

impl<'t> TextLines<'t> {
    ghost use Rattle.asl_assembler.specs.Words.{lines_of};
    ghost use Rattle.asl_diagnose_text.specs.TextLines.{lines_left, rows_left, IsNextLine};

    /// The lines of a text.
    pub fn new(text: &'t [u8]) -> TextLines<'t>
        ensures lines { lines_left result ≡ lines_of text.now }
        ensures bytes { rows_left result ≡ length text.now }
    {
        TextLines {
            rest: text,
            number: 0,
        }
    }

    /// The next line.
    pub fn next(&mut self) -> Option<TextLine<'t>>
        ensures { IsNextLine self.old result self.new }
    {
        if self.rest.is_empty() {
            return None;
        }
        let (line, rest) = self.rest.split_at(line_len(self.rest));
        self.number = self.number.saturating_add(1);
        let row = TextLine {
            number: self.number,
            line,
        };
        self.rest = after_first(rest);
        Some(row)
    }
}

/// Whether a byte stands between words.
fn is_gap(byte: u8) -> bool
    ensures { result ≡ is_separator byte }
{
    byte == b' ' || byte == b'\t' || byte == b',' || byte == b'\r'
}

/// How many bytes between words a line begins with.
pub fn gap_len(line: &[u8]) -> usize
    ensures { result ≡ prefix_len is_separator line.now }
{
    line.iter().take_while(|byte| is_gap(**byte)).count()
}

/// How many bytes of a word a line begins with.
fn word_len(line: &[u8]) -> usize
    ensures { result ≡ prefix_len is_word_byte line.now }
{
    line.iter().take_while(|byte| !is_gap(**byte)).count()
}

/// The first word of a line, which is empty where the line has none, and the line after it.
pub fn first_word(line: &[u8]) -> (&[u8], &[u8])
    ensures { result.0.now ≡ first_of (words_of line.now) }
{
    let (_, words) = line.split_at(gap_len(line));
    words.split_at(word_len(words))
}

/// The word of this number in a line, from 0; empty where there is none.
pub fn word(line: &[u8], number: usize) -> &[u8] {
    let mut rest = line;
    for _ in 0..number {
        let (_, after) = first_word(rest);
        rest = after;
    }
    let (found, _) = first_word(rest);
    found
}

/// The value of the digits of a word, of which the first bytes are none: of `r12` with 1 it is 12.
pub fn number_in(word: &[u8], marks: usize) -> usize {
    let mut value: usize = 0;
    for (i, byte) in word.iter().enumerate() {
        if i >= marks {
            value = value
                .saturating_mul(10)
                .saturating_add(usize::from(byte.saturating_sub(b'0')));
        }
    }
    value
}

/// Where the line of this number begins, if there are so many line feeds before.
pub fn line_begin(text: &[u8], number: usize) -> Option<usize>
    ensures some { IfSome result (BeginsLine text.now number) }
    ensures none { IfNone result (0 < number → line_behind text.now < number) }
{
    if number == 1 {
        return Some(0);
    }
    let mut line: usize = 1;
    for (i, byte) in text.iter().enumerate() {
        if *byte == b'\n' {
            line += 1;
            if line == number {
                return Some(i + 1);
            }
        }
    }
    None
}

/// The first byte from the begin of a line on that is no blank.
pub fn front(text: &[u8], start: usize) -> usize
    requires { start ≤ length text.now }
    ensures { result ≡ start + prefix_len is_separator (drop start text.now) }
{
    let (_, rest) = text.split_at(start);
    start + gap_len(rest)
}
