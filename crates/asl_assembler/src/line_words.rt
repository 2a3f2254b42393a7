//! The lines of a text and the words of a line.

ghost use Rattle.std.specs.Prelude.{◌≡◌, ◌<◌, [], ◌∷◌, length, IfSome, MatchOption, ◌||◌, ◌==◌};
ghost use Rattle.std.specs.List.{prefix_len};
ghost use Rattle.std.specs.Option.{option_map};
ghost use Rattle.asl_assembler.specs.Words.{is_separator, words_of, lines_of};
ghost use Rattle.asl_assembler.specs.Reading.{no_word, one_word, two_words, three_words, is_line_byte, is_word_byte};

/// Whether the byte stands between words.
fn is_gap(byte: u8) -> bool
    ensures { result ≡ is_separator byte }
{
    byte == b' ' || byte == b'\t' || byte == b',' || byte == b'\r'
}

/// How many separators the line begins with.
fn gap_len(line: &[u8]) -> usize
    ensures { result ≡ prefix_len is_separator line.now }
{
    line.iter().take_while(|byte| is_gap(**byte)).count()
}

/// How many bytes of a word the line begins with.
fn word_len(line: &[u8]) -> usize
    ensures { result ≡ prefix_len is_word_byte line.now }
{
    line.iter().take_while(|byte| !is_gap(**byte)).count()
}

/// How many bytes stand before the first line feed.
fn line_len(text: &[u8]) -> usize
    ensures { result ≡ prefix_len is_line_byte text.now }
{
    text.iter().take_while(|byte| **byte != b'\n').count()
}

/// The first line of a text that is not empty, and the text after it.
pub(crate) fn split_line(text: &[u8]) -> (&[u8], &[u8])
    requires { 0 < length text.now }
    ensures lines { lines_of text.now ≡ result.0.now ∷ lines_of result.1.now }
    ensures shorter { length result.1.now < length text.now }
{
    let (line, rest) = text.split_at(line_len(text));
    match rest {
        [] => (line, rest),
        [_, after @ ..] => (line, after),
    }
}

/// The first word of a line, and the line after it.
#[inline(always)]
pub(crate) fn next_word(line: &[u8]) -> Option<(&[u8], &[u8])>
    ensures words { MatchOption result (words_of line.now ≡ []) (λ x. words_of line.now ≡ x.0.now ∷ words_of x.1.now) }
    ensures shorter { IfSome result (λ x. length x.1.now < length line.now) }
{
    let (_, rest) = line.split_at(gap_len(line));
    if rest.is_empty() {
        return None;
    }
    Some(rest.split_at(word_len(rest)))
}

/// Whether the line has no word.
pub(crate) fn no_word_in(line: &[u8]) -> Option<()>
    ensures { result ≡ no_word (words_of line.now) }
{
    match next_word(line) {
        Some(_) => None,
        None => Some(()),
    }
}

/// The one word of a line.
#[inline(always)]
pub(crate) fn one_word_in(line: &[u8]) -> Option<&[u8]>
    ensures { option_map (λ x. x.now) result ≡ one_word (words_of line.now) }
{
    let (first, rest) = next_word(line)?;
    no_word_in(rest)?;
    Some(first)
}

/// The two words of a line.
#[inline(always)]
pub(crate) fn two_words_in(line: &[u8]) -> Option<(&[u8], &[u8])>
    ensures { option_map (λ x. (x.0.now, x.1.now)) result ≡ two_words (words_of line.now) }
{
    let (first, rest) = next_word(line)?;
    let second = one_word_in(rest)?;
    Some((first, second))
}

/// The three words of a line.
#[inline(always)]
pub(crate) fn three_words_in(line: &[u8]) -> Option<(&[u8], &[u8], &[u8])>
    ensures { option_map (λ x. (x.0.now, x.1.now, x.2.now)) result ≡ three_words (words_of line.now) }
{
    let (first, rest) = next_word(line)?;
    let (second, third) = two_words_in(rest)?;
    Some((first, second, third))
}
