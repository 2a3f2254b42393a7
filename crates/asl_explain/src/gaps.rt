//! Statements in one line. A stretch of many blanks of a source has a place of its own, so that no telling of a statement goes through it.
ghost use Rattle.std.specs.Prelude.{◌≡◌, ◌≤◌, ◌++◌, true, false, IfOk, OnOk, string_bytes, length};
ghost use Rattle.asl_class_text.specs.Places.{is_blank, stretch};
ghost use Rattle.asl_class_text.specs.Texts.{byte_words, words_from, one_line};
ghost use Rattle.std.specs.List.{list_all, slice_range};
ghost use Rattle.asl_explain.specs.Gaps.{are_gaps};

use std::alloc::{AllocError, Global};

/// So many blanks are many.
const MANY_BLANKS: usize = 64;

/// A stretch of many blanks of a source, from a place up to another.
#[derive(Clone, Copy, PartialEq, Eq, PartialOrd, Ord)]
pub struct Gap {
    pub from: usize,
    pub to: usize,
}

/// Whether the byte is a blank of the language.
fn is_blank(byte: u8) -> bool
    ensures { result ≡ is_blank byte }
{
    byte == b' ' || byte == b'\t' || byte == b'\n' || byte == b'\r'
}

/// Adds a stretch of blanks, if they are many.
fn add_gap(gaps: &mut Vec<Gap>, source: &[u8], from: usize, to: usize) -> Result<(), AllocError>
    requires order { from ≤ to }
    requires blank { list_all is_blank (slice_range source.now from to) ≡ true }
    requires gaps { are_gaps source.now gaps.old.items ≡ true }
    ensures { OnOk result (are_gaps source.now gaps.new.items ≡ true) }
{
    if to - from >= MANY_BLANKS {
        gaps.push(Gap { from, to })?;
    }
    Ok(())
}

/// The stretches of many blanks between other bytes of a source, in order.
pub fn find_gaps(alloc: Global, source: &[u8]) -> Result<Vec<Gap>, AllocError>
    ensures { IfOk result (λ v. are_gaps source.now v.items ≡ true) }
{
    let mut gaps = Vec::new(alloc);
    let mut from: usize = 0;
    for (to, byte) in source.iter().enumerate() {
        if is_blank(*byte) {
            continue;
        }
        add_gap(&mut gaps, source, from, to)?;
        from = to + 1;
    }
    Ok(gaps)
}

/// The number of the first stretch that does not begin before a place.
fn first_gap(gaps: &[Gap], place: usize) -> usize {
    match gaps.binary_search(&Gap { from: place, to: 0 }) {
        Ok(number) | Err(number) => number,
    }
}

/// Adds a byte of a word, after a blank where one was read before it.
fn push_byte(text: &mut String, was_blank: bool, byte: u8) -> Result<(), AllocError>
    ensures { OnOk result (string_bytes text.new ≡ string_bytes text.old ++ byte_words was_blank byte) }
{
    if was_blank {
        text.push_str(" ")?;
    }
    text.push(char::from(byte))
}

/// Adds bytes with one blank between two words, after a blank where one was read before them.
fn push_words(text: &mut String, bytes: &[u8], is_behind_blank: bool) -> Result<(), AllocError>
    ensures { OnOk result (string_bytes text.new ≡ string_bytes text.old ++ words_from is_behind_blank bytes.now) }
{
    let mut was_blank = is_behind_blank;
    for byte in bytes {
        if is_blank(*byte) {
            was_blank = true;
        } else {
            push_byte(text, was_blank, *byte)?;
            was_blank = false;
        }
    }
    Ok(())
}

/// Adds the bytes from a place up to another in one line, without those of the stretches.
fn push_stretch(
    text: &mut String,
    source: &[u8],
    gaps: &[Gap],
    from: usize,
    to: usize,
) -> Result<(), AllocError>
    requires order { from ≤ to }
    requires within { to ≤ length source.now }
    requires gaps { are_gaps source.now gaps.now ≡ true }
    ensures { OnOk result (string_bytes text.new ≡ string_bytes text.old ++ one_line (slice_range source.now from to)) }
{
    let mut at = from;
    let mut was_blank = false;
    for number in first_gap(gaps, from)..gaps.len() {
        let gap = gaps[number];
        if gap.from < at || to < gap.to {
            break;
        }
        push_words(text, &source[at..gap.from], was_blank)?;
        was_blank = true;
        at = gap.to;
    }
    push_words(text, &source[at..to], was_blank)
}

/// The bytes of a source from a place on, without the last one before another, in one line; none where there are none.
pub fn one_line(
    alloc: Global,
    source: &[u8],
    gaps: &[Gap],
    from: usize,
    to: usize,
) -> Result<String, AllocError>
    requires { are_gaps source.now gaps.now ≡ true }
    ensures { IfOk result (λ text. string_bytes text ≡ one_line (stretch source.now from to)) }
{
    let mut text = String::new(alloc);
    if from < to && to <= source.len() {
        push_stretch(&mut text, source, gaps, from, to - 1)?;
    }
    Ok(text)
}
