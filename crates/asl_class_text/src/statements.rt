//! Where statements stand, and their text in one line.
ghost use Rattle.std.specs.Prelude.{◌≡◌, ◌++◌, IfOk, OnOk, string_bytes};
ghost use Rattle.asl_class_text.specs.Places.{stretch, is_blank, line_of, line_at, area_of_site};
ghost use Rattle.asl_class_text.specs.Texts.{byte_words, one_line, statement_at};

use crate::facts::Facts;
use asl_map::Area;
use std::alloc::{AllocError, Global};

/// Whether the byte is a blank of the language.
fn is_blank(byte: u8) -> bool
    ensures { result ≡ is_blank byte }
{
    byte == b' ' || byte == b'\t' || byte == b'\n' || byte == b'\r'
}

/// Adds a byte of a word, after a blank where one was read before it.
fn push_byte(text: &mut String, was_blank: bool, byte: u8) -> Result<(), AllocError>
    ensures { OnOk result (string_bytes text.new ≡ string_bytes text.old ++ byte_words was_blank byte) }
{
    if was_blank {
        text.push_str(" ")?;
    }
    text.push(char::from(byte))
}

/// The bytes in one line, with one blank between two words.
pub(crate) fn one_line(alloc: Global, bytes: &[u8]) -> Result<String, AllocError>
    ensures { IfOk result (λ text. string_bytes text ≡ one_line bytes.now) }
{
    let mut text = String::new(alloc);
    let mut was_blank = false;
    for byte in bytes {
        if is_blank(*byte) {
            was_blank = true;
        } else {
            push_byte(&mut text, was_blank, *byte)?;
            was_blank = false;
        }
    }
    Ok(text)
}

/// The bytes of a text from a place on, without the last one before another; none where there are none.
pub(crate) fn stretch(source: &[u8], from: usize, to: usize) -> &[u8]
    ensures { result.now ≡ stretch source.now from to }
{
    if from < to && to <= source.len() {
        &source[from..to - 1]
    } else {
        &[]
    }
}

/// The line of a place of the text.
pub fn line_of(facts: &Facts<'_>, place: usize) -> usize
    ensures { result ≡ line_of facts.now.lines.items place }
{
    facts.lines.get(place).copied().unwrap_or(0)
}

/// Where a site stands.
pub(crate) fn area_of_site(facts: &Facts<'_>, site: usize) -> Area
    ensures { result ≡ area_of_site facts.now site }
{
    match facts.map.sites.get(site) {
        Some(area) => *area,
        None => Area {
            function: 0,
            from: 0,
            to: 0,
        },
    }
}

/// The line of the statement of an instruction.
pub(crate) fn line_at(facts: &Facts<'_>, pc: u16) -> usize
    ensures { result ≡ line_at facts.now pc }
{
    match facts.map.place(pc) {
        Some(piece) => line_of(facts, piece.from),
        None => 0,
    }
}

/// The text of the statement of an instruction, in one line, without what ends it.
pub(crate) fn statement_at(alloc: Global, facts: &Facts<'_>, pc: u16) -> Result<String, AllocError>
    ensures { IfOk result (λ text. string_bytes text ≡ statement_at facts.now pc) }
{
    match facts.map.place(pc) {
        Some(piece) => one_line(alloc, stretch(facts.source, piece.from, piece.to)),
        None => Ok(String::new(alloc)),
    }
}
