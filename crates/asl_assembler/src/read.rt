//! Reading the lines of a text to its end, or to the first that is wrong.

ghost use Rattle.std.specs.Prelude.{◌≡◌, Result, Ok, Err};
ghost use Rattle.asl_assembler.specs.Words.{lines_of};
ghost use Rattle.asl_assembler.specs.Reading.{image_from, blank_image, Answers};
ghost use Rattle.asl_assembler.specs.declared.read.ReadFault.TheVariants.{OutOfMemory};

use crate::body::take_body;
use crate::image_draft::{Place, close, is_over, take_bytes};
use crate::line_words::split_line;
use asl_code::{Image, Items};
use std::alloc::{AllocError, Global};

/// Why a text spells no image.
#[derive(Clone, Copy)]
pub(crate) enum ReadFault {
    /// The line of this number, from 1, is not as its place asks, or the text ends too early before it.
    Line(usize),
    /// There are more locks in a list, or more lists, globals, functions or instructions, than any program has; what follows
    /// was not read.
    Over,
    /// Memory ran out.
    OutOfMemory,
}

impl From<AllocError> for ReadFault {
    ghost from_gives = { λ _ fault. fault ≡ OutOfMemory };

    fn from(_error: AllocError) -> ReadFault {
        ReadFault::OutOfMemory
    }
}

/// An image of nothing.
fn blank(alloc: Global) -> Image
    ensures { result ≡ blank_image }
{
    Image {
        version: 0,
        classes: 0,
        globals: Items::new(alloc),
        functions: Items::new(alloc),
        start: 0,
        code: Items::new(alloc),
        lists: Items::new(alloc),
    }
}

/// The image that the text spells, or its first wrong line. A text that spells no program for the number of its locks, lists,
/// globals, functions or instructions is not read to its end, so that hardly more of it is kept than a program may have.
pub(crate) fn read(alloc: Global, text: &[u8]) -> Result<Image, ReadFault>
    ensures { Answers result (image_from 0 Place.Version blank_image (lines_of text.now)) }
{
    let mut image = blank(alloc);
    let mut place = Place::Version;
    let mut number: usize = 0;
    let mut rest = text;
    while !rest.is_empty() {
        let (line, after) = split_line(rest);
        number += 1;
        place = match take_bytes(alloc, place, line, &mut image)? {
            Some(next) => next,
            None => return Err(ReadFault::Line(number)),
        };
        if is_over(&place, &image) {
            return Err(ReadFault::Over);
        }
        rest = take_body(after, &mut number, &mut place, &mut image)?;
    }
    if close(place, &mut image)? {
        Ok(image)
    } else {
        Err(ReadFault::Line(number + 1))
    }
}
