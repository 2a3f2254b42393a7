//! Taking one line after the other into the image that a text spells so far.

ghost use Rattle.std.specs.Prelude.{◌≡◌, IfOk};
ghost use Rattle.asl_assembler.specs.Reading.{longer, next, finished, step_line, paired, open_of, kept, is_over};

use crate::line::{Line, meaning};
use crate::line_words::next_word;
use asl_code::{Function, Image, Items, Lock, NEWEST_LIMITS, image_limits};
use std::alloc::{AllocError, Global};

/// Which line comes next, and what is open there.
#[derive(Drop)]
pub(crate) enum Place {
    /// `version`
    Version,
    /// `classes`
    Classes,
    /// `global` or `entry`
    Globals,
    /// `fn` or `list`
    Functions,
    /// An instruction, `fn` or `list`. The function is not in the image yet.
    Body(Function),
    /// A lock or `list`. The list is not in the image yet.
    Locks(Items<Lock>),
}

/// The function with one instruction more.
pub(crate) fn one_longer(function: Function) -> Function
    ensures { result ≡ longer function }
{
    Function {
        len: function.len.saturating_add(1),
        ..function
    }
}

/// Takes a line in: the place after it, or none where the line is not as its place asks.
#[tactic(auto, unfolding(crate::specs::Reading::next))]
fn take_line(
    alloc: Global,
    place: Place,
    line: Line,
    image: &mut Image,
) -> Result<Option<Place>, AllocError>
    ensures { IfOk result (λ r. paired r image.new ≡ next place line image.old) }
{
    match place {
        Place::Version => match line {
            Line::Version(version) => {
                image.version = u32::from(version);
                Ok(Some(Place::Classes))
            }
            _ => Ok(None),
        },
        Place::Classes => match line {
            Line::Classes(count) => {
                image.classes = u32::from(count);
                Ok(Some(Place::Globals))
            }
            _ => Ok(None),
        },
        Place::Globals => in_header(line, image),
        Place::Functions => Ok(open(alloc, line)),
        Place::Body(function) => in_body(alloc, function, line, image),
        Place::Locks(locks) => in_list(alloc, locks, line, image),
    }
}

#[tactic(auto, unfolding(crate::specs::Reading::next))]
fn in_header(line: Line, image: &mut Image) -> Result<Option<Place>, AllocError>
    ensures { IfOk result (λ r. paired r image.new ≡ next Place.Globals line image.old) }
{
    match line {
        Line::Global(class) => {
            image.globals.push(class)?;
            Ok(Some(Place::Globals))
        }
        Line::Entry(function) => {
            image.start = function;
            Ok(Some(Place::Functions))
        }
        _ => Ok(None),
    }
}

/// A function or a list begins.
fn open(alloc: Global, line: Line) -> Option<Place>
    ensures { result ≡ open_of line }
{
    match line {
        Line::Function { params, regs } => Some(Place::Body(Function {
            params,
            regs,
            len: 0,
        })),
        Line::List => Some(Place::Locks(Items::new(alloc))),
        _ => None,
    }
}

#[tactic(auto, unfolding(crate::specs::Reading::next))]
fn in_body(
    alloc: Global,
    function: Function,
    line: Line,
    image: &mut Image,
) -> Result<Option<Place>, AllocError>
    ensures { IfOk result (λ r. paired r image.new ≡ next (Place.Body function) line image.old) }
{
    if let Line::Instruction(instr) = line {
        image.code.push(instr)?;
        return Ok(Some(Place::Body(one_longer(function))));
    }
    image.functions.push(function)?;
    Ok(open(alloc, line))
}

#[tactic(auto, unfolding(crate::specs::Reading::next))]
fn in_list(
    alloc: Global,
    mut locks: Items<Lock>,
    line: Line,
    image: &mut Image,
) -> Result<Option<Place>, AllocError>
    ensures { IfOk result (λ r. paired r image.new ≡ next (Place.Locks locks) line image.old) }
{
    match line {
        Line::Lock(lock) => {
            locks.push(lock)?;
            Ok(Some(Place::Locks(locks)))
        }
        Line::List => {
            image.lists.push(locks)?;
            Ok(Some(Place::Locks(Items::new(alloc))))
        }
        _ => Ok(None),
    }
}

/// Takes a line of bytes in. A blank one changes nothing.
#[tactic(auto, unfolding(crate::specs::Reading::step_line))]
pub(crate) fn take_bytes(
    alloc: Global,
    place: Place,
    line: &[u8],
    image: &mut Image,
) -> Result<Option<Place>, AllocError>
    ensures { IfOk result (λ r. paired r image.new ≡ step_line place image.old line.now) }
{
    if next_word(line).is_none() {
        return Ok(Some(place));
    }
    match meaning(line) {
        Some(line) => take_line(alloc, place, line, image),
        None => Ok(None),
    }
}

/// Closes what is open where the text ends. False where the text ends too early.
#[tactic(auto, unfolding(crate::specs::Reading::finished))]
pub(crate) fn close(place: Place, image: &mut Image) -> Result<bool, AllocError>
    ensures { IfOk result (λ r. kept r image.new ≡ finished place image.old) }
{
    match place {
        Place::Functions => {}
        Place::Body(function) => image.functions.push(function)?,
        Place::Locks(locks) => image.lists.push(locks)?,
        _ => return Ok(false),
    }
    Ok(true)
}

/// Whether there are more locks in the open list, or more lists, globals, functions or instructions, than a program of any
/// version has, however the text continues. A list or a function is counted once it is closed, an instruction at once.
pub(crate) fn is_over(place: &Place, image: &Image) -> bool
    ensures { result ≡ is_over place.now image.now }
{
    let open = match place {
        Place::Locks(locks) => locks.len(),
        _ => 0,
    };
    open > NEWEST_LIMITS.locks
        || image.lists.len() > image_limits::LISTS
        || image.globals.len() > image_limits::GLOBALS
        || image.functions.len() > image_limits::FUNCTIONS
        || image.code.len() > image_limits::CODE
}
