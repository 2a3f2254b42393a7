//! Reading the fields of an image from the front of bytes. Where memory is refused the reading continues and keeps nothing,
//! so that running out of memory hides nothing that is wrong with the bytes. It keeps no lists either where there are more of them,
//! or more locks in one, than any program has, so that the lists of an image take no more memory than a program's may.
ghost use Rattle.std.specs.Prelude.{ℕ, List};
ghost use Rattle.asl_code.specs.declared.image.Function.{Function};
ghost use Rattle.asl_code.specs.declared.instr.Instr.{Instr};
ghost use Rattle.asl_code.specs.declared.lock.Lock.{Lock};
ghost use Rattle.asl_loader.specs.Faults.{are_short};
ghost use Rattle.asl_loader.specs.SharedFields.{IsKept};
ghost use Rattle.asl_loader.specs.ImageFields.{Holds, IsHeld, counted_at, image_at};

use crate::code_fields::{classes_of, code_of, functions_of};
use crate::fault::{Lost, Stop};
use crate::lock_fields::lists_of;
use crate::shared_fields::{letters_at, two_at, version_at};
use asl_code::{Function, Image, Instr, Items, Lock};
use std::alloc::Global;

/// The four letters at the front of an image, as a number.
const LETTERS: u32 = 0x4153_4c4d;

/// The image at the front of the bytes, and the bytes after it.
#[tactic(auto, unfolding(crate::specs::ImageFields::image_at, crate::specs::ImageFields::counted_at))]
pub(crate) fn image_at(alloc: Global, bytes: &[u8]) -> Result<(Result<Image, Lost>, &[u8]), Stop>
    ensures { Holds (λ image. are_short image.lists) (λ x. x.0) (λ x. x.1.now) result (image_at bytes.now) }
{
    let (_letters, rest) = letters_at(LETTERS, bytes)?;
    let (version, rest) = version_at(rest)?;
    let (classes, rest) = two_at(rest)?;
    let (count, rest) = two_at(rest)?;
    let (globals, rest) = classes_of(alloc, count, rest)?;
    let (count, rest) = two_at(rest)?;
    let (functions, rest) = functions_of(alloc, count, rest)?;
    let (start, rest) = two_at(rest)?;
    let (count, rest) = two_at(rest)?;
    let (code, rest) = code_of(alloc, count, rest)?;
    let (count, rest) = two_at(rest)?;
    let (lists, rest) = lists_of(alloc, count, rest)?;
    let image = image_of(version, classes, globals, functions, start, code, lists);
    Ok((image, rest))
}

/// The image of its parts, as long as each was kept. Lists that are too long are told before running out of memory.
fn image_of(
    version: u16,
    classes: u16,
    globals: Option<Items<u16>>,
    functions: Option<Items<Function>>,
    start: u16,
    code: Option<Items<Instr>>,
    lists: Result<Items<Items<Lock>>, Lost>,
) -> Result<Image, Lost>
    ensures { (g : List ℕ) (f : List Function) (c : List Instr) (l : List (List Lock))
        → IsKept globals g → IsKept functions f → IsKept code c → IsHeld (are_short l) lists l
        → IsHeld (are_short l) result (record { version = version; classes = classes; globals = g; functions = f; start = start; code = c; lists = l }) }
{
    match (lists, globals, functions, code) {
        (Ok(lists), Some(globals), Some(functions), Some(code)) => Ok(Image {
            version: u32::from(version),
            classes: u32::from(classes),
            globals,
            functions,
            start,
            code,
            lists,
        }),
        (Err(lost), ..) => Err(lost),
        _ => Err(Lost::Memory),
    }
}
