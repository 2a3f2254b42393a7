//! From bytes to a program: reading them to their end, then judging the image.

ghost use Rattle.std.specs.Prelude.{◌≡◌, ◌⊎◌, Ok, IfOk, IfErr};
ghost use Rattle.asl_code.specs.declared.image.Image.{Image};
ghost use Rattle.asl_code.specs.Verified.{IsVerified};
ghost use Rattle.asl_loader.specs.Bytes.{SpellsImage};
ghost use Rattle.asl_loader.specs.Faults.{are_short, IsFault};
ghost use Rattle.asl_loader.specs.ImageFields.{Answers, IsHeld, bad_fault, whole_of};

use crate::fault::{LoadFault, Lost, Stop};
use crate::image_fields::image_at;
use asl_code::{Image, Program, VerifyFault};
use std::alloc::Global;

/// The program that the bytes spell, all of them.
///
/// # Errors
///
/// The first refusal from front to back, then that of the verifier; `OutOfMemory` where an allocation failed, and then the
/// bytes spell an image with no more lists, and no more locks in one, than a program may have.
pub fn load(alloc: Global, bytes: &[u8]) -> Result<Program, LoadFault>
    ensures found { IfOk result (λ program. SpellsImage program bytes.now) }
    ensures verified { IfOk result (λ program. IsVerified program) }

    // What is spelled and verified is answered, unless memory was refused.
    ensures only { (image : Image) → SpellsImage image bytes.now → IsVerified image
        → (result ≡ Ok image) ⊎ (result ≡ Err LoadFault.OutOfMemory) }
    ensures refused { IfErr result (λ fault. IsFault bytes.now fault) }
{
    let image = whole_of(alloc, bytes)?;
    match Program::verify(image) {
        Ok(program) => Ok(program),
        Err((fault, _image)) => Err(LoadFault::Verify(fault)),
    }
}

/// The image of all the bytes, before it is judged.
#[tactic(auto, unfolding(crate::specs::ImageFields::whole_of))]
fn whole_of(alloc: Global, bytes: &[u8]) -> Result<Image, LoadFault>
    ensures { Answers result (whole_of bytes.now) }
{
    match image_at(alloc, bytes) {
        Ok((image, [])) => or_fault(image),
        Ok((_image, rest)) => Err(LoadFault::Trailing(bytes.len() - rest.len())),
        Err(Stop::Short) => Err(LoadFault::Truncated(bytes.len())),
        Err(Stop::Bad(left)) => Err(bad_fault(bytes.len() - left)),
    }
}

/// The image, or why it was not kept: the verifier names lists that are too long, or too many, before all else.
fn or_fault(image: Result<Image, Lost>) -> Result<Image, LoadFault>
    ensures { (whole : Image) → IsHeld (are_short whole.lists) image whole → Answers result (Ok whole) }
{
    match image {
        Ok(image) => Ok(image),
        Err(Lost::Long) => Err(LoadFault::Verify(VerifyFault::Limit)),
        Err(Lost::Memory) => Err(LoadFault::OutOfMemory),
    }
}

/// The fault of a bad byte: the field at byte 0 is the letters, and the one at byte 4 the version.
fn bad_fault(at: usize) -> LoadFault
    ensures { result ≡ bad_fault at }
{
    match at {
        0 => LoadFault::Magic,
        4 => LoadFault::Version,
        _ => LoadFault::BadField(at),
    }
}
