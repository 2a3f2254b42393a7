//! Which instruction holds two members together.

ghost use Rattle.std.specs.Prelude.{◌≡◌, ◌↔◌, true, false, IfOk};
ghost use Rattle.asl_points_to.specs.Classes.{Classed, IsLegal, AreClasses, Share};
ghost use Rattle.asl_class_reasons.specs.Draft.{IsElsewhere};
ghost use Rattle.asl_class_reasons.specs.Without.{without};

use crate::flow::Owed;
use crate::flows::program_owed;
use crate::reasons::settled;
use asl_lower::Lowering;
use std::alloc::{AllocError, Global};

/// What is owed elsewhere than to the instruction at a pc.
fn owed_elsewhere(alloc: Global, owed: &[Owed], pc: u16) -> Result<Vec<Owed>, AllocError>
    ensures { IfOk result (λ v. IsElsewhere owed.now pc v.items) }
{
    let mut elsewhere = Vec::new(alloc);
    for one in owed {
        if one.pc != pc {
            elsewhere.push(*one)?;
        }
    }
    Ok(elsewhere)
}

/// Whether two members are apart in the classes of the program without the instruction at a pc. In place of the instruction
/// stands one that does nothing; a `ret` stays. Any numbers are allowed: who is no member shares no class.
pub fn parts(
    alloc: Global,
    lowering: &Lowering,
    pc: u16,
    m: u32,
    n: u32,
) -> Result<bool, AllocError>
    ensures classes { IfOk result (λ apart. (c : Classed) → AreClasses (without lowering.now pc) c → (apart ≡ true) ↔ (¬ Share c m n)) }
    ensures apart { IfOk result (λ apart. apart ≡ true → (c : Classed) × IsLegal (without lowering.now pc) c × (¬ Share c m n)) }
    ensures together { IfOk result (λ apart. apart ≡ false → (c : Classed) → IsLegal (without lowering.now pc) c → Share c m n) }
{
    let owed = program_owed(alloc, lowering)?;
    let elsewhere = owed_elsewhere(alloc, &owed, pc)?;
    let mut draft = settled(alloc, lowering, &elsewhere)?;
    Ok(draft.are_apart(m, n))
}
