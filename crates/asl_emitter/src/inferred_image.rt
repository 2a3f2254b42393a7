//! The parts of the image that is inferred for a program.
ghost use Rattle.std.specs.Prelude.{◌≡◌, ◌<◌, ℕ, IfOk, length, map};
ghost use Rattle.asl_code.specs.declared.instr.Instr.TheVariants.{New as NewInstr};
ghost use Rattle.asl_soundness.specs.Coded.{classed};
ghost use Rattle.asl_emitter.specs.BuiltImage.{HasSites, AreFitted};

use crate::fitted::fit_in_order;
use asl_backward_flow::{Flow, Region};
use asl_code::{Instr, Items, Lock};
use asl_lower::Lowering;
use asl_points_to::Classes;
use std::alloc::{AllocError, Global};

/// The same items, in a list of their own.
pub fn copied<T: Copy>(alloc: Global, items: &[T]) -> Result<Items<T>, AllocError>
    ensures { IfOk result (λ copy. copy ≡ items.now) }
{
    Ok(Items::from_vec(items.iter().copied().collect(alloc)?))
}

/// The code, where a `new` makes objects of its site's class.
pub fn code(alloc: Global, instrs: &[Instr], classes: &Classes) -> Result<Items<Instr>, AllocError>
    requires { HasSites instrs.now classes.now }
    ensures { IfOk result (λ code. code ≡ map (classed classes.now) instrs.now) }
{
    let mut code = Vec::new(alloc);
    for instr in instrs {
        code.push(classed(instr, classes))?;
    }
    Ok(Items::from_vec(code))
}

/// The instruction, where a `new` makes objects of its site's class.
pub fn classed(instr: &Instr, classes: &Classes) -> Instr
    requires { (to cells site : ℕ) → instr.now ≡ NewInstr to cells site → site < length classes.now.sites }
    ensures { result ≡ classed classes.now instr.now }
{
    match instr {
        Instr::New { to, cells, class } => Instr::New {
            to: *to,
            cells: *cells,
            class: classes.of_site(*class),
        },
        _ => *instr,
    }
}

/// For each section the list that it asks for: what is needed after its `acq`, fitted.
pub fn lists(
    alloc: Global,
    lowering: &Lowering,
    classes: &Classes,
    flow: &Flow,
) -> Result<Items<Items<Lock>>, AllocError>
    ensures { IfOk result (λ lists. AreFitted lowering.now classes.now flow.now (length lowering.now.sections) lists) }
{
    let mut lists = Vec::new(alloc);
    for (number, section) in lowering.sections().iter().enumerate() {
        let entry = u32::from(section.acquire) + 1;
        let needed = flow.at(alloc, Region::Section(number as u16), entry)?;
        let list = fit_in_order(alloc, classes, section.function, needed)?;
        lists.push(Items::from_vec(list))?;
    }
    Ok(Items::from_vec(lists))
}
