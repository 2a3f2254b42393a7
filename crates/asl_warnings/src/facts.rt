//! Which functions `main` reaches, and which accesses no class has.
ghost use Rattle.std.specs.Prelude.{◌≡◌};
ghost use Rattle.asl_warnings.specs.Lacking.{address_of, has_no_class, is_reached, owner_at};

use asl_code::Instr;
use asl_lower::Lowering;
use asl_map::Map;
use asl_points_to::Classes;

/// Whether `main` calls the function of a number, itself or through others; `main` is one of them.
pub fn is_reached(map: &Map, function: usize) -> bool
    ensures { result ≡ is_reached map.now function }
{
    map.reached.get(function).copied().unwrap_or(false)
}

/// The function of an instruction; the first one where there is no such instruction.
pub fn owner(lowering: &Lowering, pc: u16) -> u16
    ensures { result ≡ owner_at lowering.now pc }
{
    if usize::from(pc) < lowering.code().len() {
        lowering.owner(pc)
    } else {
        0
    }
}

/// The register by which an instruction loads or stores.
pub(crate) fn address_of(instr: &Instr) -> Option<u8>
    ensures { result ≡ address_of instr.now }
{
    match *instr {
        Instr::Load { address, .. } => Some(address),
        Instr::Store { address, .. } => Some(address),
        _ => None,
    }
}

/// Whether the instruction at a pc loads or stores by a register that points to no class, in a function that `main` reaches.
pub fn has_no_class(
    map: &Map,
    lowering: &Lowering,
    classes: &Classes,
    pc: u16,
    instr: &Instr,
) -> bool
    ensures { result ≡ has_no_class map.now lowering.now classes.now pc instr.now }
{
    let function = owner(lowering, pc);
    match address_of(instr) {
        Some(register) => {
            classes.to(function, register).is_none() && is_reached(map, usize::from(function))
        }
        None => false,
    }
}
