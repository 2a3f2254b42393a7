//! What changed bytes meet: rows of refusals, and the sum of the places that they name.
use asl_code::VerifyFault;
use asl_loader::LoadFault;

/// How many changed files meet a refusal, and the sum of the places that it names.
pub type Met = (u32, usize);

/// The row of what nothing should meet.
pub const NONE: usize = 99;

/// Counts one that meets the row's refusal at this place.
pub fn add(found: &mut [Met], row: usize, place: usize) -> Option<()> {
    let met = found.get_mut(row)?;
    met.0 = met.0.saturating_add(1);
    met.1 = met.1.saturating_add(place);
    Some(())
}

/// The row of a broken rule, and the place that it names.
fn row_of_rule(fault: VerifyFault) -> (usize, usize) {
    match fault {
        VerifyFault::Limit => (6, 0),
        VerifyFault::Table => (7, 0),
        VerifyFault::NoEntry => (8, 0),
        VerifyFault::FunctionRange => (9, 0),
        VerifyFault::FallsOut => (10, 0),
        VerifyFault::Target(pc) => (11, pc as usize),
        VerifyFault::Register(pc) => (12, pc as usize),
        VerifyFault::Operand(pc) => (13, pc as usize),
        VerifyFault::ListBase(pc) => (14, pc as usize),
    }
}

/// The row of an image's fault, and the place that it names.
pub fn row_of_image(fault: LoadFault) -> (usize, usize) {
    match fault {
        LoadFault::Magic => (1, 0),
        LoadFault::Version => (2, 0),
        LoadFault::Truncated(at) => (3, at),
        LoadFault::BadField(at) => (4, at),
        LoadFault::Trailing(at) => (5, at),
        LoadFault::Verify(fault) => row_of_rule(fault),
        LoadFault::OutOfMemory => (NONE, 0),
    }
}
