//! Expressions of locks, in numbers.
ghost use Rattle.std.specs.Prelude.{◌≡◌};
ghost use Rattle.asl_c_programs.specs.Locks.{base_number, class_or_none, expr_class, function_of_list, is_global, op_at, op_number, path_numbers};

use crate::opened::SourceFacts;
use asl_code::{Base, Expr, Op};
use asl_lock_expr::class_of;
use asl_map::Map;

/// What stands for no class.
pub const NO_CLASS: u16 = 65_535;
/// What stands for an operation that follows the address in a cell.
const FOLLOW: u16 = 256;

/// Whether an expression begins at a global.
pub fn is_global(base: Base) -> bool
    ensures { result ≡ is_global base }
{
    match base {
        Base::Reg(_) => false,
        Base::Global(_) => true,
    }
}

/// The number of the register or of the global.
pub fn base_number(base: Base) -> u16
    ensures { result ≡ base_number base }
{
    match base {
        Base::Reg(register) => u16::from(register),
        Base::Global(global) => global,
    }
}

/// The number of the class, or what stands for none.
pub fn class_or_none(class: Option<u16>) -> u16
    ensures { result ≡ class_or_none class }
{
    class.unwrap_or(NO_CLASS)
}

/// The class of the cell that an expression of the list denotes, where a source tells it.
pub fn expr_class(facts: &Option<SourceFacts>, list: u32, expr: &Expr) -> Option<u16>
    ensures { result ≡ expr_class facts.now list expr.now }
{
    match facts {
        Some(facts) => class_of(&facts.classes, function_of_list(&facts.map, list), expr),
        None => None,
    }
}

/// The function whose section asks for the list.
fn function_of_list(map: &Map, list: u32) -> u16
    ensures { result ≡ function_of_list map.now list }
{
    match map.sections.get(list as usize) {
        Some(area) => area.function,
        None => 0,
    }
}

/// The operations of a path, in numbers.
pub fn path_numbers(path: &[Op]) -> [u16; 8]
    ensures { result ≡ path_numbers path.now }
{
    [
        op_at(path, 0),
        op_at(path, 1),
        op_at(path, 2),
        op_at(path, 3),
        op_at(path, 4),
        op_at(path, 5),
        op_at(path, 6),
        op_at(path, 7),
    ]
}

/// The operation at this place of the path, and 0 behind its end.
fn op_at(path: &[Op], place: usize) -> u16
    ensures { result ≡ op_at path.now place }
{
    match path.get(place) {
        Some(op) => op_number(*op),
        None => 0,
    }
}

/// An operation as a number.
fn op_number(op: Op) -> u16
    ensures { result ≡ op_number op }
{
    match op {
        Op::Deref => FOLLOW,
        Op::Off(cells) => u16::from(cells),
    }
}
