//! The numbers of classes, by their first members.

ghost use Rattle.std.specs.Prelude.{◌≡◌, ◌<◌, ◌≤◌, ℕ, Some, IfOk, IfSome, length, map};
ghost use Rattle.std.specs.List.{All};
ghost use Rattle.asl_points_to.specs.Classes.{some_at};
ghost use Rattle.asl_code.specs.declared.image.Function.{Function as FunctionValue};
ghost use Rattle.asl_points_to.specs.declared.value_flow.Place.{Place as PlaceValue};
ghost use Rattle.asl_points_to.specs.Draft.{entry};
ghost use Rattle.asl_points_to.specs.Numbers.{AreNumbers, numbered, numbered_row, numbered_cells};
ghost use Rattle.asl_points_to.specs.Found.{AreRows};

use crate::class_draft::Row;
use crate::sets::DisjointSets;
use asl_code::Function;
use std::alloc::{AllocError, Global};

/// The number of each member's class, and the first member of each class.
#[derive(Drop)]
pub struct ClassNumbers {
    pub of: Vec<u32>,
    pub firsts: Vec<u32>,
}

/// Numbers the classes of so many members by their first members.
pub fn number_classes(
    alloc: Global,
    sets: &mut DisjointSets,
    members: u32,
) -> Result<ClassNumbers, AllocError>
    requires { members ≡ length sets.old }
    ensures numbers { IfOk result (λ n. AreNumbers sets.old n.of.items n.firsts.items) }
    ensures few { IfOk result (λ n. length n.firsts.items ≤ members) }
    ensures same { IfOk result (λ _. sets.new ≡ sets.old) }
{
    let mut of = Vec::with_capacity(alloc, members as usize)?;
    let mut firsts = Vec::new(alloc);
    let mut next = 0;
    for member in 0..members {
        let first = sets.first(member);
        if first == member {
            of.push(next)?;
            firsts.push(member)?;
            next += 1;
        } else {
            of.push(of[first as usize])?;
        }
    }
    Ok(ClassNumbers { of, firsts })
}

/// The number of a member's class, if there is a member.
fn numbered(of: &[u32], member: Option<u32>) -> Option<u16>
    requires member { IfSome member (λ m. m < length of.now) }
    requires small { All (λ n. n < 65536) of.now }
    ensures { result ≡ numbered of.now member }
{
    Some(of[member? as usize] as u16)
}

/// The same numbers in two bytes each, since none is greater.
pub fn narrowed(alloc: Global, numbers: &[u32]) -> Result<Vec<u16>, AllocError>
    requires { All (λ n. n < 65536) numbers.now }
    ensures { IfOk result (λ v. v.items ≡ numbers.now) }
{
    let mut narrow = Vec::with_capacity(alloc, numbers.len())?;
    for number in numbers {
        narrow.push(*number as u16)?;
    }
    Ok(narrow)
}

/// The classes to which the first registers of a function point, so many.
pub fn numbered_row(
    alloc: Global,
    of: &[u32],
    row: &[Option<u32>],
    registers: u8,
) -> Result<Vec<Option<u16>>, AllocError>
    requires registers { registers ≤ length row.now }
    requires members { (r m : ℕ) → some_at row.now r ≡ Some m → m < length of.now }
    requires small { All (λ n. n < 65536) of.now }
    ensures { IfOk result (λ v. v.items ≡ numbered_row of.now row.now registers) }
{
    let mut classes = Vec::with_capacity(alloc, usize::from(registers))?;
    for register in 0..registers {
        classes.push(numbered(of, row[usize::from(register)]))?;
    }
    Ok(classes)
}

/// The rows of the functions, with the numbers of classes.
pub fn numbered_rows(
    alloc: Global,
    functions: &[Function],
    of: &[u32],
    rows: &[Row],
) -> Result<Vec<Vec<Option<u16>>>, AllocError>
    requires functions { length functions.now ≤ length rows.now }
    requires registers { All (λ (f : FunctionValue). f.regs ≤ 64) functions.now }
    requires members { (p : PlaceValue) (m : ℕ) → entry rows.now p ≡ Some m → m < length of.now }
    requires small { All (λ n. n < 65536) of.now }
    ensures { IfOk result (λ v. AreRows functions.now of.now rows.now (map (λ r. r.items) v.items)) }
{
    let mut classes = Vec::with_capacity(alloc, functions.len())?;
    for (number, function) in functions.iter().enumerate() {
        classes.push(numbered_row(alloc, of, &rows[number], function.regs)?)?;
    }
    Ok(classes)
}

/// The classes to which the cells of the classes point that have these first members.
pub fn numbered_cells(
    alloc: Global,
    of: &[u32],
    cells: &[Option<u32>],
    firsts: &[u32],
) -> Result<Vec<Option<u16>>, AllocError>
    requires firsts { All (λ m. m < length cells.now) firsts.now }
    requires members { (x m : ℕ) → some_at cells.now x ≡ Some m → m < length of.now }
    requires small { All (λ n. n < 65536) of.now }
    ensures { IfOk result (λ v. v.items ≡ numbered_cells of.now cells.now firsts.now) }
{
    let mut classes = Vec::with_capacity(alloc, firsts.len())?;
    for first in firsts {
        classes.push(numbered(of, cells[*first as usize]))?;
    }
    Ok(classes)
}
