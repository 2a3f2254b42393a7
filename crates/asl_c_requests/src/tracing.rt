//! The cell to which a path leads, by what C shows.
ghost use Rattle.std.specs.Prelude.{◌≡◌, Ok, Some};
ghost use Rattle.asl_c_requests.specs.Traced.{is_there, followed, size_at, moved, walked, traced};

use crate::shown::{ShownCell, ShownObject, told};
use asl_code::{Cell, Op};

/// The cell to which the path leads from this one, if it leads to one; or the first cell on its way of which nothing is told.
#[tactic(auto, using(crate::proofs::TracedLaws::nowhere, crate::proofs::TracedLaws::stuck))]
pub fn trace(
    objects: &[ShownObject],
    cells: &[ShownCell],
    path: &[Op],
    start: Cell,
) -> Result<Option<Cell>, Cell>
    ensures { result ≡ traced objects.now cells.now path.now (Ok (Some start)) }
{
    let mut cell = start;
    for op in path {
        match walk(objects, cells, *op, cell)? {
            Some(next) => cell = next,
            None => return Ok(None),
        }
    }
    Ok(Some(cell))
}

/// The cell to which the operation leads from this one, if it leads to one; or this one, where it is to be read and nothing is told.
fn walk(
    objects: &[ShownObject],
    cells: &[ShownCell],
    op: Op,
    cell: Cell,
) -> Result<Option<Cell>, Cell>
    ensures { result ≡ walked objects.now cells.now op cell }
{
    match op {
        Op::Deref => follow(objects, cells, cell),
        Op::Off(places) => Ok(move_on(objects, places, cell)),
    }
}

/// The cell whose address this one holds, if it is there and holds one; or this one, where nothing is told of it.
fn follow(objects: &[ShownObject], cells: &[ShownCell], cell: Cell) -> Result<Option<Cell>, Cell>
    ensures { result ≡ followed objects.now cells.now cell }
{
    if !is_there(objects, cell) {
        return Ok(None);
    }
    match told(cells, cell) {
        Some(next) => Ok(next),
        None => Err(cell),
    }
}

/// Whether the cell's object is shown, and has it.
fn is_there(objects: &[ShownObject], cell: Cell) -> bool
    ensures { result ≡ is_there objects.now cell }
{
    match objects.get(usize::from(cell.object)) {
        Some(object) => cell.offset < object.size,
        None => false,
    }
}

/// How many cells the object at this place has, if one is shown there.
fn size_at(objects: &[ShownObject], place: u16) -> Option<u8>
    ensures { result ≡ size_at objects.now place }
{
    Some(objects.get(usize::from(place))?.size)
}

/// The cell so many places on, if its object is shown and has it.
fn move_on(objects: &[ShownObject], places: u8, cell: Cell) -> Option<Cell>
    ensures { result ≡ moved objects.now places cell }
{
    let size = size_at(objects, cell.object)?;
    let offset = u16::from(cell.offset) + u16::from(places);
    if offset < u16::from(size) {
        Some(Cell {
            object: cell.object,
            offset: offset as u8,
        })
    } else {
        None
    }
}
