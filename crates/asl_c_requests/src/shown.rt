//! What C shows of its registers and of its heap.
ghost use Rattle.std.specs.Prelude.{◌≡◌};
ghost use Rattle.asl_c_requests.specs.Shown.{address_of, told_at};

use asl_code::Cell;

/// What a register or a cell holds: an address, where the kind is 1; else what is none.
#[derive(Clone, Copy, Drop)]
#[repr(C)]
pub struct ShownValue {
    /// 1: an address.
    pub kind: u8,
    /// The place of the cell in its object.
    pub offset: u8,
    /// The place of the object among those that are shown.
    pub object: u16,
}

/// An object.
#[derive(Clone, Copy, Drop)]
#[repr(C)]
pub struct ShownObject {
    /// Its class.
    pub class: u16,
    /// The number under which its cells are locked.
    pub number: u16,
    /// How many cells it has.
    pub size: u8,
}

/// What a cell holds.
#[derive(Clone, Copy, Drop)]
#[repr(C)]
pub struct ShownCell {
    /// The place of its object among those that are shown.
    pub object: u16,
    /// Its place in the object.
    pub offset: u8,
    /// What it holds.
    pub value: ShownValue,
}

/// The cell that the value is the address of.
pub fn address(value: ShownValue) -> Option<Cell>
    ensures { result ≡ address_of value }
{
    if value.kind == 1 {
        Some(Cell {
            object: value.object,
            offset: value.offset,
        })
    } else {
        None
    }
}

/// What is told of the cell: the cell whose address it holds, if it holds one. Of a cell of which nothing is told, `None`.
pub fn told(cells: &[ShownCell], cell: Cell) -> Option<Option<Cell>>
    ensures { result ≡ told_at cells.now cell }
{
    for shown in cells {
        if shown.object == cell.object && shown.offset == cell.offset {
            return Some(address(shown.value));
        }
    }
    None
}
