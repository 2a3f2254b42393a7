//! The cell that a lock expression denotes.
ghost use Rattle.std.specs.Prelude.{◌≡◌, Some};
ghost use Rattle.asl_expression.specs.Expression.{Seen, cell_denoted, base_cell, path_cell, walked, moved, pointed};

use asl_code::{Base, Cell, Expr, Op, Value};

/// A heap, as the evaluation of an expression sees it.
pub trait HeapView {
    ghost seen: { Self → Seen };

    /// What the cell holds, if it is there.
    fn cell(&self, cell: Cell) -> Option<Value>
        ensures { result ≡ (seen self.now).cell cell };

    /// How many cells the object has, if it is there.
    fn size(&self, object: u16) -> Option<u8>
        ensures { result ≡ (seen self.now).size object };
}

/// The cell that the expression denotes in these registers and this heap, if it denotes one: what it meets on its way
/// must be addresses, and places inside their objects (`docs/LOCKS.md`, "Expressions").
#[tactic(auto, using(crate::proofs::Paths::no_cell_from_none))]
pub fn eval<H: HeapView>(expr: &Expr, regs: &[Value], heap: &H) -> Option<Cell>
    ensures { result ≡ cell_denoted (H.seen heap.now) regs.now expr.now }
{
    follow(expr.path.as_slice(), begin(expr.base, regs)?, heap)
}

/// The cell to which a path leads from this one, if it leads to one: the evaluation of an expression, for registers that are
/// kept otherwise than as a slice of values.
#[tactic(auto, using(crate::proofs::Paths::no_cell_from_none))]
pub fn follow<H: HeapView>(path: &[Op], start: Cell, heap: &H) -> Option<Cell>
    ensures { result ≡ path_cell (H.seen heap.now) path.now (Some start) }
{
    let mut cell = start;
    for op in path {
        cell = walk(heap, *op, cell)?;
    }
    Some(cell)
}

/// The cell so many places on, if the object has it.
pub fn go_on<H: HeapView>(heap: &H, places: u8, cell: Cell) -> Option<Cell>
    ensures { result ≡ moved (H.seen heap.now) places cell }
{
    let size = heap.size(cell.object)?;
    let offset = u16::from(cell.offset) + u16::from(places);
    if offset < u16::from(size) {
        Some(Cell {
            object: cell.object,
            offset: offset as u8,
        })
    } else {
        None
    }
}

/// Where the evaluation begins.
fn begin(base: Base, regs: &[Value]) -> Option<Cell>
    ensures { result ≡ base_cell regs.now base }
{
    match base {
        Base::Reg(register) => pointed(*regs.get(usize::from(register))?),
        Base::Global(global) => Some(Cell {
            object: global,
            offset: 0,
        }),
    }
}

/// The cell that the value is the address of.
pub fn pointed(value: Value) -> Option<Cell>
    ensures { result ≡ pointed value }
{
    match value {
        Value::Addr(object, offset) => Some(Cell { object, offset }),
        Value::Int(_) | Value::Null => None,
    }
}

/// The cell to which the operation leads from this one.
fn walk<H: HeapView>(heap: &H, op: Op, cell: Cell) -> Option<Cell>
    ensures { result ≡ walked (H.seen heap.now) op cell }
{
    match op {
        Op::Deref => pointed(heap.cell(cell)?),
        Op::Off(places) => go_on(heap, places, cell),
    }
}
