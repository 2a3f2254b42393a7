//! The request of a list.
ghost use Rattle.std.specs.Prelude.{◌≡◌, IsTrue, ◌≤◌, ◌+◌, ◌*◌, [], Ok, Err, IfOk, IfErr, length, map, take, drop};
ghost use Rattle.asl_code.specs.Locks.{effect_of};
ghost use Rattle.asl_lock_queue.specs.Asks.{ask_of, has_kinds};
ghost use Rattle.asl_c_requests.specs.Requested.{IsRequest, IsNeeded};
ghost use Rattle.asl_c_requests.specs.Traced.{base_cell, leaf, leaf_on, node_of, added, gathered, traced};

use crate::placing::add_all;
use crate::shown::{ShownCell, ShownObject, ShownValue, address};
use crate::tracing::trace;
use asl_code::{Base, Cell, Expr, Lock};
use asl_lock_forest::Node;
use asl_lock_queue::Ask;

/// Writes the request of the list into the first words, nodes rising, and returns how many words that are. It wants no memory.
///
/// # Errors
///
/// A cell of which nothing is told, and which must be read to know the request. Then any word may have changed.
pub fn request(
    locks: &[Lock],
    registers: &[ShownValue],
    objects: &[ShownObject],
    cells: &[ShownCell],
    asks: &mut [Ask],
) -> Result<usize, Cell>
    requires room { 3 * length locks.now ≤ length asks.old }
    ensures request { IfOk result (λ count. IsRequest registers.now objects.now cells.now locks.now (map ask_of (take count asks.new))) }
    ensures kinds { IfOk result (λ count. IsTrue (has_kinds (take count asks.new))) }
    ensures rest { IfOk result (λ count. drop count asks.new ≡ drop count asks.old) }
    ensures count { IfOk result (λ count. count ≤ length asks.new) }
    ensures needed { IfErr result (IsNeeded registers.now objects.now cells.now locks.now) }
    ensures length { length asks.new ≡ length asks.old }
{
    gather(locks, registers, objects, cells, asks)
}

/// Puts what each lock asks in its place.
fn gather(
    locks: &[Lock],
    registers: &[ShownValue],
    objects: &[ShownObject],
    cells: &[ShownCell],
    asks: &mut [Ask],
) -> Result<usize, Cell>
    requires room { 3 * length locks.now ≤ length asks.old }
    ensures gathered { IfOk result (λ count. gathered registers.now objects.now cells.now locks.now (Ok []) ≡ Ok (map ask_of (take count asks.new))) }
    ensures kinds { IfOk result (λ count. IsTrue (has_kinds (take count asks.new))) }
    ensures rest { IfOk result (λ count. drop count asks.new ≡ drop count asks.old) }
    ensures count { IfOk result (λ count. count ≤ length asks.new) }
    ensures needed { IfErr result (λ cell. gathered registers.now objects.now cells.now locks.now (Ok []) ≡ Err cell) }
    ensures length { length asks.new ≡ length asks.old }
{
    let mut count = 0;
    for lock in locks {
        let now = add_lock(lock, registers, objects, cells, asks, count)?;
        count = now;
    }
    Ok(count)
}

/// Adds what the lock asks to the first words, so many: how many they are then; or a cell of which nothing is told.
fn add_lock(
    lock: &Lock,
    registers: &[ShownValue],
    objects: &[ShownObject],
    cells: &[ShownCell],
    asks: &mut [Ask],
    count: usize,
) -> Result<usize, Cell>
    requires room { count + 3 ≤ length asks.old }
    requires kinds { IsTrue (has_kinds (take count asks.old)) }
    ensures added { IfOk result (λ now. added (effect_of lock.now) (node_of registers.now objects.now cells.now lock.now) (Ok (map ask_of (take count asks.old)))
        ≡ Ok (map ask_of (take now asks.new))) }
    ensures kinds { IfOk result (λ now. IsTrue (has_kinds (take now asks.new))) }
    ensures rest { IfOk result (λ now. drop now asks.new ≡ drop now asks.old) }
    ensures more { IfOk result (λ now. count ≤ now) }
    ensures three { IfOk result (λ now. now ≤ count + 3) }
    ensures needed { IfErr result (λ cell. node_of registers.now objects.now cells.now lock.now ≡ Err cell) }
    ensures length { length asks.new ≡ length asks.old }
{
    match node_of(lock, registers, objects, cells)? {
        Some(node) => Ok(add_all(asks, count, node, lock.effect())),
        None => Ok(count),
    }
}

/// The lock's own node, if it has one; or a cell of which nothing is told.
fn node_of(
    lock: &Lock,
    registers: &[ShownValue],
    objects: &[ShownObject],
    cells: &[ShownCell],
) -> Result<Option<Node>, Cell>
    ensures { result ≡ node_of registers.now objects.now cells.now lock.now }
{
    match lock {
        Lock::Root(_) => Ok(Some(Node::Root)),
        Lock::Class(class, _) => Ok(Some(Node::Class(*class))),
        Lock::Expr(expr, _) => leaf_of(expr, registers, objects, cells),
    }
}

/// The leaf of the cell that the expression denotes, if it denotes one; or a cell of which nothing is told.
#[tactic(auto, using(crate::proofs::TracedLaws::nowhere))]
fn leaf_of(
    expr: &Expr,
    registers: &[ShownValue],
    objects: &[ShownObject],
    cells: &[ShownCell],
) -> Result<Option<Node>, Cell>
    ensures { result ≡ leaf_on objects.now (traced objects.now cells.now expr.now.path (Ok (base_cell registers.now expr.now.base))) }
{
    let Some(start) = base_cell(expr.base, registers) else {
        return Ok(None);
    };
    match trace(objects, cells, expr.path.as_slice(), start)? {
        Some(cell) => Ok(leaf(objects, cell)),
        None => Ok(None),
    }
}

/// The cell at which the evaluation of an expression on the base begins.
fn base_cell(base: Base, registers: &[ShownValue]) -> Option<Cell>
    ensures { result ≡ base_cell registers.now base }
{
    match base {
        Base::Reg(register) => address(*registers.get(usize::from(register))?),
        Base::Global(object) => Some(Cell { object, offset: 0 }),
    }
}

/// The leaf of the cell, where its object is shown: under the number of that.
fn leaf(objects: &[ShownObject], cell: Cell) -> Option<Node>
    ensures { result ≡ leaf objects.now cell }
{
    let object = objects.get(usize::from(cell.object))?;
    let named = Cell {
        object: object.number,
        offset: cell.offset,
    };
    Some(Node::Leaf(named, object.class))
}
