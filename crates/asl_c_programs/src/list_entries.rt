//! Lists and locks of a program.
ghost use Rattle.std.specs.Prelude.{◌≡◌, false, []};
ghost use Rattle.std.specs.List.{list_any};
ghost use Rattle.asl_c_programs.specs.Tables.{is_follow, is_for_writing, is_of_class, is_root, is_write, list_at, reads_cell};
ghost use Rattle.asl_c_programs.specs.Locks.{lock_at, lock_entry, path_numbers};

use crate::entries::{ListEntry, LockEntry};
use crate::expressions::{
    NO_CLASS, base_number, class_or_none, expr_class, is_global, path_numbers,
};
use crate::opened::{Opened, SourceFacts};
use asl_code::{Effect, Items, Lock, Op, Program};

/// Whether some list has a lock on the root.
pub fn names_root(lists: &[Items<Lock>]) -> bool
    ensures { result ≡ list_any (list_any is_root) lists.now }
{
    lists.iter().any(|list| has_root(list.as_slice()))
}

/// Whether some list has a lock on the class.
pub fn names_class(lists: &[Items<Lock>], class: u32) -> bool
    ensures { result ≡ list_any (list_any (is_of_class class)) lists.now }
{
    lists.iter().any(|list| has_class(list.as_slice(), class))
}

/// The list of this number.
pub fn list(program: &Program, number: u32) -> Option<ListEntry>
    ensures { result ≡ list_at program.now number }
{
    let locks = program.lists().get(number as usize)?.as_slice();
    Some(ListEntry {
        locks: locks.len(),
        reads_cells: reads_cells(locks),
        writes: writes(locks),
    })
}

/// The lock of this number of the list of this number.
pub fn lock(opened: &Opened, list: u32, number: u32) -> Option<LockEntry>
    ensures { result ≡ lock_at opened.now list number }
{
    let locks = opened.program.lists().get(list as usize)?.as_slice();
    let lock = locks.get(number as usize)?;
    Some(entry(&opened.facts, list, lock))
}

/// A lock of the list of this number.
fn entry(facts: &Option<SourceFacts>, list: u32, lock: &Lock) -> LockEntry
    ensures { result ≡ lock_entry facts.now list lock.now }
{
    match lock {
        Lock::Root(effect) => whole(0, *effect, NO_CLASS),
        Lock::Class(class, effect) => whole(1, *effect, *class),
        Lock::Expr(expr, effect) => LockEntry {
            kind: 2,
            writes: is_write(*effect),
            from_global: is_global(expr.base),
            operations: expr.path.len() as u8,
            base: base_number(expr.base),
            class: class_or_none(expr_class(facts, list, expr)),
            path: path_numbers(expr.path.as_slice()),
        },
    }
}

/// A lock with no expression.
fn whole(kind: u8, effect: Effect, class: u16) -> LockEntry
    ensures { result ≡ record {
      kind = kind;
      writes = is_write effect;
      from_global = false;
      operations = 0;
      base = 0;
      class = class;
      path = path_numbers [];
    } }
{
    LockEntry {
        kind,
        writes: is_write(effect),
        from_global: false,
        operations: 0,
        base: 0,
        class,
        path: [0; 8],
    }
}

/// Whether a list has a lock on the root.
fn has_root(locks: &[Lock]) -> bool
    ensures { result ≡ list_any is_root locks.now }
{
    locks.iter().any(|lock| is_root(lock))
}

/// Whether a list has a lock on the class.
fn has_class(locks: &[Lock], class: u32) -> bool
    ensures { result ≡ list_any (is_of_class class) locks.now }
{
    locks.iter().any(|lock| is_of_class(lock, class))
}

/// Whether the evaluation of a list reads cells.
fn reads_cells(locks: &[Lock]) -> bool
    ensures { result ≡ list_any reads_cell locks.now }
{
    locks.iter().any(|lock| reads_cell(lock))
}

/// Whether some lock of a list is for writing.
fn writes(locks: &[Lock]) -> bool
    ensures { result ≡ list_any is_for_writing locks.now }
{
    locks.iter().any(|lock| is_write(lock.effect()))
}

/// Whether the lock is the root's.
fn is_root(lock: &Lock) -> bool
    ensures { result ≡ is_root lock.now }
{
    match lock {
        Lock::Root(_) => true,
        Lock::Class(_, _) | Lock::Expr(_, _) => false,
    }
}

/// Whether the lock is the class's.
fn is_of_class(lock: &Lock, wanted: u32) -> bool
    ensures { result ≡ is_of_class wanted lock.now }
{
    match lock {
        Lock::Class(class, _) => u32::from(*class) == wanted,
        Lock::Root(_) | Lock::Expr(_, _) => false,
    }
}

/// Whether the evaluation of the lock reads a cell.
fn reads_cell(lock: &Lock) -> bool
    ensures { result ≡ reads_cell lock.now }
{
    match lock {
        Lock::Expr(expr, _) => has_follow(expr.path.as_slice()),
        Lock::Root(_) | Lock::Class(_, _) => false,
    }
}

/// Whether some operation of the path reads a cell.
fn has_follow(path: &[Op]) -> bool
    ensures { result ≡ list_any is_follow path.now }
{
    path.iter().any(|op| is_follow(*op))
}

/// Whether the operation reads a cell.
fn is_follow(op: Op) -> bool
    ensures { result ≡ is_follow op }
{
    match op {
        Op::Deref => true,
        Op::Off(_) => false,
    }
}

/// Whether the effect is a write.
fn is_write(effect: Effect) -> bool
    ensures { result ≡ is_write effect }
{
    match effect {
        Effect::Read => false,
        Effect::Write => true,
    }
}
