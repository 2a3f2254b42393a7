//! The data of globals and of lock lists.
ghost use Rattle.std.specs.Prelude.{◌≡◌, ◌≤◌, ◌++◌, length, OnErr, OnOk};
ghost use Rattle.asl_parallel_c.specs.Lists.{class_lines, classes_text, list_text, lists_from, lock_lines, table_text};

use crate::growth::Growth;
use crate::lock::put_lock;
use crate::template::{fill, repeat};
use asl_code::{Items, Lock};
use std::alloc::AllocError;

/// Adds the lines of the classes of globals.
fn put_class_lines<G: Growth>(
    growth: G,
    text: &mut Vec<u8>,
    classes: &[u16],
) -> Result<(), AllocError>
    ensures written { OnOk result (text.new.items ≡ text.old.items ++ class_lines classes.now) }
    ensures growth { OnErr result (G.refused growth) }
{
    for class in classes {
        fill(growth, text, b"  @,\n", &[u32::from(*class)])?;
    }
    Ok(())
}

/// Adds the table of the classes of globals.
pub(crate) fn put_classes<G: Growth>(
    growth: G,
    text: &mut Vec<u8>,
    classes: &[u16],
) -> Result<(), AllocError>
    ensures written { OnOk result (text.new.items ≡ text.old.items ++ classes_text classes.now) }
    ensures growth { OnErr result (G.refused growth) }
{
    growth.append(text, b"static const uint16_t aslr_classes[] = {\n")?;
    put_class_lines(growth, text, classes)?;
    growth.append(text, b"  0};\n\n")
}

/// Adds the lines of locks.
fn put_locks<G: Growth>(growth: G, text: &mut Vec<u8>, locks: &[Lock]) -> Result<(), AllocError>
    ensures written { OnOk result (text.new.items ≡ text.old.items ++ lock_lines locks.now) }
    ensures growth { OnErr result (G.refused growth) }
{
    for lock in locks {
        put_lock(growth, text, lock)?;
    }
    Ok(())
}

/// Adds the list of this number.
fn put_list<G: Growth>(
    growth: G,
    text: &mut Vec<u8>,
    number: u32,
    locks: &[Lock],
) -> Result<(), AllocError>
    ensures written { OnOk result (text.new.items ≡ text.old.items ++ list_text number locks.now) }
    ensures growth { OnErr result (G.refused growth) }
{
    fill(
        growth,
        text,
        b"static const aslr_lock aslr_list@[] = {\n",
        &[number],
    )?;
    put_locks(growth, text, locks)?;
    growth.append(text, b"  {ASLR_END, 0, 0, 0, {0}}};\n\n")
}

/// Adds the lists.
pub(crate) fn put_lists<G: Growth>(
    growth: G,
    text: &mut Vec<u8>,
    lists: &[Items<Lock>],
) -> Result<(), AllocError>
    requires { length lists.now ≤ 1024 }
    ensures written { OnOk result (text.new.items ≡ text.old.items ++ lists_from 0 lists.now) }
    ensures growth { OnErr result (G.refused growth) }
{
    for (number, list) in lists.iter().enumerate() {
        put_list(growth, text, number as u32, list.as_slice())?;
    }
    Ok(())
}

/// Adds the table of so many lists.
pub(crate) fn put_table<G: Growth>(
    growth: G,
    text: &mut Vec<u8>,
    count: usize,
) -> Result<(), AllocError>
    requires { count ≤ 1024 }
    ensures written { OnOk result (text.new.items ≡ text.old.items ++ table_text count) }
    ensures growth { OnErr result (G.refused growth) }
{
    growth.append(text, b"static const aslr_lock *const aslr_lists[] = {\n")?;
    repeat(growth, text, b"  aslr_list@,\n", 0, count as u32)?;
    growth.append(text, b"  NULL};\n\n")
}
