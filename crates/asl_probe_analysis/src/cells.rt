//! The cells that expressions denote, over registers `regs VALUE ..` and a heap whose only object has the number 1 and the cells
//! `cells VALUE VALUE VALUE`: `eval LOCK`, `follow CELL LOCK` by the lock's path, `go_on CELL N`, `pointed VALUE`. And lists of
//! locks, with `; ` between: `dereferenced LOCK`, `in_order LOCKS`, which are added one after the other.
ghost use Rattle.asl_lock_expr.specs.Order.{AreInOrder};

use asl_code::{Cell, Lock, Value};
use asl_lock_expr::{HeapView, add_dereferenced, add_in_order, eval, follow, go_on, pointed};
use asl_probe_text::{cell, lock, put_bad, put_line, put_locks, value};
use std::alloc::{AllocError, Global};

/// A heap whose only object has the number 1 and three cells.
#[derive(Drop)]
struct OneObject {
    cells: [Value; 3],
}

impl HeapView for OneObject {
    ghost use Rattle.asl_probe_analysis.specs.OneObject.{one_object};

    ghost seen = { λ h. one_object h.cells };

    fn cell(&self, cell: Cell) -> Option<Value> {
        if cell.object == 1 {
            self.cells.get(usize::from(cell.offset)).copied()
        } else {
            None
        }
    }

    fn size(&self, object: u16) -> Option<u8> {
        if object == 1 { Some(3) } else { None }
    }
}

pub fn answer(alloc: Global, calls: &str, out: &mut String) -> Result<(), AllocError> {
    let mut regs = Vec::new(alloc);
    let mut heap = OneObject {
        cells: [Value::Null; 3],
    };
    for line in calls.lines() {
        let (call, rest) = line.split_once(' ').unwrap_or((line, ""));
        match call {
            "regs" => regs = values(alloc, rest)?,
            "cells" => heap.cells = three(values(alloc, rest)?.as_slice()),
            "dereferenced" => put_dereferenced(alloc, rest, out)?,
            "in_order" => put_in_order(alloc, rest, out)?,
            _ => answer_call(regs.as_slice(), &heap, call, rest, out)?,
        }
    }
    Ok(())
}

fn values(alloc: Global, text: &str) -> Result<Vec<Value>, AllocError> {
    let mut values = Vec::new(alloc);
    for word in text.split_whitespace() {
        values.push(value(word).unwrap_or(Value::Null))?;
    }
    Ok(values)
}

fn three(values: &[Value]) -> [Value; 3] {
    match values {
        [one, two, three] => [*one, *two, *three],
        _ => [Value::Null; 3],
    }
}

fn answer_call(
    regs: &[Value],
    heap: &OneObject,
    call: &str,
    rest: &str,
    out: &mut String,
) -> Result<(), AllocError> {
    let (first, others) = rest.split_once(' ').unwrap_or((rest, ""));
    match call {
        "eval" => match lock(rest) {
            Some(Lock::Expr(expr, _)) => put_cell(eval(&expr, regs, heap), out),
            _ => put_bad(rest, out),
        },
        "follow" => match (cell(first), lock(others)) {
            (Some(start), Some(Lock::Expr(expr, _))) => {
                put_cell(follow(expr.path.as_slice(), start, heap), out)
            }
            _ => put_bad(rest, out),
        },
        "go_on" => match (cell(first), others.parse::<u8>()) {
            (Some(start), Ok(places)) => put_cell(go_on(heap, places, start), out),
            _ => put_bad(rest, out),
        },
        "pointed" => match value(rest) {
            Some(value) => put_cell(pointed(value), out),
            None => put_bad(rest, out),
        },
        _ => put_bad(call, out),
    }
}

fn put_cell(cell: Option<Cell>, out: &mut String) -> Result<(), AllocError> {
    match cell {
        Some(cell) => write!(out, "{}.{}\n", cell.object, cell.offset),
        None => put_line("no cell", out),
    }
}

fn put_dereferenced(alloc: Global, text: &str, out: &mut String) -> Result<(), AllocError> {
    let mut locks = Vec::new(alloc);
    if let Some(lock) = lock(text) {
        add_dereferenced(&lock, &mut locks)?;
    }
    put_locks(&locks, out)
}

fn put_in_order(alloc: Global, text: &str, out: &mut String) -> Result<(), AllocError> {
    let mut locks = Vec::new(alloc);
    for text in text.split("; ") {
        if let Some(lock) = lock(text) {
            add_in_order(&mut locks, lock)?;
        }
    }
    put_locks(&locks, out)
}
