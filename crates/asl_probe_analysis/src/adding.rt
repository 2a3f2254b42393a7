//! Calls that add locks to one list, read against the classes of a source text, for paths of at most K operations in function F:
//! `add_links K F INSTR LOCK`, `add_accesses K F INSTR`, `add_entered K F FIRST PARAMS LOCK`, each answered by the list, and
//! `stays K F INSTR LOCK`. An instruction is spelled by its eight bytes.
ghost use Rattle.std.specs.Prelude.{◌≤◌};

use asl_code::Lock;
use asl_lock_expr::{LinkContext, Writes, add_accesses, add_entered, add_links, stays};
use asl_points_to::Classes;
use asl_probe_text::{instr, lock, put_bad, put_bool, put_locks};
use std::alloc::AllocError;

pub fn answer(
    line: &str,
    classes: &Classes,
    writes: &Writes,
    locks: &mut Vec<Lock>,
    out: &mut String,
) -> Result<(), AllocError> {
    let mut words = line.splitn(4, ' ');
    let call = words.next().unwrap_or("");
    let k_limit = words.next().and_then(|word| word.parse::<u8>().ok());
    let function = words.next().and_then(|word| word.parse::<u16>().ok());
    let rest = words.next().unwrap_or("");
    match (k_limit, function) {
        (Some(k_limit), Some(function)) if k_limit <= 8 => {
            let view = LinkContext {
                classes,
                writes,
                k_limit: usize::from(k_limit),
                function,
            };
            answer_call(&view, call, rest, locks, out)
        }
        _ => put_bad(line, out),
    }
}

fn answer_call(
    view: &LinkContext,
    call: &str,
    rest: &str,
    locks: &mut Vec<Lock>,
    out: &mut String,
) -> Result<(), AllocError>
    requires { view.now.k_limit ≤ 8 }
{
    if call == "add_entered" {
        return enter(view, rest, locks, out);
    }
    let Some((instr, rest)) = instr(rest) else {
        return put_bad(rest, out);
    };
    match (call, lock(rest)) {
        ("add_accesses", _) => add_accesses(view, &instr, locks)?,
        ("add_links", Some(lock)) => add_links(view, &instr, &lock, locks)?,
        ("stays", Some(lock)) => return put_bool(stays(view, &instr, &lock), out),
        _ => return put_bad(rest, out),
    }
    put_locks(locks, out)
}

fn enter(
    view: &LinkContext,
    rest: &str,
    locks: &mut Vec<Lock>,
    out: &mut String,
) -> Result<(), AllocError>
    requires { view.now.k_limit ≤ 8 }
{
    let mut words = rest.splitn(3, ' ');
    let first = words.next().and_then(|word| word.parse::<u8>().ok());
    let params = words.next().and_then(|word| word.parse::<u8>().ok());
    match (first, params, words.next().and_then(lock)) {
        (Some(first), Some(params), Some(lock)) if u32::from(first) + u32::from(params) <= 256 => {
            add_entered(view, first, params, &lock, locks)?;
            put_locks(locks, out)
        }
        _ => put_bad(rest, out),
    }
}
