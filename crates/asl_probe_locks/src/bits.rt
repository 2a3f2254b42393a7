//! Two sets of numbers, `a` and `b`: `new SET LEN [of N]` (with the multiples of N), `add SET N`, `has SET N`, `len SET`,
//! `members SET`, `agree SET` (whether `has` and `members` say the same), `merge INTO`, `within SET`, of which the last two take
//! the other set too.
use asl_lane_sets::Bits;
use asl_probe_text::{put_bad, put_bool, put_number};
use std::alloc::{AllocError, Global};

pub fn answer(alloc: Global, calls: &str, out: &mut String) -> Result<(), AllocError> {
    let mut a = made(alloc, 0)?;
    let mut b = made(alloc, 0)?;
    for line in calls.lines() {
        let (call, rest) = line.split_once(' ').unwrap_or((line, ""));
        let (name, rest) = rest.split_once(' ').unwrap_or((rest, ""));
        if name == "b" {
            answer_call(alloc, call, rest, &mut b, &a, out)?;
        } else {
            answer_call(alloc, call, rest, &mut a, &b, out)?;
        }
    }
    Ok(())
}

fn answer_call(
    alloc: Global,
    call: &str,
    rest: &str,
    set: &mut Bits,
    other: &Bits,
    out: &mut String,
) -> Result<(), AllocError> {
    let len = set.len();
    let together = len == other.len();
    match call {
        "new" => {
            *set = multiples(alloc, rest)?;
            Ok(())
        }
        "add" | "has" => {
            let number = rest.parse::<usize>().unwrap_or(len);
            if number >= len {
                return put_bad(rest, out);
            }
            if call == "has" {
                return put_bool(set.has(number), out);
            }
            set.add(number);
            Ok(())
        }
        "len" => write!(out, "{len}\n"),
        "members" => put_members(alloc, set, out),
        "agree" => put_bool(agree(alloc, set)?, out),
        "merge" if together => put_bool(set.merge(other), out),
        "within" if together => put_bool(set.within(other), out),
        _ => put_bad(call, out),
    }
}

/// A set of a text such as `70`, or `70 of 5`, which has the multiples of five.
fn multiples(alloc: Global, text: &str) -> Result<Bits, AllocError> {
    let (len, of) = text.split_once(" of ").unwrap_or((text, "0"));
    let mut set = made(alloc, len.parse::<usize>().unwrap_or(0))?;
    add_multiples(of.parse::<usize>().unwrap_or(0), &mut set);
    Ok(set)
}

/// Makes the set again where an allocation fails.
fn made(alloc: Global, len: usize) -> Result<Bits, AllocError> {
    match Bits::with_len(alloc, len) {
        Err(_refused) => Bits::with_len(alloc, len),
        set => set,
    }
}

fn add_multiples(of: usize, set: &mut Bits) {
    let len = set.len();
    for number in 0..len {
        if of != 0 && number % of == 0 && number < set.len() {
            set.add(number);
        }
    }
}

/// Whether `has` says of each number what `members` says.
fn agree(alloc: Global, set: &Bits) -> Result<bool, AllocError> {
    let members = set.members(alloc)?;
    let mut left = members.iter();
    let mut next = left.next();
    for number in 0..set.len() {
        let is_member = next == Some(&number);
        if set.has(number) != is_member {
            return Ok(false);
        }
        if is_member {
            next = left.next();
        }
    }
    Ok(next == None)
}

fn put_members(alloc: Global, set: &Bits, out: &mut String) -> Result<(), AllocError> {
    let members = match set.members(alloc) {
        Err(_refused) => set.members(alloc)?,
        Ok(members) => members,
    };
    for member in &members {
        put_number(*member, out)?;
    }
    out.push('\n')
}
