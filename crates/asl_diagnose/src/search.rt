//! The search for statements that bring most of a region's locks.

ghost use Rattle.std.specs.Prelude.{◌≡◌, ◌≤◌, IfOk, IfSome};
ghost use Rattle.asl_diagnose.specs.Brought.{AreBringers};

use crate::most::{Bringers, brought};
use crate::region_lines::{Line, region_lines};
use asl_backward_flow::Region;
use std::alloc::{AllocError, Global};

/// Into how many parts statements are divided.
const PARTS: usize = 16;

/// So many parts are tried together first.
const HALF: usize = 8;

/// How often they are divided: a program has fewer statements than so many parts of parts.
const DIVISIONS: usize = 5;

/// How many bytes of text are inferred for at the most, in all tries together.
const MOST_BYTES: usize = 262_144;

/// How many locks regions need at the most, in all tries together: a lock of a region is as much work as a byte or less, and where
/// many sections call a body of many locks, a few bytes bring very many.
const MOST_LOCKS: usize = 2_097_152;

/// What a search came to.
#[derive(Clone, Copy)]
pub struct Search {
    /// The statements that it found.
    pub found: Option<Bringers>,
    /// Whether it ended before its last try, since a try is much work.
    pub is_cut: bool,
}

/// What tries may still cost, and what one costs in locks, as far as it is known from the last that found statements.
#[derive(Clone, Copy)]
struct Left {
    bytes: usize,
    locks: usize,
    a_try: usize,
    is_spent: bool,
}

/// What all tries together may cost.
fn whole() -> Left {
    Left {
        bytes: MOST_BYTES,
        locks: MOST_LOCKS,
        a_try: 0,
        is_spent: false,
    }
}

/// Takes what a try for so many bytes costs from what is left, and says whether it was left. Where too little is left, nothing is from
/// then on.
fn take_try(left: &mut Left, bytes: usize) -> bool {
    match (
        left.bytes.checked_sub(bytes),
        left.locks.checked_sub(left.a_try),
    ) {
        (Some(bytes), Some(locks)) if !left.is_spent => {
            left.bytes = bytes;
            left.locks = locks;
            true
        }
        _ => {
            left.is_spent = true;
            false
        }
    }
}

/// So many lines from a number on, as far as they are there.
fn part_of(lines: &[Line], from: usize, count: usize) -> &[Line] {
    let (_, part) = lines.split_at(from.min(lines.len()));
    &part[..count.min(part.len())]
}

/// These statements, if they bring most of the locks of the region and a try is left.
fn tried(
    alloc: Global,
    text: &[u8],
    region: Region,
    k: u32,
    lines: &[Line],
    left: &mut Left,
) -> Result<Option<Bringers>, AllocError>
    requires { k ≤ 8 }
    ensures { IfOk result (λ found. IfSome found (AreBringers text.now k region)) }
{
    if !take_try(left, text.len()) {
        return Ok(None);
    }
    brought(alloc, text, region, k, lines, &mut left.a_try)
}

/// Of the parts of these statements the one without which the fewest locks are left, if it brings most of them, and the number of
/// its first statement. Where half of the parts do not bring most of the locks together, none of them is tried alone.
fn best_part(
    alloc: Global,
    text: &[u8],
    region: Region,
    k: u32,
    lines: &[Line],
    left: &mut Left,
) -> Result<Option<(Bringers, usize)>, AllocError>
    requires { k ≤ 8 }
    ensures { IfOk result (λ best. IfSome best (λ part. AreBringers text.now k region part.0)) }
{
    let size = lines.len().saturating_add(PARTS - 1) / PARTS;
    let mut best: Option<(Bringers, usize)> = None;
    let mut is_tried = false;
    for part in 0..PARTS {
        let from = size.saturating_mul(part);
        if part % HALF == 0 {
            let half = part_of(lines, from, size.saturating_mul(HALF));
            is_tried = tried(alloc, text, region, k, half, left)?.is_some();
        }
        if is_tried {
            let own = part_of(lines, from, size);
            if let Some(found) = tried(alloc, text, region, k, own, left)? {
                if best.map_or(true, |other| found.left < other.0.left) {
                    best = Some((found, from));
                }
            }
        }
    }
    Ok(best)
}

/// Statements that bring most of the locks of a region, for paths of at most `k` operations. Its assignments and stores are divided
/// into parts, and so is the part that brings the most, as long as one brings most of the locks, down to a single statement. There is
/// nothing to tell where no part brings most of them, or where another region needs too many locks too. Each try infers for the whole
/// text, so a text of more than some 2,900 bytes, or one whose regions need very many locks, may be tried less often.
pub fn find_bringers(
    alloc: Global,
    text: &[u8],
    region: Region,
    k: u32,
) -> Result<Search, AllocError>
    requires { k ≤ 8 }
    ensures { IfOk result (λ search. IfSome search.found (AreBringers text.now k region)) }
{
    let lines = region_lines(alloc, text, region)?;
    let mut left = whole();
    let mut found = None;
    let mut from: usize = 0;
    let mut count = lines.len();
    for _ in 0..DIVISIONS {
        let part = part_of(lines.as_slice(), from, count);
        let Some((best, first)) = best_part(alloc, text, region, k, part, &mut left)? else {
            return Ok(searched(found, &left));
        };
        found = Some(best);
        from = from.saturating_add(first);
        count = best.count;
        if count <= 1 {
            return Ok(searched(found, &left));
        }
    }
    Ok(searched(found, &left))
}

/// What a search came to that has so much left.
fn searched(found: Option<Bringers>, left: &Left) -> Search
    ensures { result.found ≡ found }
{
    Search {
        found,
        is_cut: left.is_spent,
    }
}
