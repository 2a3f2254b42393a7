//! Whether statements of a region bring most of its locks.

ghost use Rattle.std.specs.Prelude.{◌≡◌, ◌≤◌, true, IfOk, IfSome};
ghost use Rattle.asl_syntax.specs.AstView.{tree_of};
ghost use Rattle.asl_backward_flow.specs.Needed.{region_of};
ghost use Rattle.asl_diagnose.specs.Brought.{AreBringers, HasFlow, HasLocks, IsFilledIn, IsInRegion, IsKept, NeedsSoMany};

use crate::region_lines::{Line, region_start};
use asl_backward_flow::{Flow, Region, needed};
use asl_diagnose_text::{are_statements, is_open};
use asl_emitter::InferFault;
use asl_lower::lower;
use asl_points_to::classes;
use asl_syntax::{Ast, SyntaxFault, parse};
use std::alloc::{AllocError, Global};

/// The most locks that are left of a region where most of them are gone: half of those that a region may need.
const FEW: usize = 2048;

/// The most regions of a program: 1,024 sections, and the bodies of 256 functions.
const MOST_REGIONS: usize = 1280;

/// Statements that bring most of the locks of a region, since without them it needs few: the same text with `0` for the values of
/// these assignments and with blanks for these stores is a program, and the region needs as many different locks in it as are left.
#[derive(Clone, Copy)]
pub struct Bringers {
    /// The place of the first of them.
    pub from: usize,
    /// The place after the last of them.
    pub to: usize,
    /// How many assignments and stores there are; other statements may stand between.
    pub count: usize,
    /// How many locks are left.
    pub left: usize,
}

/// What the regions of a program need.
fn flow_of(alloc: Global, ast: &Ast<'_>, k: u32) -> Result<Flow, InferFault>
    requires { k ≤ 8 }
    ensures { IfOk result (HasFlow (tree_of ast.now) k) }
{
    let lowering = lower(alloc, ast)?;
    let classes = classes(alloc, &lowering)?;
    Ok(needed(alloc, &lowering, &classes, k)?)
}

/// How many different locks a region of a text needs; nothing where the text is no program, or where a region of it needs too many.
/// Where there is something to tell, `work` is then how many locks all of its regions need together.
fn count_locks(
    alloc: Global,
    text: &[u8],
    region: Region,
    k: u32,
    work: &mut usize,
) -> Result<Option<usize>, AllocError>
    requires { k ≤ 8 }
    ensures { IfOk result (λ count. IfSome count (NeedsSoMany text.now k region)) }
{
    let ast = match parse(alloc, text) {
        Ok(ast) => ast,
        Err(SyntaxFault::OutOfMemory) => return Err(AllocError),
        Err(_) => return Ok(None),
    };
    match flow_of(alloc, &ast, k) {
        Ok(flow) => {
            *work = all_locks(&flow);
            Ok(Some(locks_of(&flow, region)))
        }
        Err(InferFault::OutOfMemory) => Err(AllocError),
        Err(_) => Ok(None),
    }
}

/// How many different locks a region needs.
fn locks_of(flow: &Flow, region: Region) -> usize
    ensures { HasLocks flow.now (region_of region) result }
{
    match flow.place(region) {
        Some(place) => flow.locks(place).len(),
        None => 0,
    }
}

/// How many locks all regions need together.
fn all_locks(flow: &Flow) -> usize {
    let mut all: usize = 0;
    for place in 0..MOST_REGIONS {
        all = all.saturating_add(flow.locks(place).len());
    }
    all
}

/// A text with `0` for the values of these assignments, and blanks for these stores.
fn without(alloc: Global, text: &[u8], lines: &[Line]) -> Result<Vec<u8>, AllocError> {
    let mut rest = text.to_vec(alloc)?;
    for line in lines {
        for at in line.value..line.end {
            if let Some(byte) = rest.get_mut(at) {
                *byte = left_at(line, at);
            }
        }
    }
    Ok(rest)
}

/// What is left at a place of such a line: `0;` of an assignment's value, nothing of a store.
fn left_at(line: &Line, at: usize) -> u8 {
    if line.is_store {
        b' '
    } else if at == line.value {
        b'0'
    } else if at.saturating_add(1) == line.end {
        b';'
    } else {
        b' '
    }
}

/// Whether a byte stays, or filling stands for it at a place where it may.
fn is_kept(start: usize, end: usize, at: usize, old: u8, new: u8) -> bool
    ensures { result ≡ true → IsKept start end at old new }
{
    old == new || (start <= at && at < end && (new == b' ' || new == b'0' || new == b';'))
}

/// Whether a text is another one with filling for what stands between two places.
fn is_filled_in(text: &[u8], start: usize, end: usize, rest: &[u8]) -> bool
    ensures { result ≡ true → IsFilledIn text.now start end rest.now }
{
    if rest.len() != text.len() {
        return false;
    }
    for (at, byte) in text.iter().enumerate() {
        if !is_kept(start, end, at, *byte, rest[at]) {
            return false;
        }
    }
    true
}

/// Whether a region has what stands from one place to another.
fn is_in_region(text: &[u8], region: Region, from: usize, to: usize) -> bool
    ensures { result ≡ true → IsInRegion text.now region from to }
{
    match region_start(text, region) {
        Some(start) => start < from && is_open(text, start, to),
        None => false,
    }
}

/// These statements, if they bring most of the locks of the region. `work` is as in `count_locks`.
pub(crate) fn brought(
    alloc: Global,
    text: &[u8],
    region: Region,
    k: u32,
    lines: &[Line],
    work: &mut usize,
) -> Result<Option<Bringers>, AllocError>
    requires { k ≤ 8 }
    ensures { IfOk result (λ found. IfSome found (AreBringers text.now k region)) }
{
    let (Some(first), Some(last)) = (lines.first(), lines.last()) else {
        return Ok(None);
    };
    if !are_statements(text, first.start, last.end, lines.len()) {
        return Ok(None);
    }
    if !is_in_region(text, region, first.start, last.end) {
        return Ok(None);
    }
    let rest = without(alloc, text, lines)?;
    if !is_filled_in(text, first.start, last.end, rest.as_slice()) {
        return Ok(None);
    }
    match count_locks(alloc, rest.as_slice(), region, k, work)? {
        Some(left) if left <= FEW => Ok(Some(Bringers {
            from: first.start,
            to: last.end,
            count: lines.len(),
            left,
        })),
        _ => Ok(None),
    }
}
