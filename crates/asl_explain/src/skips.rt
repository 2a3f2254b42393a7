//! Ways past branches and loops in which nothing happens to a lock, so that a search goes past many of them at once. Unproved, as the
//! search is: `confirm.rt` looks at what it finds again.

use asl_code::Instr;
use std::alloc::{AllocError, Global};

/// All ways on from a jump come together at a pc behind it.
#[derive(Clone, Copy)]
struct Span {
    to: u16,
    /// How many instructions the shortest of these ways has.
    passed: u32,
    /// The number of the first jump from there on.
    next: usize,
    /// Whether that jump has a span, too, by which this one is followed.
    is_followed: bool,
    /// How many spans follow.
    depth: u32,
    /// How many instructions are on the way as far as the last of them.
    whole: u32,
    /// The number of one of those that follow, far behind.
    far: usize,
}

/// Where a way goes, over so many instructions.
#[derive(Clone, Copy)]
pub struct Passed {
    pub pc: u16,
    pub instructions: u32,
}

/// The jumps of a program, in order.
#[derive(Drop)]
pub struct Skips {
    pcs: Vec<u16>,
    /// For each jump its span, if it has one.
    spans: Vec<Option<Span>>,
}

/// How many instructions the pcs are apart.
fn apart(from: u16, to: u16) -> u32 {
    u32::from(to.saturating_sub(from))
}

/// A way that goes straight on from a pc to another, after so many instructions.
fn way(from: u16, to: u16, passed: u32) -> Passed {
    Passed {
        pc: to,
        instructions: passed.saturating_add(apart(from, to)),
    }
}

/// The lower of two lengths that may be missing.
fn shorter(a: Option<u32>, b: Option<u32>) -> Option<u32> {
    match (a, b) {
        (Some(a), Some(b)) => Some(a.min(b)),
        (None, b) => b,
        (a, None) => a,
    }
}

/// The pcs of the jumps of a program.
fn jumps_of(alloc: Global, code: &[Instr]) -> Result<Vec<u16>, AllocError> {
    let mut pcs = Vec::new(alloc);
    let mut pc: u16 = 0;
    for instr in code {
        match instr {
            Instr::Jump { .. } | Instr::JumpIfZero { .. } => pcs.push(pc)?,
            _ => {}
        }
        pc = pc.saturating_add(1);
    }
    Ok(pcs)
}

/// The jumps of a program, with the spans of those that have one.
pub fn find_skips(alloc: Global, code: &[Instr]) -> Result<Skips, AllocError> {
    let pcs = jumps_of(alloc, code)?;
    let mut number = pcs.len();
    let spans = vec![in alloc; None; number]?;
    let mut skips = Skips { pcs, spans };
    for _ in 0..skips.spans.len() {
        number = number.saturating_sub(1);
        let span = skips.find_span(code, number);
        if let Some(place) = skips.spans.get_mut(number) {
            *place = span;
        }
    }
    Ok(skips)
}

impl Skips {
    /// The number of the first jump that is not below a pc.
    fn first_from(&self, pc: u16) -> usize {
        match self.pcs.binary_search(&pc) {
            Ok(place) | Err(place) => place,
        }
    }

    /// The pc of the jump of a number.
    fn pc(&self, number: usize) -> Option<u16> {
        self.pcs.get(number).copied()
    }

    /// The span of the jump of a number.
    fn span(&self, number: usize) -> Option<Span> {
        match self.spans.get(number) {
            Some(span) => *span,
            None => None,
        }
    }

    /// The span of the jump of a number, where those of all behind it are known.
    fn find_span(&self, code: &[Instr], number: usize) -> Option<Span> {
        let pc = self.pc(number)?;
        match *code.get(usize::from(pc))? {
            Instr::Jump { target } if target > pc => Some(self.new_span(target, 1)),
            Instr::JumpIfZero { target, .. } if target > pc => {
                let to = self.end_of(code, number, target)?;
                let taken = self.shortest(target, to);
                let passed = shorter(taken, self.shortest(pc.saturating_add(1), to))?;
                Some(self.new_span(to, passed.saturating_add(1)))
            }
            _ => None,
        }
    }

    /// Where the ways from the jump of a number to a target, and to the next instruction, come together, unless one leads out before.
    fn end_of(&self, code: &[Instr], number: usize, target: u16) -> Option<u16> {
        let from = self.pc(number)?;
        let mut end = target;
        let mut next = number.saturating_add(1);
        for _ in 0..self.pcs.len() {
            let Some(pc) = self.pc(next) else {
                return Some(end);
            };
            if pc >= end {
                return Some(end);
            }
            let (to, behind) = self.ends(code, next, pc)?;
            if to < from {
                return None;
            }
            end = end.max(to);
            next = behind.max(next.saturating_add(1));
        }
        Some(end)
    }

    /// How far the jump of a number at a pc leads, and the number of the next that is to be looked at.
    fn ends(&self, code: &[Instr], number: usize, pc: u16) -> Option<(u16, usize)> {
        match *code.get(usize::from(pc))? {
            Instr::Jump { target } => Some((target, number)),
            _ => {
                let span = self.span(number)?;
                Some((span.to, span.next))
            }
        }
    }

    /// How many instructions the shortest way has from a pc to the end of a span, if it does not go round a loop.
    fn shortest(&self, from: u16, to: u16) -> Option<u32> {
        let mut passed: u32 = 0;
        let mut at = from;
        let mut next = self.first_from(from);
        for _ in 0..self.pcs.len() {
            let Some(pc) = self.pc(next) else {
                break;
            };
            if pc >= to {
                break;
            }
            let span = self.span(next)?;
            passed = passed.saturating_add(apart(at, pc));
            passed = passed.saturating_add(span.passed);
            at = span.to;
            next = span.next;
        }
        Some(passed.saturating_add(apart(at, to)))
    }

    /// A span that ends at a pc, with those that follow.
    fn new_span(&self, to: u16, passed: u32) -> Span {
        let next = self.first_from(to);
        let (Some(pc), Some(span)) = (self.pc(next), self.span(next)) else {
            return Span {
                to,
                passed,
                next,
                is_followed: false,
                depth: 0,
                whole: 0,
                far: next,
            };
        };
        let whole = passed.saturating_add(apart(to, pc));
        Span {
            to,
            passed,
            next,
            is_followed: true,
            depth: span.depth.saturating_add(1),
            whole: whole.saturating_add(span.whole),
            far: self.far_behind(next, span),
        }
    }

    /// The number of the span that one which this follows looks at first: where the two steps from there on are as long, the end of the
    /// second; else this one. So it takes few steps to go past many spans.
    fn far_behind(&self, next: usize, span: Span) -> usize {
        if !span.is_followed {
            return next;
        }
        let Some(far) = self.span(span.far) else {
            return next;
        };
        if !far.is_followed {
            return next;
        }
        let Some(beyond) = self.span(far.far) else {
            return next;
        };
        if span.depth.saturating_sub(far.depth) == far.depth.saturating_sub(beyond.depth) {
            far.far
        } else {
            next
        }
    }

    /// The span behind this one that is to be looked at next, of those that end at a pc or before.
    fn step_within(&self, at: Span, end: u16) -> Option<Span> {
        if !at.is_followed {
            return None;
        }
        if let Some(far) = self.span(at.far) {
            if far.to <= end {
                return Some(far);
            }
        }
        let next = self.span(at.next)?;
        if next.to <= end { Some(next) } else { None }
    }

    /// The last span from this one on that ends at a pc or before.
    fn last_within(&self, first: Span, end: u16) -> Option<Span> {
        if first.to > end {
            return None;
        }
        let mut at = first;
        for _ in 0..self.spans.len() {
            let Some(next) = self.step_within(at, end) else {
                return Some(at);
            };
            at = next;
        }
        Some(at)
    }

    /// From a pc on, where nothing happens to a lock before another: as far as that, or as the first jump from which not all ways
    /// come together before it.
    pub fn pass(&self, from: u16, end: u16) -> Passed {
        let number = self.first_from(from);
        let Some(pc) = self.pc(number) else {
            return way(from, end, 0);
        };
        if pc >= end {
            return way(from, end, 0);
        }
        self.pass_spans(number, pc, end, apart(from, pc))
    }

    /// So from the jump of a number, at a pc, after so many instructions.
    fn pass_spans(&self, number: usize, pc: u16, end: u16, passed: u32) -> Passed {
        let Some(first) = self.span(number) else {
            return way(pc, pc, passed);
        };
        let Some(last) = self.last_within(first, end) else {
            return way(pc, pc, passed);
        };
        let spans = first.whole.saturating_sub(last.whole);
        let spans = spans.saturating_add(last.passed);
        let to = match self.pc(last.next) {
            Some(next) => next.min(end),
            None => end,
        };
        way(last.to, to, passed.saturating_add(spans))
    }
}
