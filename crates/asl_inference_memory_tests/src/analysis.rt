//! Calls of the analysis: trees, lowerings, classes and written classes.
use asl_lock_expr::{Writes, writes};
use asl_lower::{LowerFault, Lowering, lower};
use asl_points_to::{Classes, ClassesFault, classes};
use asl_refused_memory::answered;
use asl_syntax::{Ast, Name, SyntaxFault, parse};
use std::alloc::{AllocError, Global};

fn parsed(alloc: Global, source: &[u8]) -> Result<Ast<'_>, SyntaxFault> {
    parse(alloc, source)
}

/// The tree of a source.
pub fn tree(alloc: Global, source: &[u8]) -> Option<Ast<'_>> {
    answered(alloc, SyntaxFault::OutOfMemory, parsed, source)
}

fn made_lower(alloc: Global, ast: &Ast<'_>) -> Result<Lowering, LowerFault> {
    lower(alloc, ast)
}

/// A source's lowering.
pub fn lowered(alloc: Global, source: &[u8]) -> Option<Lowering> {
    let ast = tree(alloc, source)?;
    answered(alloc, LowerFault::OutOfMemory, made_lower, &ast)
}

fn told_apart(alloc: Global, lowering: &Lowering) -> Result<Classes, ClassesFault> {
    classes(alloc, lowering)
}

/// The classes of a lowering.
pub fn classed(alloc: Global, lowering: &Lowering) -> Option<Classes> {
    answered(alloc, ClassesFault::OutOfMemory, told_apart, lowering)
}

/// A lowering with its classes.
type Analysed<'a> = (&'a Lowering, &'a Classes);

fn stored(alloc: Global, given: Analysed<'_>) -> Result<Writes, AllocError> {
    writes(alloc, given.0, given.1)
}

/// The written classes of a lowering.
pub fn written(alloc: Global, lowering: &Lowering, classes: &Classes) -> Option<Writes> {
    answered(alloc, AllocError, stored, (lowering, classes))
}

/// Calls, loads and stores, with members that share a class and some that don't.
static MERGED: &[u8] =
    b"global a; global b; fn put(q, v) { *q = v; return v; } fn main(t) { n = new 1; p = &a; atomic { r = put(p, n); if t { p = &b; } x = *p; *x = n; } return t; }";

/// The number of classes, and where three registers of `main` and the cells of two classes point.
type Told = (u16, [Option<u16>; 3], [Option<u16>; 2]);

fn told(classes: &Classes) -> Told {
    (
        classes.count(),
        [classes.to(1, 1), classes.to(1, 2), classes.to(1, 4)],
        [classes.inside(0), classes.inside(1)],
    )
}

/// What is told of the classes of a source, and which of two classes each of two functions writes.
fn analysed(alloc: Global, source: &[u8]) -> Option<(Told, [bool; 4])> {
    let lowering = lowered(alloc, source)?;
    let classes = classed(alloc, &lowering)?;
    let writes = written(alloc, &lowering, &classes)?;
    let has = [
        writes.has(0, 0),
        writes.has(0, 1),
        writes.has(1, 0),
        writes.has(1, 1),
    ];
    Some((told(&classes), has))
}

/// A name twice, an unknown name, a call with too few arguments, and no `main`.
static WRONG: [&[u8]; 4] = [
    b"global g; fn main(t) { x = &g; return t; } global g;",
    b"global g; fn main(t) { x = &g; y = z; return t; }",
    b"fn f(a, b) { return a; } fn main(t) { x = f(t); return t; }",
    b"global g; fn main(t, u) { x = &g; return t; }",
];

/// The fault of a source, judged once: refused memory hides none.
fn fault(alloc: Global, number: usize) -> Option<SyntaxFault> {
    if number < 4 {
        parse(alloc, WRONG[number]).err()
    } else {
        None
    }
}

#[test]
fn refused_memory_hides_no_fault_of_names(rt: HostRuntime) {
    let twice = SyntaxFault::Twice(Name::from_slice(b"g"));
    assert!(rt; fault(rt.alloc(), 0) == Some(twice));
    let unknown = SyntaxFault::Unknown(Name::from_slice(b"z"));
    assert!(rt; fault(rt.alloc(), 1) == Some(unknown));
    assert!(rt; fault(rt.alloc(), 2) == Some(SyntaxFault::Arity(42)));
    assert!(rt; fault(rt.alloc(), 3) == Some(SyntaxFault::NoMain));
}

#[test]
fn classes_and_written_classes_are_told(rt: HostRuntime) {
    let classes = (2, [Some(1), Some(0), Some(1)], [Some(1), Some(1)]);
    let found = analysed(rt.alloc(), MERGED);
    assert!(rt; found == Some((classes, [true, false, true, true])));
}
