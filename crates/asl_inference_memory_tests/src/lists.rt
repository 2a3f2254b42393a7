//! Calls whose answers are lists of locks: links, needed locks, what is left of lists, and inferred programs.
use crate::analysis::{classed, lowered, tree, written};
use asl_assembler::disassemble;
use asl_backward_flow::{Flow, FlowFault, Region, needed};
use asl_code::{Base, Effect, Expr, Lock, Op, Path, Program};
use asl_emitter::{InferFault, fit, infer, reduce};
use asl_lock_expr::{Writes, links};
use asl_lower::Lowering;
use asl_points_to::Classes;
use asl_refused_memory::answered;
use asl_syntax::Ast;
use std::alloc::{AllocError, Global};

/// A callee that writes what its caller reads later.
static CALL: &[u8] =
    b"global h; global c; fn put(q, v) { *q = v; return v; } fn main(t) { n = new 1; p = &h; atomic { r = put(p, n); x = *p; *x = t; s = &c; *s = t; } return t; }";

/// An element is pushed on a list, and the list is walked.
static WALK: &[u8] =
    b"global h; fn main(t) { n = new 2; p = &h; atomic { y = *p; g = &n[1]; *g = y; *p = n; } atomic { x = *p; while x { f = &x[1]; x = *f; } } return t; }";

/// The lock on the cell that a base has the address of.
fn on(base: Base, effect: Effect) -> Lock {
    let path = Path::new();
    Lock::Expr(Expr { base, path }, effect)
}

/// The lock on the cell whose address that one holds.
fn behind(register: u8, effect: Effect) -> Lock {
    let mut path = Path::new();
    path.push(Op::Deref);
    let base = Base::Reg(register);
    Lock::Expr(Expr { base, path }, effect)
}

/// Whether the locks are there, and are these.
fn are(found: Option<Vec<Lock>>, wanted: &[Lock]) -> bool {
    match found {
        Some(locks) => locks.as_slice() == wanted,
        None => false,
    }
}

/// The lowering, classes and written classes of a source.
type Analysed<'a> = (&'a Lowering, &'a Classes, &'a Writes);

/// What a lock on register 4 becomes before the load of it at 8.
fn linked_once(alloc: Global, given: Analysed<'_>) -> Result<Vec<Lock>, AllocError> {
    let (lowering, classes, writes) = given;
    let lock = on(Base::Reg(4), Effect::Read);
    if lowering.code().len() <= 8 {
        return Ok(Vec::new(alloc));
    }
    links(alloc, lowering, classes, writes, 3, 8, &lock)
}

fn linked(alloc: Global) -> Option<Vec<Lock>> {
    let lowering = lowered(alloc, CALL)?;
    let classes = classed(alloc, &lowering)?;
    let writes = written(alloc, &lowering, &classes)?;
    answered(
        alloc,
        AllocError,
        linked_once,
        (&lowering, &classes, &writes),
    )
}

#[test]
fn locks_are_linked(rt: HostRuntime) {
    let wanted = [on(Base::Reg(2), Effect::Read), behind(2, Effect::Read)];
    assert!(rt; are(linked(rt.alloc()), wanted.as_slice()));
}

fn flow(alloc: Global, given: (&Lowering, &Classes)) -> Result<Flow, FlowFault> {
    needed(alloc, given.0, given.1, 3)
}

/// What the section needs before the call.
fn needed_once(alloc: Global, flow: &Flow) -> Result<Vec<Lock>, AllocError> {
    flow.at(alloc, Region::Section(0), 5)
}

fn needed_locks(alloc: Global) -> Option<Vec<Lock>> {
    let lowering = lowered(alloc, CALL)?;
    let classes = classed(alloc, &lowering)?;
    let flow = answered(alloc, FlowFault::OutOfMemory, flow, (&lowering, &classes))?;
    answered(alloc, AllocError, needed_once, &flow)
}

#[test]
fn locks_are_needed(rt: HostRuntime) {
    let wanted = [
        Lock::Class(2, Effect::Write),
        on(Base::Reg(2), Effect::Read),
        on(Base::Reg(2), Effect::Write),
        on(Base::Global(1), Effect::Write),
    ];
    assert!(rt; are(needed_locks(rt.alloc()), wanted.as_slice()));
}

/// A call that makes a list of a list.
#[derive(Clone, Copy)]
enum Making {
    Reduce,
    Fit,
}

fn left_once(alloc: Global, given: (Making, &Classes, &[Lock])) -> Result<Vec<Lock>, AllocError> {
    let (making, classes, locks) = given;
    match making {
        Making::Reduce => reduce(alloc, classes, 0, locks),
        Making::Fit => fit(alloc, classes, 0, locks),
    }
}

/// What is left of locks over the classes of Walk, where register 1 points to class 1, and register 2 to class 0.
fn left(alloc: Global, making: Making, locks: &[Lock]) -> Option<Vec<Lock>> {
    let lowering = lowered(alloc, WALK)?;
    let classes = classed(alloc, &lowering)?;
    answered(alloc, AllocError, left_once, (making, &classes, locks))
}

#[test]
fn lists_are_reduced_and_fitted(rt: HostRuntime) {
    let given = [
        on(Base::Reg(2), Effect::Write),
        on(Base::Reg(1), Effect::Read),
        Lock::Class(1, Effect::Read),
        on(Base::Reg(1), Effect::Write),
    ];
    let wanted = [
        Lock::Class(1, Effect::Read),
        on(Base::Reg(1), Effect::Write),
        on(Base::Reg(2), Effect::Write),
    ];
    for making in [Making::Reduce, Making::Fit] {
        let found = left(rt.alloc(), making, given.as_slice());
        assert!(rt; are(found, wanted.as_slice()));
    }
}

/// So many locks on classes.
fn class_locks(alloc: Global, count: u16) -> Result<Vec<Lock>, AllocError> {
    let mut given = Vec::new(alloc);
    for class in 0..count {
        given.push(Lock::Class(class, Effect::Read))?;
    }
    Ok(given)
}

/// What is left of more locks than a list takes.
fn fitted(alloc: Global) -> Option<Vec<Lock>> {
    let given = answered(alloc, AllocError, class_locks, 257)?;
    left(alloc, Making::Fit, given.as_slice())
}

#[test]
fn too_many_locks_are_fitted(rt: HostRuntime) {
    assert!(rt; are(fitted(rt.alloc()), [Lock::Root(Effect::Read)].as_slice()));
}

/// The longest path, and the lists of the program that is inferred for Walk.
static INFERRED: [(u32, &[u8]); 2] = [
    (
        3,
        b"list\nexpr r1 .1 write\nexpr r2 write\nlist\nclass 1 read\nexpr r2 read\n",
    ),
    (
        0,
        b"list\nclass 1 write\nexpr r2 write\nlist\nclass 1 read\nexpr r2 read\n",
    ),
];

fn inferred(alloc: Global, given: (&Ast<'_>, u32)) -> Result<Program, InferFault> {
    infer(alloc, given.0, given.1.min(8))
}

fn disassembled(alloc: Global, program: &Program) -> Result<Vec<u8>, AllocError> {
    disassemble(alloc, program)
}

/// Whether the text of Walk's program ends so.
fn is_inferred(alloc: Global, k: u32, lists: &[u8]) -> Option<bool> {
    let ast = tree(alloc, WALK)?;
    let program = answered(alloc, InferFault::OutOfMemory, inferred, (&ast, k))?;
    let text = answered(alloc, AllocError, disassembled, &program)?;
    Some(text.ends_with(lists))
}

#[test]
fn programs_are_inferred(rt: HostRuntime) {
    for (k, lists) in INFERRED.iter() {
        assert!(rt; is_inferred(rt.alloc(), *k, lists) == Some(true));
    }
}
