//! From bytes or a source to a program on the heap.
ghost use Rattle.std.specs.Prelude.{◌≡◌, ◌≢◌, ◌≤◌, None, IfOk, IfErr};
ghost use Rattle.asl_compile.specs.Compiled.{Compiles};
ghost use Rattle.asl_c_programs.specs.Opening.{AreFacts, IsCompiled, IsOpened, Knows, WhyNotCompiled, WhyNotOpened, WhyNotSource};

use crate::opened::{Opened, SourceFacts};
use crate::status::{BAD_LENGTH, NO_MEMORY, compile_status};
use asl_code::Program;
use asl_compile::compile;
use asl_lower::lower;
use asl_map::map_of;
use asl_opening::program_of;
use asl_points_to::classes;
use asl_syntax::parse;
use std::alloc::{AllocError, Global};

/// The longest paths that may be asked for.
const LONGEST: u32 = 8;

/// The program of the bytes, on the heap; or the status that says why there is none.
pub fn open(alloc: Global, bytes: &[u8]) -> Result<Box<Opened>, u32>
    ensures opened { IfOk result (λ b. IsOpened bytes.now b.value) }
    ensures refused { IfErr result (WhyNotOpened bytes.now) }
{
    let program = program_of(alloc, bytes)?;
    keep(alloc, program, None)
}

/// The program of the source with paths of at most `k` operations, and what is known of the source, on the heap; or the status that
/// says why there is none.
pub fn open_source(alloc: Global, source: &[u8], k: u32) -> Result<Box<Opened>, u32>
    ensures opened { IfOk result (λ b. IsCompiled source.now k b.value) }
    ensures refused { IfErr result (WhyNotCompiled source.now k) }
    ensures some { IfErr result (λ status. status ≢ 0) }
{
    if k > LONGEST {
        return Err(BAD_LENGTH);
    }
    let program = compiled(alloc, source, k)?;
    keep_source(alloc, source, program)
}

/// The program, and what is known of its source, on the heap; or the status that says why it is not there.
fn keep_source(alloc: Global, source: &[u8], program: Program) -> Result<Box<Opened>, u32>
    ensures program { IfOk result (λ b. b.value.program ≡ program) }
    ensures known { IfOk result (λ b. Knows source.now b.value) }
    ensures refused { IfErr result (λ status. status ≡ 2) }
{
    match facts_of(alloc, source) {
        Ok(facts) => keep(alloc, program, Some(facts)),
        Err(_) => Err(NO_MEMORY),
    }
}

/// The program and what is known of its source, on the heap; or the status that says why they are not there.
fn keep(alloc: Global, program: Program, facts: Option<SourceFacts>) -> Result<Box<Opened>, u32>
    ensures program { IfOk result (λ b. b.value.program ≡ program) }
    ensures facts { IfOk result (λ b. b.value.facts ≡ facts) }
    ensures refused { IfErr result (λ status. status ≡ 2) }
{
    match Box::new(alloc, Opened { program, facts }) {
        Ok(kept) => Ok(kept),
        Err(_) => Err(NO_MEMORY),
    }
}

/// The program of the source; or why there is none.
fn compiled(alloc: Global, source: &[u8], k: u32) -> Result<Program, u32>
    requires { k ≤ 8 }
    ensures program { IfOk result (Compiles source.now k) }
    ensures refused { IfErr result (WhyNotSource source.now k) }
    ensures some { IfErr result (λ status. status ≢ 0) }
{
    match compile(alloc, source, k) {
        Ok(program) => Ok(program),
        Err(fault) => Err(compile_status(&fault)),
    }
}

/// What is known of an accepted source, which may be refused only where memory runs out.
fn facts_of(alloc: Global, source: &[u8]) -> Result<SourceFacts, AllocError>
    ensures { IfOk result (AreFacts source.now) }
{
    let Ok(map) = map_of(alloc, source) else {
        return Err(AllocError);
    };
    let Ok(ast) = parse(alloc, source) else {
        return Err(AllocError);
    };
    let Ok(lowering) = lower(alloc, &ast) else {
        return Err(AllocError);
    };
    let Ok(classes) = classes(alloc, &lowering) else {
        return Err(AllocError);
    };
    Ok(SourceFacts { map, classes })
}
