//! What is told of an assembly text that is refused.

ghost use Rattle.std.specs.Prelude.{◌≡◌, ◌≢◌, true, false, IfOk, OnErr};
ghost use Rattle.asl_assembler.specs.declared.assembly.AsmFault.TheVariants as asm;
ghost use Rattle.asl_assembler.specs.Faults.{IsFault};
ghost use Rattle.asl_diagnose.specs.Diagnosed.{IsAssemblyDiagnosed, IsAssemblyDiagnosis};

use crate::diagnosis::{Diagnosis, Refusal};
use asl_assembler::{AsmFault, assemble};
use asl_diagnose_text::{assembly_place, column, line};
use std::alloc::{AllocError, Global};

/// What is told of an assembly text: nothing where it is a program.
///
/// # Errors
///
/// An allocation failed. This hides no wrong line.
pub fn diagnose_assembly(alloc: Global, text: &[u8]) -> Result<Option<Diagnosis>, AllocError>
    ensures told { IfOk result (IsAssemblyDiagnosed text.now) }
    ensures memory { OnErr result (IsFault text.now asm.OutOfMemory) }
{
    match assemble(alloc, text) {
        Ok(program) => {
            let _ = program;
            Ok(None)
        }
        Err(fault) => {
            if is_memory(fault) {
                return Err(AllocError);
            }
            Ok(Some(told(alloc, text, fault)))
        }
    }
}

/// Whether memory was all that was wanting.
fn is_memory(fault: AsmFault) -> bool
    ensures real { result ≡ false → fault ≢ asm.OutOfMemory }
    ensures memory { result ≡ true → fault ≡ asm.OutOfMemory }
{
    matches!(fault, AsmFault::OutOfMemory)
}

/// What is told of a fault of an assembly text.
fn told(alloc: Global, text: &[u8], fault: AsmFault) -> Diagnosis
    requires fault { IsFault text.now fault }
    requires real { fault ≢ asm.OutOfMemory }
    ensures { IsAssemblyDiagnosis text.now result }
{
    let at = assembly_place(text, fault);
    let line = line(text, at);
    let column = column(text, at);
    Diagnosis {
        refusal: Refusal::Asm(fault),
        at,
        line,
        column,
        expected: Vec::new(alloc),
        may_end: false,
        first: None,
        bringers: None,
        is_cut: false,
    }
}
