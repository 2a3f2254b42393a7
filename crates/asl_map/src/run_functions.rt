//! Which functions `main` calls, itself or through others.

ghost use Rattle.std.specs.Prelude.{◌≡◌, ℕ, ◌<◌, ◌≤◌, ◌⊎◌, ◌↔◌, false, true, Some, slice_get, length, MatchOption};
ghost use Rattle.asl_lower.specs.LegalLowering.{IsLegalLowering};
ghost use Rattle.asl_lower.specs.Reach.{Anywhere, IsCalled, IsMarked, KeepsMarks, AreFollowed, Reached};
ghost use Rattle.asl_map.specs.Reached.{IsReached};

use asl_code::Instr;
use asl_lower::{Lowering, Marks};

/// The function that the instruction calls, if it is a call.
fn callee(instr: &Instr) -> Option<u16>
    ensures { MatchOption result
        ((to first callee : ℕ) → ¬ (instr.now ≡ Instr.Call to first callee))
        (λ callee. (to : ℕ) × ((first : ℕ) × (instr.now ≡ Instr.Call to first callee))) }
{
    match instr {
        Instr::Call { function, .. } => Some(*function),
        _ => None,
    }
}

/// Marks the functions that the instructions from a pc up to another call.
fn mark_callees(lowering: &Lowering, marks: &mut Marks, from: usize, end: usize)
    requires order { from ≤ end }
    requires within { end ≤ length lowering.now.code }
    ensures kept { KeepsMarks marks.old marks.new }
    ensures called { (callee : ℕ) → IsCalled lowering.now Anywhere from end callee → IsMarked marks.new callee }
    ensures only { (callee : ℕ) → IsMarked marks.new callee → IsMarked marks.old callee ⊎ IsCalled lowering.now Anywhere from end callee }
{
    let code = lowering.code();
    for pc in from..end {
        if let Some(callee) = callee(&code[pc]) {
            marks[usize::from(callee)] = true;
        }
    }
}

/// The first of so many functions that has a mark here and none there.
fn next_function(functions: usize, marks: &Marks, followed: &Marks) -> Option<usize>
    requires { functions ≤ 256 }
    ensures { MatchOption result
        ((function : ℕ) → function < functions → IsMarked marks.now function → IsMarked followed.now function)
        (λ function. (function < functions) × IsMarked marks.now function × (slice_get followed.now function ≡ Some false)) }
{
    for function in 0..functions {
        if marks[function] && !followed[function] {
            return Some(function);
        }
    }
    None
}

/// How many functions there are.
fn count_functions(lowering: &Lowering) -> usize
    ensures count { result ≡ length lowering.now.functions }
    ensures few { result ≤ 256 }
    ensures kept { IsLegalLowering lowering.now }
{
    lowering.functions().len()
}

/// Marks all that calls lead to from the functions with a mark.
fn follow_calls(lowering: &Lowering, marks: &mut Marks)
    ensures kept { KeepsMarks marks.old marks.new }
    ensures followed { AreFollowed lowering.now Anywhere marks.new }
    ensures only { (function : ℕ) → IsMarked marks.new function → Reached lowering.now Anywhere marks.old function }
{
    let count = count_functions(lowering);
    let mut followed = [false; 256];
    while let Some(function) = next_function(count, marks, &followed) {
        followed[function] = true;
        let start = usize::from(lowering.start(function as u16));
        let end = start + lowering.functions()[function].len as usize;
        mark_callees(lowering, marks, start, end);
    }
}

/// Whether `main` calls each function, itself or through others; `main` is one of them.
pub fn reached(lowering: &Lowering) -> Marks
    ensures { (function : ℕ) → IsMarked result function ↔ IsReached lowering.now function }
{
    let mut marks = [false; 256];
    marks[usize::from(lowering.main())] = true;
    follow_calls(lowering, &mut marks);
    marks
}
