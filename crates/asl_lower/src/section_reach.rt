//! Which functions calls lead to from inside sections.

ghost use Rattle.std.specs.Prelude.{◌≡◌, ℕ, ◌+◌, ◌<◌, ◌≤◌, ◌⊎◌, ◌^◌, ◌↔◌, [], true, false, Some, slice_get, vec_len, IsTrue, MatchOption};
ghost use Rattle.asl_lower.specs.OpenSections.{open_at, IsInner};
ghost use Rattle.asl_lower.specs.Facts.{HasLayout};
ghost use Rattle.asl_lower.specs.LegalLowering.{lowered_of};
ghost use Rattle.asl_lower.specs.Reach.{depth_after, where_of, AreAtDepth, IsCalled, IsMarked, KeepsMarks, AreFollowed, Reached};

use crate::code_draft::CodeDraft;
use asl_code::Instr;
use asl_code::image_limits::FUNCTIONS;

/// The most functions that a program has.
pub const MAX_FUNCTIONS: usize = FUNCTIONS;

/// Whether each function has a mark, by its number.
pub type Marks = [bool; MAX_FUNCTIONS];

/// Some of the calls of a program.
#[derive(Clone, Copy)]
enum Calls {
    /// Those inside a section.
    Inside,
    /// All of them.
    All,
}

/// How many sections are open after an instruction.
fn depth_after(depth: usize, instr: &Instr) -> usize
    requires { depth < 2 ^ 63 }
    ensures { result ≡ depth_after instr.now depth }
{
    match instr {
        Instr::Acquire { .. } => depth + 1,
        Instr::Release => depth.saturating_sub(1),
        _ => depth,
    }
}

/// Whether such calls stand where so many sections are open.
fn are_at_depth(calls: Calls, depth: usize) -> bool
    ensures { IsTrue result ↔ AreAtDepth (where_of calls) depth }
{
    match calls {
        Calls::Inside => depth > 0,
        Calls::All => true,
    }
}

/// The function that the instruction calls, if it is such a call.
fn callee(calls: Calls, depth: usize, instr: &Instr) -> Option<u16>
    ensures { MatchOption result
        ((to first callee : ℕ) → AreAtDepth (where_of calls) depth → ¬ (instr.now ≡ Instr.Call to first callee))
        (λ callee. AreAtDepth (where_of calls) depth × ((to : ℕ) × ((first : ℕ) × (instr.now ≡ Instr.Call to first callee)))) }
{
    match instr {
        Instr::Call { function, .. } if are_at_depth(calls, depth) => Some(*function),
        _ => None,
    }
}

/// Marks what is called by such calls from a pc up to another.
fn mark_callees(draft: &CodeDraft, marks: &mut Marks, from: usize, end: usize, calls: Calls)
    requires layout { HasLayout (lowered_of draft.now) }
    requires order { from ≤ end }
    requires within { end ≤ vec_len draft.now.out.code }
    requires none_open { open_at draft.now.out.code.items from ≡ [] }
    ensures kept { KeepsMarks marks.old marks.new }
    ensures called { (callee : ℕ) → IsCalled (lowered_of draft.now) (where_of calls) from end callee → IsMarked marks.new callee }
    ensures only { (callee : ℕ) → IsMarked marks.new callee → IsMarked marks.old callee ⊎ IsCalled (lowered_of draft.now) (where_of calls) from end callee }
{
    let mut depth = 0;
    for pc in from..end {
        let instr = &draft.out.code[pc];
        if let Some(callee) = callee(calls, depth, instr) {
            marks[usize::from(callee)] = true;
        }
        depth = depth_after(depth, instr);
    }
}

/// The first of so many functions that has a mark here and none there.
pub fn next_function(functions: usize, marks: &Marks, followed: &Marks) -> Option<usize>
    requires { functions ≤ 256 }
    ensures { MatchOption result
        ((function : ℕ) → function < functions → IsMarked marks.now function → IsMarked followed.now function)
        (λ function. (function < functions) × IsMarked marks.now function × (slice_get followed.now function ≡ Some false)) }
{
    for function in 0..functions {
        if marks[function] && !followed[function] {
            return Some(function);
        }
    }
    None
}

/// Marks all that such calls lead to from the functions with a mark.
fn follow_calls(draft: &CodeDraft, marks: &mut Marks, calls: Calls)
    requires { HasLayout (lowered_of draft.now) }
    ensures kept { KeepsMarks marks.old marks.new }
    ensures followed { AreFollowed (lowered_of draft.now) (where_of calls) marks.new }
    ensures only { (function : ℕ) → IsMarked marks.new function → Reached (lowered_of draft.now) (where_of calls) marks.old function }
{
    let mut followed = [false; MAX_FUNCTIONS];
    while let Some(function) = next_function(draft.functions.len(), marks, &followed) {
        followed[function] = true;
        let start = draft.start(function);
        let end = start + draft.functions[function].len as usize;
        mark_callees(draft, marks, start, end, calls);
    }
}

/// Which functions are inner.
pub fn inner_functions(draft: &CodeDraft) -> Marks
    requires { HasLayout (lowered_of draft.now) }
    ensures { (function : ℕ) → IsMarked result function ↔ IsInner (lowered_of draft.now) function }
{
    let mut marks = [false; MAX_FUNCTIONS];
    mark_callees(draft, &mut marks, 0, draft.out.code.len(), Calls::Inside);
    follow_calls(draft, &mut marks, Calls::All);
    marks
}
