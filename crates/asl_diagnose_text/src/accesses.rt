//! How many loads and stores stand before an instruction.

ghost use Rattle.std.specs.Prelude.{◌≡◌};
ghost use Rattle.asl_syntax.specs.AstView.{tree_of};
ghost use Rattle.asl_lower.specs.Lowered.{Lowered, IsLowering};
ghost use Rattle.asl_diagnose_text.specs.Places.{accesses_before};

use crate::code_walk::{Passed, past_function};
use asl_syntax::Ast;
use asl_syntax::tree::Item;

/// How many loads and stores the code of a program has before a pc.
pub fn accesses_before(ast: &Ast<'_>, pc: u16) -> usize
    ensures { (l : Lowered) → IsLowering (tree_of ast.now) l → result ≡ accesses_before l.code pc }
{
    let mut passed = Passed {
        left: usize::from(pc),
        accesses: 0,
    };
    let items = ast.items();
    for item in items {
        if let Item::Function(function) = item {
            passed = past_function(passed, function);
        }
    }
    passed.accesses
}
