//! Which function passes the limit of instructions.

ghost use Rattle.std.specs.Prelude.{◌<◌};
ghost use Rattle.asl_syntax.specs.AstView.{tree_of};
ghost use Rattle.asl_lower.specs.Lowered.{end_of};
ghost use Rattle.asl_diagnose_text.specs.Places.{IsOverfull};

use crate::code_walk::{Passed, past_function};
use asl_syntax::Ast;
use asl_syntax::tree::Item;

/// The most instructions of a program.
const MAX_CODE: usize = 65_535;

/// The number of the function at which the code of a program passes the limit: of one instruction more none is left after it.
pub fn overfull_function(ast: &Ast<'_>) -> usize
    requires { 65535 < (end_of (tree_of ast.now)).pc }
    ensures { IsOverfull (tree_of ast.now) result }
{
    let mut passed = Passed {
        left: MAX_CODE + 1,
        accesses: 0,
    };
    let mut number: usize = 0;
    let items = ast.items();
    for item in items {
        match item {
            Item::Global(_) => {}
            Item::Function(function) => {
                passed = past_function(passed, function);
                if passed.left == 0 {
                    return number;
                }
                number += 1;
            }
        }
    }
    unreachable!()
}
