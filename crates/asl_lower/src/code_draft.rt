//! The code of a program with room.

ghost use Rattle.std.specs.Prelude.{◌≡◌, ◌≤◌, length, map, codes, IfOk};
ghost use Rattle.asl_syntax.specs.View.{item_of};
ghost use Rattle.asl_syntax.specs.Tree.{globals_of, functions_of};
ghost use Rattle.asl_lower.specs.Names.{function_names, number_of};
ghost use Rattle.asl_lower.specs.Layout.{lowering_of};
ghost use Rattle.asl_lower.specs.Refused.{HasRoom};
ghost use Rattle.asl_lower.specs.LegalLowering.{lowered_of};
ghost use Rattle.asl_lower.specs.Numbered.{AreNumbered};

use crate::functions::emit_functions;
use crate::item_numbers::ItemNumbers;
use crate::name_numbers::function_number;
use crate::output::Output;
use asl_code::Function;
use asl_syntax::Ident;
use asl_syntax::tree::Item;
use std::alloc::{AllocError, Global};

/// What has been emitted for a program.
#[derive(Drop)]
pub struct CodeDraft {
    pub globals: u16,
    pub functions: Vec<Function>,
    pub main: u16,
    pub out: Output,
}

impl CodeDraft {
    ghost use Rattle.std.specs.Prelude.{◌≡◌, ◌≤◌, length};
    ghost use Rattle.asl_lower.specs.OpenSections.{start_of};
    ghost use Rattle.asl_lower.specs.Facts.{HasLayout};
    ghost use Rattle.asl_lower.specs.LegalLowering.{lowered_of};

    /// The first pc of a function.
    pub fn start(&self, number: usize) -> usize
        requires layout { HasLayout (lowered_of self.now) }
        requires there { number ≤ length self.now.functions.items }
        ensures { result ≡ start_of self.now.functions.items number }
    {
        let mut start = 0;
        for function in &self.functions[..number] {
            start += function.len as usize;
        }
        start
    }
}

/// How many globals a program has.
fn count_globals(items: &[Item<'_>]) -> usize
    ensures { result ≡ length (globals_of (map item_of items.now)) }
{
    let mut count = 0;
    for item in items {
        if let Item::Global(_) = item {
            count += 1;
        }
    }
    count
}

/// The number of the function `main`.
pub fn main_number(items: &[Item<'_>]) -> usize
    ensures number { result ≡ number_of (function_names (functions_of (map item_of items.now))) (codes "main") }
    ensures bound { result ≤ length (functions_of (map item_of items.now)) }
{
    function_number(items, &Ident::new(b"main".as_slice()))
}

/// The code of a program of few registers and few instructions.
pub fn make_draft<'t>(
    alloc: Global,
    items: &[Item<'t>],
    numbers: &ItemNumbers<'t>,
) -> Result<CodeDraft, AllocError>
    requires numbered { AreNumbered numbers.now (map item_of items.now) }
    requires few_globals { length (globals_of (map item_of items.now)) ≤ 1024 }
    requires few_functions { length (functions_of (map item_of items.now)) ≤ 256 }
    requires room { HasRoom (map item_of items.now) }
    ensures { IfOk result (λ d. lowered_of d ≡ lowering_of (map item_of items.now)) }
{
    let mut out = Output::new(alloc);
    let functions = emit_functions(alloc, &mut out, items, numbers)?;
    let globals = count_globals(items) as u16;
    let main = main_number(items) as u16;
    Ok(CodeDraft {
        globals,
        functions,
        main,
        out,
    })
}
