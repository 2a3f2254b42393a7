//! Trees that a text spells without breaking a rule.

ghost use Rattle.asl_syntax.specs.View.{items_of};
ghost use Rattle.asl_syntax.specs.Parsed.{IsParsed};

use crate::ident::Ident;
use crate::tree::{Function, Item};
use std::alloc::{AllocError, Global};

/// The tree of a program that breaks no rule. Only `parse` makes one.
#[derive(Drop)]
pub struct Ast<'t> {
    items: Vec<Item<'t>>,
    ghost parsed: { ∥ IsParsed (items_of items) ∥₁ },
}

impl<'t> Ast<'t> {
    ghost use Rattle.std.specs.Prelude.{◌≡◌, ◌≤◌, length, map, IfOk};
    ghost use Rattle.asl_syntax.specs.View.{item_of, function_of};
    ghost use Rattle.asl_syntax.specs.Tree.{globals_of, functions_of};
    ghost use Rattle.asl_syntax.specs.AstView.{tree_of};

    /// The program of these items, which some text spells without breaking a rule.
    pub(crate) fn new(items: Vec<Item<'t>>) -> Ast<'t>
        requires { IsParsed (items_of items) }
        ensures { tree_of result ≡ items_of items.entry }
    {
        Ast { items }
    }

    /// The globals and functions in the order of the text. They are few, as the limits of a text say.
    pub fn items(&self) -> &[Item<'t>]
        ensures items { map item_of result.now ≡ tree_of self.now }
        ensures parsed { ∥ IsParsed (tree_of self.now) ∥₁ }
        ensures few_globals { length (globals_of (tree_of self.now)) ≤ 1024 }
        ensures few_functions { length (functions_of (tree_of self.now)) ≤ 256 }
    {
        self.items.as_slice()
    }

    /// The globals in the order of the text.
    ///
    /// # Errors
    ///
    /// An allocation failed.
    pub fn globals(&self, alloc: Global) -> Result<Vec<&Ident<'t>>, AllocError>
        ensures { IfOk result (λ v. map (λ x. x.now) v.items ≡ globals_of (tree_of self.now)) }
    {
        let mut globals = Vec::new(alloc);
        for item in self.items.as_slice() {
            if let Item::Global(name) = item {
                globals.push(name)?;
            }
        }
        Ok(globals)
    }

    /// The functions in the order of the text.
    ///
    /// # Errors
    ///
    /// An allocation failed.
    pub fn functions(&self, alloc: Global) -> Result<Vec<&Function<'t>>, AllocError>
        ensures { IfOk result (λ v. map (λ f. function_of f.now) v.items ≡ functions_of (tree_of self.now)) }
    {
        let mut functions = Vec::new(alloc);
        for item in self.items.as_slice() {
            if let Item::Function(function) = item {
                functions.push(function)?;
            }
        }
        Ok(functions)
    }
}
