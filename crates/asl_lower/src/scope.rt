//! What the names of a function's body mean.

ghost use Rattle.std.specs.Prelude.{◌≡◌, ◌<◌, ◌≤◌, length, map};
ghost use Rattle.asl_syntax.specs.Tree.{globals_of, functions_of};
ghost use Rattle.asl_syntax.specs.View.{item_of};
ghost use Rattle.asl_lower.specs.Numbered.{AreNumbered};

use crate::item_numbers::ItemNumbers;
use crate::name_numbers::number_of;
use asl_syntax::Ident;
use asl_syntax::tree::Item;

/// A function's number and its locals, among the items of its program and their numbers.
#[derive(Clone, Copy)]
pub struct Scope<'a, 't> {
    pub function: u16,
    pub locals: &'a [&'t [u8]],
    pub items: &'a [Item<'t>],
    pub numbers: &'a ItemNumbers<'t>,
    ghost few_locals: { length locals.now ≤ 64 },
    ghost few_globals: { length (globals_of (map item_of items.now)) ≤ 1024 },
    ghost numbered: { AreNumbered numbers.now (map item_of items.now) },
    ghost few_functions: { length (functions_of (map item_of items.now)) ≤ 256 },
}

impl Scope<'_, '_> {
    ghost use Rattle.asl_lower.specs.Names.{register, global_number, function_number};
    ghost use Rattle.asl_lower.specs.ScopeView.{scope_view};

    /// The register of a local.
    pub fn register(&self, name: &Ident<'_>) -> u8
        ensures { result ≡ register (scope_view self.now) name.now }
    {
        number_of(self.locals, name) as u8
    }

    /// The number of a global.
    pub fn global(&self, name: &Ident<'_>) -> u16
        ensures { result ≡ global_number (scope_view self.now) name.now }
    {
        self.numbers.global(self.items, name) as u16
    }

    /// The number of a function.
    pub fn callee(&self, name: &Ident<'_>) -> u16
        ensures { result ≡ function_number (scope_view self.now) name.now }
    {
        self.numbers.function(self.items, name) as u16
    }
}
