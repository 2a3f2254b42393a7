//! The numbers of globals and functions, found in maps where there was memory for these.

ghost use Rattle.std.specs.Prelude.{◌≡◌, ◌≤◌, ℕ, List, length, map, IfOk};
ghost use Rattle.asl_syntax.specs.Tree.{globals_of, functions_of};
ghost use Rattle.asl_syntax.specs.View.{item_of};
ghost use Rattle.asl_syntax.specs.NumberedNamesView.{counts_in};
ghost use Rattle.asl_lower.specs.Names.{number_of, function_names};
ghost use Rattle.asl_lower.specs.NamesView.{names_of};
ghost use Rattle.asl_lower.specs.Numbered.{numbers_from, IsNumbering, AreNumbered};

use crate::name_numbers::{function_number, global_number};
use asl_syntax::tree::Item;
use asl_syntax::{Ident, NumberedNames};
use std::alloc::{AllocError, Global};

/// The globals and the functions of a program with their numbers, or none of them where there was no memory for them.
#[derive(Drop)]
pub struct ItemNumbers<'t> {
    globals: NumberedNames<'t>,
    functions: NumberedNames<'t>,
}

/// The names of the globals in the order of the text.
fn list_globals<'a, 't>(
    alloc: Global,
    items: &'a [Item<'t>],
) -> Result<Vec<&'a Ident<'t>>, AllocError>
    ensures { IfOk result (λ v. names_of v.items ≡ globals_of (map item_of items.now)) }
{
    let mut names = Vec::new(alloc);
    for item in items {
        if let Item::Global(name) = item {
            names.push(name)?;
        }
    }
    Ok(names)
}

/// The names of the functions in the order of the text.
fn list_functions<'a, 't>(
    alloc: Global,
    items: &'a [Item<'t>],
) -> Result<Vec<&'a Ident<'t>>, AllocError>
    ensures { IfOk result (λ v. names_of v.items ≡ function_names (functions_of (map item_of items.now))) }
{
    let mut names = Vec::new(alloc);
    for item in items {
        if let Item::Function(function) = item {
            names.push(&function.name)?;
        }
    }
    Ok(names)
}

/// Names with their places as numbers; of equal names the first one counts.
fn number_names<'t>(alloc: Global, names: &[&Ident<'t>]) -> Result<NumberedNames<'t>, AllocError>
    ensures { IfOk result (λ n. counts_in n ≡ numbers_from 0 (names_of names.now)) }
{
    let mut numbering = NumberedNames::new(alloc);
    let mut i = names.len();
    while i > 0 {
        i -= 1;
        numbering.add(names[i], i)?;
    }
    Ok(numbering)
}

/// The globals with their numbers.
fn number_globals<'t>(alloc: Global, items: &[Item<'t>]) -> Result<NumberedNames<'t>, AllocError>
    ensures { IfOk result (λ n. counts_in n ≡ numbers_from 0 (globals_of (map item_of items.now))) }
{
    let names = list_globals(alloc, items)?;
    number_names(alloc, &names)
}

/// The functions with their numbers.
fn number_functions<'t>(alloc: Global, items: &[Item<'t>]) -> Result<NumberedNames<'t>, AllocError>
    ensures { IfOk result (λ n. counts_in n ≡ numbers_from 0 (function_names (functions_of (map item_of items.now)))) }
{
    let names = list_functions(alloc, items)?;
    number_names(alloc, &names)
}

/// The numbering, or that of no name where there is none.
fn or_empty<'t>(
    alloc: Global,
    numbering: Result<NumberedNames<'t>, AllocError>,
) -> NumberedNames<'t>
    ensures { (names : List (List ℕ)) → IfOk numbering.entry (λ n. counts_in n ≡ numbers_from 0 names) → IsNumbering (counts_in result) names }
{
    match numbering {
        Ok(numbering) => numbering,
        Err(_) => NumberedNames::new(alloc),
    }
}

impl<'t> ItemNumbers<'t> {
    /// The globals and functions of a program with their numbers.
    pub fn of(alloc: Global, items: &[Item<'t>]) -> ItemNumbers<'t>
        ensures { AreNumbered result (map item_of items.now) }
    {
        let globals = or_empty(alloc, number_globals(alloc, items));
        let functions = or_empty(alloc, number_functions(alloc, items));
        ItemNumbers { globals, functions }
    }

    /// The number of a global of the program.
    pub fn global(&self, items: &[Item<'_>], name: &Ident<'_>) -> usize
        requires { AreNumbered self.now (map item_of items.now) }
        ensures number { result ≡ number_of (globals_of (map item_of items.now)) name.now }
        ensures bound { result ≤ length (globals_of (map item_of items.now)) }
    {
        match self.globals.find(name) {
            Some(number) => number,
            None => global_number(items, name),
        }
    }

    /// The number of a function of the program.
    pub fn function(&self, items: &[Item<'_>], name: &Ident<'_>) -> usize
        requires { AreNumbered self.now (map item_of items.now) }
        ensures number { result ≡ number_of (function_names (functions_of (map item_of items.now))) name.now }
        ensures bound { result ≤ length (functions_of (map item_of items.now)) }
    {
        match self.functions.find(name) {
            Some(number) => number,
            None => function_number(items, name),
        }
    }
}
