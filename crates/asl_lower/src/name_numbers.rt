//! The numbers of names.

ghost use Rattle.std.specs.Prelude.{◌≡◌, ◌≤◌, length, map, bytes_eq};
ghost use Rattle.asl_syntax.specs.Tree.{globals_of, functions_of};
ghost use Rattle.asl_lower.specs.Names.{number_of, function_names};
ghost use Rattle.asl_lower.specs.NamesView.{names_of};
ghost use Rattle.asl_syntax.specs.View.{item_of};

use asl_syntax::Ident;
use asl_syntax::tree::Item;

/// Whether bytes are those of a name.
fn is_name(bytes: &[u8], name: &Ident<'_>) -> bool
    ensures { result ≡ bytes_eq bytes.now name.now }
{
    bytes == name.as_slice()
}

/// The place of a name among others, and their number where it is not among them.
pub fn number_of(names: &[&[u8]], name: &Ident<'_>) -> usize
    ensures number { result ≡ number_of (names_of names.now) name.now }
    ensures bound { result ≤ length names.now }
{
    let mut number = 0;
    for other in names {
        if is_name(other, name) {
            return number;
        }
        number += 1;
    }
    number
}

/// The number of a global.
pub fn global_number(items: &[Item<'_>], name: &Ident<'_>) -> usize
    ensures number { result ≡ number_of (globals_of (map item_of items.now)) name.now }
    ensures bound { result ≤ length (globals_of (map item_of items.now)) }
{
    let mut number = 0;
    for item in items {
        if let Item::Global(global) = item {
            if is_name(global.as_slice(), name) {
                return number;
            }
            number += 1;
        }
    }
    number
}

/// The number of a function.
pub fn function_number(items: &[Item<'_>], name: &Ident<'_>) -> usize
    ensures number { result ≡ number_of (function_names (functions_of (map item_of items.now))) name.now }
    ensures bound { result ≤ length (functions_of (map item_of items.now)) }
{
    let mut number = 0;
    for item in items {
        if let Item::Function(function) = item {
            if is_name(function.name.as_slice(), name) {
                return number;
            }
            number += 1;
        }
    }
    number
}
