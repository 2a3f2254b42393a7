//! The classes that each function may store to, as sets.
ghost use Rattle.std.specs.Prelude.{◌≡◌, ◌↔◌, IsTrue, map};
ghost use Rattle.asl_lane_sets.specs.NumberSet.{IsIn, members_of};
ghost use Rattle.asl_lock_expr.specs.Stores.{stores};

use asl_lane_sets::Bits;
use std::marker::Model;

/// The classes that each function may store to, itself or by its calls (`docs/ANALYSIS.md`, "Written classes").
#[derive(Drop)]
pub struct Writes {
    functions: Vec<Bits>,
}

impl Model for Writes {
    ghost use Rattle.std.specs.Prelude.{List, map, ℕ};
    ghost use Rattle.asl_lane_sets.specs.NumberSet.{members_of};

    ghost Value = { List (List ℕ) };

    ghost view = { λ w. map members_of w.functions.items };
}

impl Writes {
    /// The sets, one a function.
    pub(crate) fn from_sets(functions: Vec<Bits>) -> Writes
        ensures { result ≡ map members_of functions.items }
    {
        Writes { functions }
    }

    /// Whether the function may store to the class.
    pub fn has(&self, function: u16, class: u16) -> bool
        ensures { result ≡ stores self.now function class }
    {
        match self.functions.get(usize::from(function)) {
            Some(classes) => has_class(classes, usize::from(class)),
            None => false,
        }
    }
}

/// Whether the class is one of the set; none from the set's length on is.
fn has_class(classes: &Bits, class: usize) -> bool
    ensures { IsTrue result ↔ IsIn classes.now class }
{
    class < classes.len() && classes.has(class)
}
