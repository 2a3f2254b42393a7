//! What each seat knows of the tickets, and how it changes: the rule of the shared word.
use atomic_table::{Join, Play, Split, TableRule};
use std::collections::LinkedList;

/// What a seat knows: the number at which tickets end, its passes, and the tickets that it has drawn. It exists in proofs
/// alone; no value of it is made.
#[derive(Drop)]
pub struct Hand {
    pub limit: u64,
    pub left: u64,
    pub spent: u64,
    pub tickets: LinkedList<u64>,
}

/// The rule of the word, which knows the limit.
pub struct Ticketed {}

impl TableRule<(), Hand, u64> for Ticketed {
    ghost use Rattle.asl_turns.specs.Rule.{IsTicketed, first_hand};

    ghost holds = { IsTicketed };

    ghost first = { first_hand };
}

/// One number is drawn.
pub struct Draws {}

impl Play<(), Hand> for Draws {
    ghost use Rattle.asl_turns.specs.Rule.{Drawn};

    ghost then = { Drawn };
}

/// The word is looked at, and nothing changes.
pub struct Looks {}

impl Play<(), Hand> for Looks {
    ghost use Rattle.asl_turns.specs.Rule.{Looked};

    ghost then = { Looked };
}

/// One pass goes to a new seat, or all that a seat has goes to another.
pub struct Passes {}

impl Split<Hand> for Passes {
    ghost use Rattle.asl_turns.specs.Rule.{one_pass_less, one_pass};

    ghost left = { one_pass_less };

    ghost right = { one_pass };
}

impl Join<Hand> for Passes {
    ghost use Rattle.asl_turns.specs.Rule.{together, nothing_left};

    ghost both = { together };

    ghost spent = { nothing_left };
}
