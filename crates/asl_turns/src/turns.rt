//! The calls: a first seat, drawing, splitting, joining, and the count at the end.
ghost use Rattle.std.specs.Prelude.{◌≡◌, ℕ, ◌+◌, ◌-◌, ◌<◌, ◌≤◌, ◌++◌, [], ◌∷◌, length, None, IfOk, IfErr, MatchOption};
ghost use Rattle.asl_turns.specs.Turn.{times, once_below};

use crate::rule::{Draws, Hand, Looks, Passes, Ticketed};
use atomic_table::{Seat, Table};
use std::alloc::{AllocError, Global};
use std::marker::Model;

/// How many passes the first seat has.
const PASSES: u64 = 64;

/// Why a call of `Turns` was refused.
#[derive(Debug, Drop, PartialEq, Eq, thiserror::Error)]
pub enum TurnFault {
    /// The seat has fewer than two passes left.
    #[error("NoPass")]
    NoPass,
    /// An allocation failed.
    #[error("OutOfMemory")]
    OutOfMemory,
}

impl From<AllocError> for TurnFault {
    ghost use Rattle.std.specs.Prelude.{◌≡◌};
    ghost use Rattle.asl_turns.specs.declared.turns.TurnFault.TheVariants.{OutOfMemory};

    ghost from_gives = { λ _ fault. fault ≡ OutOfMemory };

    fn from(_: AllocError) -> Self {
        TurnFault::OutOfMemory
    }
}

/// The tickets below a limit, which callers draw through a `&`, each with a seat of its own.
///
/// Contracts see it as the word that tickets are drawn from, with its limit.
#[derive(Drop)]
pub struct Turns {
    table: Table<(), Hand, u64, Ticketed, Global>,
    limit: u64,
}

impl Model for Turns {
    ghost use Rattle.std.specs.Prelude.{◌≡◌, ◌≤◌};
    ghost use Rattle.asl_turns.specs.Turn.{Word};

    ghost Value = { Word };

    ghost view = { λ t. record { table = t.table.shared.table_id; limit = t.limit } };

    ghost invariant = { λ t. (t.table.shared.key ≡ t.limit) × (t.table.shared.table_id.words ≡ 1) × (t.table.shared.table_id.slots ≡ 0) × (t.limit ≤ 16777216) };
}

/// A seat at a `Turns`: with a pass left it may draw.
///
/// Contracts see it as what it may do and has done: of which word it is, its passes left and spent, and its tickets in the
/// order in which it drew them.
#[derive(Drop)]
pub struct TurnSeat {
    left: u64,
    seat: Seat<(), Hand>,
}

impl Model for TurnSeat {
    ghost use Rattle.std.specs.Prelude.{◌≡◌, []};
    ghost use Rattle.asl_turns.specs.Turn.{Turn, turn};

    ghost Value = { Turn };

    ghost view = { λ s. turn s.seat.table_id s.seat.me.0.limit s.seat.me.0.left s.seat.me.0.spent s.seat.me.0.tickets };

    ghost invariant = { λ s. (s.left ≡ s.seat.me.0.left) × (s.seat.me.1 ≡ []) };
}

impl Turns {
    /// Tickets 0 to `limit - 1`, of which none is drawn, and the first seat, which has 64 passes. Only a failed allocation
    /// refuses it.
    ///
    /// # Errors
    ///
    /// An allocation failed.
    pub fn new(alloc: Global, limit: u64) -> Result<(Turns, TurnSeat), TurnFault>
        requires { limit ≤ 16777216 }
        ensures limit { IfOk result (λ made. made.0.limit ≡ limit) }
        ensures seat { IfOk result (λ made. made.1 ≡ record { of = made.0; left = 64; spent = 0; tickets = [] }) }
        ensures memory { IfErr result (λ fault. fault ≡ TurnFault.OutOfMemory) }
    {
        let (table, seat) = Table::of_words(alloc, &[0], &limit)?;
        Ok((Turns { table, limit }, TurnSeat { left: PASSES, seat }))
    }

    /// A ticket below the limit, which is drawn once, as `finish` says; or None, and then a pass is spent. A seat without a
    /// pass left takes no step. It never waits.
    pub fn draw(&self, seat: &mut TurnSeat) -> Option<u64>
        requires { seat.old.of ≡ self.now }
        ensures none { seat.old.left ≡ 0 → (result ≡ None) × (seat.new ≡ seat.old) }
        ensures some { 0 < seat.old.left → MatchOption result
            (seat.new ≡ record { of = seat.old.of; left = seat.old.left - 1; spent = seat.old.spent + 1; tickets = seat.old.tickets })
            (λ ticket. (ticket < self.now.limit) × (seat.new ≡ record { of = seat.old.of; left = seat.old.left; spent = seat.old.spent; tickets = seat.old.tickets ++ ticket ∷ [] })) }
    {
        if seat.left == 0 {
            return None;
        }
        let found = self.table.shared.fetch_add::<Draws>(&mut seat.seat, 0, 1);
        if found < self.limit {
            Some(found)
        } else {
            seat.left -= 1;
            None
        }
    }

    /// A new seat with one of the passes that this one has left. A seat of another `Turns` would draw tickets here that `finish` misses.
    ///
    /// # Errors
    ///
    /// `NoPass`, only where fewer than two passes are left.
    pub fn split(&self, seat: &mut TurnSeat) -> Result<TurnSeat, TurnFault>
        requires { seat.old.of ≡ self.now }
        ensures ok { IfOk result (λ new. (1 < seat.old.left) × (new ≡ record { of = seat.old.of; left = 1; spent = 0; tickets = [] })
            × (seat.new ≡ record { of = seat.old.of; left = seat.old.left - 1; spent = seat.old.spent; tickets = seat.old.tickets })) }
        ensures no_pass { IfErr result (λ fault. (fault ≡ TurnFault.NoPass) × (seat.old.left < 2) × (seat.new ≡ seat.old)) }
    {
        if seat.left < 2 {
            return Err(TurnFault::NoPass);
        }
        let new = self.table.shared.split_seat::<Passes>(&mut seat.seat);
        seat.left -= 1;
        Ok(TurnSeat { left: 1, seat: new })
    }

    /// The seat takes all that another has: its passes, left and spent, and its tickets.
    pub fn join(&self, seat: &mut TurnSeat, other: TurnSeat)
        requires seat { seat.old.of ≡ self.now }
        requires other { other.of ≡ self.now }
        ensures { seat.new ≡ record { of = seat.old.of; left = seat.old.left + other.left; spent = seat.old.spent + other.spent; tickets = seat.old.tickets ++ other.tickets } }
    {
        let TurnSeat { left, seat: taken } = other;
        self.table.shared.join_seat::<Passes>(&mut seat.seat, taken);
        self.table.shared.load::<Looks>(&mut seat.seat, 0);
        seat.left += left;
    }

    /// How many tickets were drawn: the seat, which has all passes, has each number below the answer once, and no other.
    pub fn finish(self, seat: TurnSeat) -> u64
        requires seat { seat.of ≡ self }
        requires whole { seat.left + seat.spent ≡ 64 }
        ensures tickets { (number : ℕ) → times number seat.tickets ≡ once_below number result }
        ensures count { length seat.tickets ≡ result }
        ensures limit { result ≤ self.limit }
        ensures spent { 0 < seat.spent → result ≡ self.limit }
    {
        let Turns { table, limit } = self;
        let TurnSeat { left: _, seat } = seat;
        let closed = table.close_with(seat);
        let word = closed.word(0);
        closed.free();
        word.min(limit)
    }
}
