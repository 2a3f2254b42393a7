//! The seats before the workers start, and what they have left when all have stopped.
ghost use Rattle.std.specs.Prelude.{◌≡◌, ◌<◌, ◌≤◌, ◌+◌, ◌-◌, true, false, [], map, OnOk, IfOk, IfErr, vec_len};
ghost use Rattle.asl_runner.specs.Working.{AreJoined};
ghost use Rattle.asl_runner.specs.Starting.{AreSeats, HaveWorked, IsOneRefused};

use crate::fault::RunFault;
use crate::worker::Work;
use asl_journal::Receipt;
use asl_turns::{TurnSeat, Turns};
use std::alloc::Global;

/// What the workers have left: their receipts, and whether an allocation of one of them failed.
#[derive(Drop)]
pub struct Gathered {
    pub receipts: Vec<Vec<Receipt>>,
    pub refused: bool,
}

/// A seat with one pass for each worker.
pub fn seats(
    alloc: Global,
    turns: &Turns,
    seat: &mut TurnSeat,
    workers: u8,
) -> Result<Vec<TurnSeat>, RunFault>
    requires of { seat.old.of ≡ turns.now }
    requires passes { seat.old.left ≡ 64 }
    requires few { workers ≤ 8 }
    ensures seats { IfOk result (λ seats. (vec_len seats ≡ workers) × AreSeats turns.now seats.items) }
    ensures left { OnOk result (seat.new ≡ record { of = turns.now; left = 64 - workers; spent = seat.old.spent; tickets = seat.old.tickets }) }
    ensures other { IfErr result (λ fault. fault ≡ RunFault.OutOfMemory) }
{
    let mut seats = Vec::with_capacity(alloc, usize::from(workers))?;
    for _ in 0..workers {
        let Ok(new) = turns.split(seat) else {
            unreachable!()
        };
        seats.push_reserved(new);
    }
    Ok(seats)
}

/// Joins the workers' seats to the first, and puts their receipts together.
pub fn gather(
    alloc: Global,
    turns: &Turns,
    seat: &mut TurnSeat,
    count: u32,
    works: Vec<Work>,
) -> Result<Gathered, RunFault>
    requires of { seat.old.of ≡ turns.now }
    requires few { vec_len works ≤ 8 }
    requires passes { seat.old.left + seat.old.spent + vec_len works ≡ 64 }
    requires fresh { seat.old.tickets ≡ [] }
    requires worked { HaveWorked turns.now count (vec_len works) works.items }
    ensures receipts { IfOk result (λ gathered. vec_len gathered.receipts ≡ vec_len works) }
    ensures seat { OnOk result ((seat.new.of ≡ turns.now) × (seat.new.left + seat.new.spent ≡ 64)) }
    ensures joined { IfOk result (λ gathered. gathered.refused ≡ false
        → AreJoined count (vec_len works) seat.new (map (λ mine. mine.items) gathered.receipts.items)) }
    ensures refused { IfOk result (λ gathered. gathered.refused ≡ true → IsOneRefused works.items) }
    ensures other { IfErr result (λ fault. fault ≡ RunFault.OutOfMemory) }
{
    let mut receipts = Vec::with_capacity(alloc, works.len())?;
    let mut refused = false;
    for work in works {
        let Work {
            seat: other,
            receipts: mine,
            refused: stopped,
        } = work;
        turns.join(seat, other);
        receipts.push_reserved(mine);
        refused |= stopped;
    }
    Ok(Gathered { receipts, refused })
}
