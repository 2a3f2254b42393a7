//! The points whose needs are not followed yet, in rounds over the regions.
ghost use Rattle.std.specs.Prelude.{◌≡◌, ◌<◌, [], length, IfSome, IfNone, OnSome, OnOk, OnErr};
ghost use Rattle.asl_backward_flow.specs.Found.{IsPut, IsTaken};

use crate::waiting::Waiting;
use std::alloc::{AllocError, Global};
use std::marker::Model;
use std::mem;

/// Points, each as the place of its region among the spans and its pc, in rounds over the regions. A round goes from the last region to
/// the first, and takes the points of each from the last on. What comes for a region that the round has passed waits for the next round:
/// so a body that calls many others is followed once for all that came from them, and not for each of them.
#[derive(Drop)]
pub struct Rounds {
    round: Waiting,
    later: Waiting,
    /// The region of the point that was taken last, by its place among the spans.
    part: u16,
}

impl Model for Rounds {
    ghost use Rattle.std.specs.Prelude.{◌++◌, ℕ, List};

    ghost Value = { List (ℕ × ℕ) };

    ghost view = { λ r. r.round ++ r.later };
}

impl Rounds {
    /// No point.
    pub fn new(alloc: Global) -> Rounds
        ensures { result ≡ [] }
    {
        Rounds {
            round: Waiting::new(alloc),
            later: Waiting::new(alloc),
            part: u16::MAX,
        }
    }

    /// Adds a point, if something is new there.
    pub fn put(&mut self, is_new: bool, point: (u16, u16)) -> Result<(), AllocError>
        ensures ok { OnOk result (IsPut self.old self.new point is_new) }
        ensures err { OnErr result (self.new ≡ self.old) }
    {
        if point.0 > self.part {
            self.later.put(is_new, point)?;
            return Ok(());
        }
        self.round.put(is_new, point)?;
        Ok(())
    }

    /// Takes the last point of the round off, as often as it is there; if the round is over, that of the next.
    pub fn pop(&mut self) -> Option<(u16, u16)>
        ensures taken { IfSome result (IsTaken self.old self.new) }
        ensures len { OnSome result (length self.new < length self.old) }
        ensures none { IfNone result (length self.old ≡ 0) }
        ensures unchanged { IfNone result (self.new ≡ self.old) }
    {
        let point = self.take()?;
        self.part = point.0;
        Some(point)
    }

    /// The same; the region of the point is not noted.
    fn take(&mut self) -> Option<(u16, u16)>
        ensures taken { IfSome result (IsTaken self.old self.new) }
        ensures none { IfNone result (length self.old ≡ 0) }
        ensures unchanged { IfNone result (self.new ≡ self.old) }
    {
        if let Some(point) = self.round.pop() {
            return Some(point);
        }
        mem::swap(&mut self.round, &mut self.later);
        self.round.pop()
    }
}
