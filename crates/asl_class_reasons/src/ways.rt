//! Ways over steps that first reasons show, as searches go. No promise rests on these: what they find is looked at again (`picked` of
//! `following.rt`). Where they miss a way, `straight_chain` gives another chain, and `tests/classes` shows that.

use crate::following::Shown;
use crate::place::Place;
use std::alloc::{AllocError, Global};

/// An end of a step, and the end that follows at the same place. Ends are counted from 1; 0 stands for none.
#[derive(Clone, Copy)]
struct End {
    item: usize,
    next: usize,
}

/// The slots of the places of a step.
#[derive(Clone, Copy)]
struct Sides {
    from: usize,
    into: usize,
}

/// A visit of the place of a slot, by a step from the place of a visit before it.
#[derive(Clone, Copy)]
struct Visit {
    slot: usize,
    item: usize,
    before: usize,
}

/// For each place the steps at it. Places at which steps are have slots, counted from 1.
#[derive(Drop)]
pub(crate) struct Ways {
    members: u32,
    /// For each place, by its number, its slot; 0 for one at which no step is.
    slots: Vec<u32>,
    /// For each slot its first end.
    firsts: Vec<usize>,
    ends: Vec<End>,
    /// For each step its slots.
    sides: Vec<Sides>,
}

/// A search: the places that it has come to, and for each slot one more than the number of its visit, or 0.
#[derive(Drop)]
struct Walk {
    visits: Vec<Visit>,
    at: Vec<u32>,
}

/// Where a place stands among all, in a program with so many members.
fn standing(members: u32, place: Place) -> usize {
    let members = members as usize;
    match place {
        Place::Member(member) => member as usize,
        Place::Cells(member) => members + member as usize,
        Place::Register { function, register } => {
            members + members + usize::from(function) * 256 + usize::from(register)
        }
    }
}

impl Ways {
    /// The ways over these steps, which are owed by so many numbers. Those at a place are in the order of what is owed.
    pub(crate) fn new(
        alloc: Global,
        members: u32,
        places: usize,
        owed: usize,
        items: &[Shown],
    ) -> Result<Ways, AllocError> {
        let mut ways = Ways {
            members,
            slots: vec![in alloc; 0; places]?,
            firsts: vec![in alloc; 0; 1]?,
            ends: Vec::new(alloc),
            sides: Vec::new(alloc),
        };
        for shown in items {
            let from = ways.slot_for(shown.step.from)?;
            let into = ways.slot_for(shown.step.into)?;
            ways.sides.push(Sides { from, into })?;
        }
        ways.put_ends(alloc, owed, items)?;
        Ok(ways)
    }

    /// The slot of a place; 0 for one at which no step is.
    fn slot(&self, place: Place) -> usize {
        let standing = standing(self.members, place);
        self.slots.get(standing).copied().unwrap_or(0) as usize
    }

    /// The slot of a place, which gets one if it has none.
    fn slot_for(&mut self, place: Place) -> Result<usize, AllocError> {
        let slot = self.slot(place);
        if slot > 0 {
            return Ok(slot);
        }
        let slot = self.firsts.len();
        self.firsts.push(0)?;
        if let Some(own) = self.slots.get_mut(standing(self.members, place)) {
            *own = u32::try_from(slot).unwrap_or(0);
        }
        Ok(slot)
    }

    /// Puts an end of a step at the place of a slot, before those that are there.
    fn put_end(&mut self, slot: usize, item: usize) -> Result<(), AllocError> {
        if slot < self.firsts.len() {
            self.ends.push(End {
                item,
                next: self.firsts[slot],
            })?;
            self.firsts[slot] = self.ends.len();
        }
        Ok(())
    }

    /// Puts the ends of all steps where they are.
    fn put_ends(&mut self, alloc: Global, owed: usize, items: &[Shown]) -> Result<(), AllocError> {
        let mut lasts = vec![in alloc; 0; owed]?;
        let mut nexts = Vec::with_capacity(alloc, items.len())?;
        for item in 0..items.len() {
            let owed = items[item].owed as usize;
            nexts.push(lasts.get(owed).copied().unwrap_or(0))?;
            if let Some(last) = lasts.get_mut(owed) {
                *last = item + 1;
            }
        }
        for later in 0..owed {
            let last = lasts.get(owed - 1 - later).copied().unwrap_or(0);
            self.put_ends_of(&nexts, last)?;
        }
        Ok(())
    }

    /// Puts the ends of a step where they are, counted from 1, and of those that come after it.
    fn put_ends_of(&mut self, nexts: &[usize], first: usize) -> Result<(), AllocError> {
        let mut at = first;
        for _ in 0..nexts.len() {
            if at == 0 {
                return Ok(());
            }
            let item = at - 1;
            if let Some(sides) = self.sides.get(item).copied() {
                self.put_end(sides.from, item)?;
                self.put_end(sides.into, item)?;
            }
            at = nexts.get(item).copied().unwrap_or(0);
        }
        Ok(())
    }

    /// The slot of the other place of a step.
    fn other(&self, item: usize, slot: usize) -> usize {
        match self.sides.get(item) {
            Some(sides) if sides.from == slot => sides.into,
            Some(sides) => sides.from,
            None => 0,
        }
    }

    /// Visits what the steps at the place of a visit lead to, of those that the first reasons show, so many of them.
    fn spread(
        &self,
        walk: &mut Walk,
        items: &[Shown],
        before: usize,
        visit: usize,
        slot: usize,
    ) -> Result<(), AllocError> {
        let mut at = self.firsts.get(slot).copied().unwrap_or(0);
        for _ in 0..self.ends.len() {
            if at == 0 {
                return Ok(());
            }
            let Some(end) = self.ends.get(at - 1).copied() else {
                return Ok(());
            };
            if let Some(shown) = items.get(end.item) {
                if shown.before <= before {
                    walk.visit(self.other(end.item, slot), end.item, visit)?;
                }
            }
            at = end.next;
        }
        Ok(())
    }

    /// The numbers of the steps of a shortest way from one place to another, of those that the first reasons show, so many of them.
    /// None where no such way leads there.
    pub(crate) fn path(
        &self,
        alloc: Global,
        items: &[Shown],
        before: usize,
        from: Place,
        into: Place,
    ) -> Result<Vec<usize>, AllocError> {
        let goal = self.slot(into);
        let mut walk = Walk {
            visits: Vec::new(alloc),
            at: vec![in alloc; 0; self.firsts.len()]?,
        };
        walk.visit(self.slot(from), 0, 0)?;
        for next in 0..self.firsts.len() {
            if next >= walk.visits.len() || walk.at.get(goal).copied().unwrap_or(0) > 0 {
                return walk.back_from(alloc, goal);
            }
            let slot = walk.visits[next].slot;
            self.spread(&mut walk, items, before, next, slot)?;
        }
        walk.back_from(alloc, goal)
    }
}

impl Walk {
    /// Visits the place of a slot by a step from the place of a visit, if it was not visited.
    fn visit(&mut self, slot: usize, item: usize, before: usize) -> Result<(), AllocError> {
        if slot > 0 && slot < self.at.len() && self.at[slot] == 0 {
            self.visits.push(Visit { slot, item, before })?;
            self.at[slot] = u32::try_from(self.visits.len()).unwrap_or(0);
        }
        Ok(())
    }

    /// The numbers of the steps from the first visit to the place of a slot.
    fn back_from(&self, alloc: Global, slot: usize) -> Result<Vec<usize>, AllocError> {
        let mut path = Vec::new(alloc);
        let mut at = (self.at.get(slot).copied().unwrap_or(0) as usize).saturating_sub(1);
        for _ in 0..self.visits.len() {
            if at == 0 {
                break;
            }
            let Some(visit) = self.visits.get(at).copied() else {
                break;
            };
            path.push(visit.item)?;
            at = visit.before;
        }
        path.reverse();
        Ok(path)
    }
}
