//! For each place the steps at it, as searches go through them.

ghost use Rattle.asl_class_reasons.specs.Draft.{IsSized};
ghost use Rattle.asl_class_reasons.specs.Chains.{AreStepsThere};

use crate::draft::{Draft, number};
use crate::place::Step;
use std::alloc::{AllocError, Global};

/// The ends of steps, two for each step, the last step's first, counted from 1; 0 stands for none. The ends at a place are a
/// list, the first step's first. No answer rests on these: they say where to look first.
#[derive(Drop)]
pub(crate) struct StepEnds {
    firsts: Vec<u32>,
    nexts: Vec<u32>,
}

impl StepEnds {
    /// The ends of steps between places of a draft.
    pub(crate) fn new(alloc: Global, draft: &Draft, steps: &[Step]) -> Result<StepEnds, AllocError>
        requires sized { IsSized draft.now }
        requires there { AreStepsThere draft.now.members draft.now.functions steps.now }
    {
        let places = draft.members + draft.members + draft.functions * 256;
        let firsts = vec![in alloc; 0; places as usize]?;
        let nexts = Vec::new(alloc);
        let mut ends = StepEnds { firsts, nexts };
        let count = steps.len();
        for later in 0..count {
            let step = steps[count - 1 - later];
            ends.push(number(draft.members, step.from))?;
            ends.push(number(draft.members, step.into))?;
        }
        Ok(ends)
    }

    /// Adds an end at the place of a number.
    fn push(&mut self, place: u32) -> Result<(), AllocError> {
        let place = place as usize;
        if place < self.firsts.len() {
            self.nexts.push(self.firsts[place])?;
            self.firsts[place] = u32::try_from(self.nexts.len()).unwrap_or(0);
        }
        Ok(())
    }

    /// How many ends there are.
    pub(crate) fn count(&self) -> usize {
        self.nexts.len()
    }

    /// The first end at the place of a number.
    pub(crate) fn first(&self, place: u32) -> u32 {
        self.firsts.get(place as usize).copied().unwrap_or(0)
    }

    /// The end that follows at the same place.
    pub(crate) fn next(&self, end: u32) -> u32 {
        if end == 0 {
            return 0;
        }
        self.nexts.get(end as usize - 1).copied().unwrap_or(0)
    }

    /// The number of the step of an end.
    pub(crate) fn step(&self, end: u32) -> Option<usize> {
        if end == 0 {
            return None;
        }
        let later = (end as usize - 1) / 2;
        (self.nexts.len() / 2).checked_sub(later + 1)
    }
}
