//! The calls of a body, with the ways to them. A lock on a class or on a global stays as it is over a whole body, so a search goes to all its
//! calls at once.

use crate::explain_analysis::ExplainAnalysis;
use asl_code::Instr;
use std::alloc::{AllocError, Global};

/// A call of a function, and how many instructions are on the way to it.
#[derive(Clone, Copy)]
pub(crate) struct CallSite {
    pub(crate) pc: u16,
    pub(crate) function: u16,
    pub(crate) instructions: u32,
}

/// An instruction that takes the address of a global, and how many are on the way to it.
#[derive(Clone, Copy)]
pub(crate) struct Taking {
    pub(crate) global: u16,
    pub(crate) pc: u16,
    pub(crate) instructions: u32,
}

/// What is on the ways through a body from a pc on.
#[derive(Drop)]
pub(crate) struct Calls {
    /// The pc.
    pub(crate) from: u16,
    pub(crate) sites: Vec<CallSite>,
    pub(crate) takings: Vec<Taking>,
}

/// The pcs of a body that ways have come to, with the lengths of the shortest.
#[derive(Drop)]
struct Reached {
    start: u16,
    lengths: Vec<Option<u32>>,
    /// In the order in which ways came to them.
    pcs: Vec<u16>,
}

impl Reached {
    /// The length of the shortest way to a pc.
    fn length(&self, pc: u16) -> Option<u32> {
        let place = pc.checked_sub(self.start)?;
        match self.lengths.get(usize::from(place)) {
            Some(length) => *length,
            None => None,
        }
    }

    /// Notes a way to a pc, unless there is a shorter one.
    fn note(&mut self, pc: u16, length: u32) -> Result<(), AllocError> {
        let Some(place) = pc.checked_sub(self.start) else {
            return Ok(());
        };
        let Some(known) = self.lengths.get_mut(usize::from(place)) else {
            return Ok(());
        };
        if known.is_none() {
            *known = Some(length);
            self.pcs.push(pc)?;
        }
        Ok(())
    }
}

/// What is on the ways from a pc of a function's body on.
pub(crate) fn find_calls(
    alloc: Global,
    analysis: &ExplainAnalysis,
    start: u16,
    len: usize,
    from: u16,
) -> Result<Calls, AllocError> {
    let mut calls = Calls {
        from,
        sites: Vec::new(alloc),
        takings: Vec::new(alloc),
    };
    let mut reached = Reached {
        start,
        lengths: vec![in alloc; None; len]?,
        pcs: Vec::new(alloc),
    };
    reached.note(from, 0)?;
    for place in 0..len {
        let Some(pc) = reached.pcs.get(place).copied() else {
            break;
        };
        let length = reached.length(pc).unwrap_or(0);
        calls.pass(analysis, &mut reached, pc, length)?;
    }
    Ok(calls)
}

impl Calls {
    /// Adds the instruction at a pc, and notes the ways on from it.
    fn pass(
        &mut self,
        analysis: &ExplainAnalysis,
        reached: &mut Reached,
        pc: u16,
        length: u32,
    ) -> Result<(), AllocError> {
        let code = analysis.lowering.code();
        if usize::from(pc) >= code.len() {
            return Ok(());
        }
        self.add(&code[usize::from(pc)], pc, length)?;
        for next in analysis.lowering.successors(pc).as_slice() {
            reached.note(*next, length.saturating_add(1))?;
        }
        Ok(())
    }

    /// Adds an instruction, if it is a call or takes the address of a global.
    fn add(&mut self, instr: &Instr, pc: u16, instructions: u32) -> Result<(), AllocError> {
        match *instr {
            Instr::Call { function, .. } => self.sites.push(CallSite {
                pc,
                function,
                instructions,
            })?,
            Instr::GlobalAddress { global, .. } => self.takings.push(Taking {
                global,
                pc,
                instructions,
            })?,
            _ => {}
        }
        Ok(())
    }
}
