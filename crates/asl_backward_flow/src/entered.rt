//! What locks at the entry of a function become at its calls, as far as it was found.
ghost use Rattle.std.specs.Prelude.{◌≡◌, ◌++◌, ◌∷◌, [], IsTrue, IfOk, IfSome, OnOk};
ghost use Rattle.asl_backward_flow.specs.Entering.{AreSameCall, IsFoundAt, IsSameCall};

use asl_code::Instr;
use asl_lane_sets::Bits;
use asl_lower::Lowering;
use std::alloc::{AllocError, Global};

/// No place.
const NOWHERE: usize = usize::MAX;

/// What locks at the entry of a function become at one of its calls, as numbers of a region that has the call.
#[derive(Drop)]
pub struct Entered {
    pub part: u16,
    pub pc: u16,
    pub numbers: Bits,
    /// Where what was found before for the same region stands.
    pub before: usize,
}

/// What the same locks become at several calls.
#[derive(Drop)]
pub struct AllEntered {
    pub list: Vec<Entered>,
    /// For each region, where what was found last for it stands. A place that is none of the list's, or another region's, says
    /// that nothing was found.
    pub last: Vec<usize>,
}

impl AllEntered {
    /// Nothing found of so many regions.
    pub fn new(alloc: Global, count: usize) -> Result<AllEntered, AllocError>
        ensures { IfOk result (λ all. all.list.items ≡ []) }
    {
        Ok(AllEntered {
            list: Vec::new(alloc),
            last: vec![in alloc; NOWHERE; count]?,
        })
    }

    /// The place of what was found for the region at a call of the same function with its arguments in the same registers.
    pub fn find(&self, lowering: &Lowering, part: u16, pc: u16) -> Option<usize>
        ensures { IfSome result (IsFoundAt lowering.now part pc self.now.list.items) }
    {
        let mut end = self.list.len();
        let mut place = self.last_of(part);
        while place < end {
            let entered = &self.list[place];
            if entered.part != part {
                return None;
            }
            if is_same_call(lowering, entered.pc, pc) {
                return Some(place);
            }
            end = place;
            place = entered.before;
        }
        None
    }

    /// Where what was found last for a region stands.
    fn last_of(&self, part: u16) -> usize {
        match self.last.get(usize::from(part)) {
            Some(place) => *place,
            None => NOWHERE,
        }
    }

    /// Puts what was found for a region at a call.
    pub fn put(&mut self, part: u16, pc: u16, numbers: Bits) -> Result<(), AllocError>
        ensures { OnOk result ((before : _) × (self.new.list.items ≡ self.old.list.items ++ record { part = part; pc = pc; numbers = numbers; before = before } ∷ [])) }
    {
        let before = self.last_of(part);
        let place = self.list.len();
        self.list.push(Entered {
            part,
            pc,
            numbers,
            before,
        })?;
        if usize::from(part) < self.last.len() {
            self.last[usize::from(part)] = place;
        }
        Ok(())
    }
}

/// Whether the same function is called at both pcs, with its arguments in the same registers.
fn is_same_call(lowering: &Lowering, pc: u16, other: u16) -> bool
    ensures { IsTrue result → IsSameCall lowering.now pc other }
{
    let code = lowering.code();
    match (code.get(usize::from(pc)), code.get(usize::from(other))) {
        (Some(call), Some(same)) => are_same(call, same),
        _ => false,
    }
}

/// Whether both are calls of one function, with its arguments in the same registers.
fn are_same(call: &Instr, other: &Instr) -> bool
    ensures { IsTrue result → AreSameCall call.now other.now }
{
    match (*call, *other) {
        (
            Instr::Call {
                first,
                function,
                ..
            },
            Instr::Call {
                first: same,
                function: callee,
                ..
            },
        ) => first == same && function == callee,
        _ => false,
    }
}
