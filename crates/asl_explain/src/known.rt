//! What is known of the steps of chains and of the ways between them, so that those in bodies are not looked at again for each section.
ghost use Rattle.std.specs.Prelude.{◌≡◌, IsTrue, IfOk, OnOk};
ghost use Rattle.asl_backward_flow.specs.Needed.{region_of};
ghost use Rattle.asl_explain.specs.Chains.{Read, Stays, Follows};
ghost use Rattle.asl_explain.specs.Known.{AreKnown};

use crate::explained_value::{Step, Why};
use crate::links::{are_same, copied};
use crate::stretch::{Stretch, is_way, keep};
use asl_backward_flow::Region;
use asl_code::{Base, Effect, Lock, Op};
use std::alloc::{AllocError, Global};
use std::collections::HashMap;

/// So many ways, and so many pairs of steps, are kept.
const MOST_KEPT: usize = 65536;

/// A step, and the one that it follows from.
#[derive(Drop)]
pub struct Pair {
    pub before: Step,
    pub step: Step,
}

/// Ways over which locks stay, and steps that follow from others.
#[derive(Drop)]
pub struct Known {
    /// The last ways.
    pub recent: Vec<Stretch>,
    /// Ways in bodies.
    pub ways: Vec<Stretch>,
    /// Steps in bodies.
    pub pairs: Vec<Pair>,
    /// Where ways and steps are kept, by their codes.
    way_places: HashMap<u64, usize>,
    pair_places: HashMap<u64, usize>,
}

/// A code with one number more.
fn mixed(code: u64, number: u64) -> u64 {
    code.wrapping_add(number).wrapping_mul(0x9E3779B97F4A7C15)
}

/// A code with an operation of a path more.
fn mixed_op(code: u64, op: Op) -> u64 {
    match op {
        Op::Deref => mixed(code, 256),
        Op::Off(offset) => mixed(code, u64::from(offset)),
    }
}

/// A code with a lock more.
fn mixed_lock(code: u64, lock: &Lock) -> u64 {
    let Lock::Expr(expr, effect) = lock else {
        return code;
    };
    let mut code = match expr.base {
        Base::Reg(register) => mixed(code, u64::from(register)),
        Base::Global(global) => mixed(code, 256 + u64::from(global)),
    };
    for op in expr.path.as_slice() {
        code = mixed_op(code, *op);
    }
    match effect {
        Effect::Read => mixed(code, 0),
        Effect::Write => mixed(code, 1),
    }
}

/// A code with a region and two pcs more.
fn mixed_place(code: u64, region: Region, from: u16, to: u16) -> u64 {
    let code = match region {
        Region::Body(function) => mixed(code, u64::from(function)),
        Region::Section(number) => mixed(code, 65536 + u64::from(number)),
    };
    mixed(mixed(code, u64::from(from)), u64::from(to))
}

/// The code of a way. Others may have the same.
fn way_code(region: Region, lock: &Lock, from: u16, to: u16) -> u64 {
    mixed_lock(mixed_place(1, region, from, to), lock)
}

/// The code of a step and the one before it. Others may have the same.
fn pair_code(before: &Step, step: &Step) -> u64 {
    let places = mixed_place(2, step.region, step.pc, before.pc);
    mixed_lock(mixed_lock(places, &step.lock), &before.lock)
}

/// Whether the region is the body of a function.
fn is_body(region: Region) -> bool {
    match region {
        Region::Body(_) => true,
        Region::Section(_) => false,
    }
}

/// Whether both are the same step.
fn is_step(step: &Step, other: &Step) -> bool
    ensures { IsTrue result → step.now ≡ other.now }
{
    step.region == other.region
        && step.pc == other.pc
        && step.why == other.why
        && are_same(&step.lock, &other.lock)
}

/// The same step.
fn same_step(step: &Step) -> Result<Step, AllocError>
    ensures { IfOk result (λ s. s ≡ step.now) }
{
    Ok(Step {
        region: step.region,
        pc: step.pc,
        lock: copied(&step.lock)?,
        why: step.why,
    })
}

/// Whether the pair is of these steps.
fn is_pair(pair: &Pair, before: &Step, step: &Step) -> bool
    ensures { IsTrue result → (pair.now.before ≡ before.now) × (pair.now.step ≡ step.now) }
{
    is_step(&pair.step, step) && is_step(&pair.before, before)
}

/// The same way.
fn same_way(way: &Stretch) -> Result<Stretch, AllocError>
    ensures { IfOk result (λ s. s ≡ way.now) }
{
    Ok(Stretch {
        region: way.region,
        lock: copied(&way.lock)?,
        from: way.from,
        to: way.to,
    })
}

impl Known {
    /// Nothing is known.
    pub fn new(alloc: Global) -> Known
        ensures { (x : Read) → AreKnown x result }
    {
        Known {
            recent: Vec::new(alloc),
            ways: Vec::new(alloc),
            pairs: Vec::new(alloc),
            way_places: HashMap::new(alloc),
            pair_places: HashMap::new(alloc),
        }
    }

    /// Whether the lock is known to stay in a region from one pc to another.
    pub fn has_way(&self, region: Region, lock: &Lock, from: u16, to: u16) -> bool
        ensures { IsTrue result → (x : Read) → AreKnown x self.now → Stays x (region_of region) lock.now from to }
    {
        let Some(place) = self.way_places.get(&way_code(region, lock, from, to)) else {
            return false;
        };
        match self.ways.get(*place) {
            Some(way) => is_way(way, region, lock, from, to),
            None => false,
        }
    }

    /// Whether a step is known to follow from the one before it.
    pub fn has_pair(&self, before: &Step, step: &Step) -> bool
        ensures { IsTrue result → (x : Read) → AreKnown x self.now → Follows x before.now step.now }
    {
        let Some(place) = self.pair_places.get(&pair_code(before, step)) else {
            return false;
        };
        match self.pairs.get(*place) {
            Some(pair) => is_pair(pair, before, step),
            None => false,
        }
    }

    /// Keeps a way among the last, and with those in bodies if it is one.
    pub fn keep_way(&mut self, way: Stretch) -> Result<(), AllocError>
        ensures { OnOk result ((x : Read) → AreKnown x self.old → Stays x (region_of way.region) way.lock way.from way.to → AreKnown x self.new) }
    {
        if is_body(way.region) && self.ways.len() < MOST_KEPT {
            let code = way_code(way.region, &way.lock, way.from, way.to);
            self.way_places.insert(code, self.ways.len())?;
            self.ways.push(same_way(&way)?)?;
        }
        keep(&mut self.recent, way)
    }

    /// Keeps a step in a body with the one before it.
    pub fn keep_pair(&mut self, before: &Step, step: &Step) -> Result<(), AllocError>
        ensures { OnOk result ((x : Read) → AreKnown x self.old → Follows x before.now step.now → AreKnown x self.new) }
    {
        if !is_body(step.region) || self.pairs.len() >= MOST_KEPT {
            return Ok(());
        }
        self.pair_places
            .insert(pair_code(before, step), self.pairs.len())?;
        self.pairs.push(Pair {
            before: same_step(before)?,
            step: same_step(step)?,
        })?;
        Ok(())
    }
}
