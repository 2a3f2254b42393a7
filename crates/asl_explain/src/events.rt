//! The instructions at which something may happen to a lock, by what they mention, so that a search skips the others.

use crate::skips::{Passed, Skips, find_skips};
use asl_code::{Base, Expr, Instr, Lock, Op};
use asl_lower::Lowering;
use std::alloc::{AllocError, Global};

/// An instruction that takes an address by a register.
#[derive(Clone, Copy, PartialEq, Eq, PartialOrd, Ord)]
struct FieldTaken {
    offset: u8,
    pc: u16,
}

/// The pcs of the instructions that mention a register, each list in order.
#[derive(Drop)]
struct Mentions {
    /// Those that set it, or move or store by it.
    settings: Vec<u16>,
    /// Those that load by it and set another.
    loads: Vec<u16>,
    /// Those that take an address by it and set another, by their offsets.
    fields: Vec<FieldTaken>,
}

/// The pcs of a program's instructions, each list in order, by what they mention.
#[derive(Drop)]
pub struct Events {
    /// For each function and each of its registers: those that mention it.
    registers: Vec<Vec<Mentions>>,
    /// For each global: those that take its address.
    globals: Vec<Vec<u16>>,
    /// The stores.
    stores: Vec<u16>,
    /// The calls and returns.
    turns: Vec<u16>,
    /// The jumps, and where the ways on from them come together.
    skips: Skips,
    /// Those that make a path longer.
    lengthening: Vec<u16>,
}

/// The registers that an instruction sets, and moves or stores by.
fn mentioned(instr: &Instr) -> (Option<u8>, Option<u8>) {
    match *instr {
        Instr::Move { to, from } => (Some(to), Some(from)),
        Instr::Store { address, from } => (Some(address), Some(from)),
        Instr::FieldAddress { to, .. }
        | Instr::Load { to, .. }
        | Instr::GlobalAddress { to, .. }
        | Instr::SetInt { to, .. }
        | Instr::SetNull { to }
        | Instr::Add { to, .. }
        | Instr::Subtract { to, .. }
        | Instr::LessThan { to, .. }
        | Instr::Equals { to, .. }
        | Instr::New { to, .. } => (Some(to), None),
        _ => (None, None),
    }
}

/// Whether the lock is on an expression whose path reads a cell.
pub fn has_star(lock: &Lock) -> bool {
    match lock {
        Lock::Expr(expr, _) => expr.path.as_slice().contains(&Op::Deref),
        _ => false,
    }
}

/// The first pc of the list that is not below this one.
fn first_from(pcs: &[u16], pc: u16) -> Option<u16> {
    match pcs.binary_search(&pc) {
        Ok(place) | Err(place) => pcs.get(place).copied(),
    }
}

/// The first pc of the list, not below this one, at which an address with this offset is taken.
fn first_field(fields: &[FieldTaken], offset: u8, pc: u16) -> Option<u16> {
    let first = match fields.binary_search(&FieldTaken { offset, pc }) {
        Ok(place) | Err(place) => fields.get(place)?,
    };
    if first.offset == offset {
        Some(first.pc)
    } else {
        None
    }
}

/// The lower of two pcs that may be missing.
fn earlier(a: Option<u16>, b: Option<u16>) -> Option<u16> {
    match (a, b) {
        (Some(a), Some(b)) => Some(a.min(b)),
        (None, b) => b,
        (a, None) => a,
    }
}

/// So many empty lists.
fn empty_lists(alloc: Global, count: usize) -> Result<Vec<Vec<u16>>, AllocError> {
    let mut lists = Vec::with_capacity(alloc, count)?;
    for _ in 0..count {
        lists.push(Vec::new(alloc))?;
    }
    Ok(lists)
}

/// Adds a pc to the list of a number, if there is one, unless it is its last.
fn add_to(lists: &mut Vec<Vec<u16>>, number: usize, pc: u16) -> Result<(), AllocError> {
    if let Some(list) = lists.get_mut(number) {
        add_last(list, pc)?;
    }
    Ok(())
}

/// Adds a pc to a list, unless it is its last.
fn add_last(list: &mut Vec<u16>, pc: u16) -> Result<(), AllocError> {
    if list.last().copied() != Some(pc) {
        list.push(pc)?;
    }
    Ok(())
}

/// What mentions so many registers: nothing yet.
fn no_mentions(alloc: Global, count: usize) -> Result<Vec<Mentions>, AllocError> {
    let mut registers = Vec::with_capacity(alloc, count)?;
    for _ in 0..count {
        registers.push(Mentions {
            settings: Vec::new(alloc),
            loads: Vec::new(alloc),
            fields: Vec::new(alloc),
        })?;
    }
    Ok(registers)
}

/// Adds an instruction that sets a register, or moves or stores by it.
fn add_setting(registers: &mut Vec<Mentions>, register: u8, pc: u16) -> Result<(), AllocError> {
    if let Some(mentions) = registers.get_mut(usize::from(register)) {
        add_last(&mut mentions.settings, pc)?;
    }
    Ok(())
}

/// Adds an instruction that loads or takes an address by a register and sets another.
fn add_use(registers: &mut Vec<Mentions>, instr: &Instr, pc: u16) -> Result<(), AllocError> {
    match *instr {
        Instr::FieldAddress { to, from, offset } if to != from => {
            if let Some(mentions) = registers.get_mut(usize::from(from)) {
                mentions.fields.push(FieldTaken { offset, pc })?;
            }
        }
        Instr::Load { to, address } if to != address => {
            if let Some(mentions) = registers.get_mut(usize::from(address)) {
                mentions.loads.push(pc)?;
            }
        }
        _ => {}
    }
    Ok(())
}

/// The events of a program.
pub fn find_events(alloc: Global, lowering: &Lowering) -> Result<Events, AllocError> {
    let mut events = Events {
        registers: Vec::new(alloc),
        globals: empty_lists(alloc, usize::from(lowering.globals()))?,
        stores: Vec::new(alloc),
        turns: Vec::new(alloc),
        skips: find_skips(alloc, lowering.code())?,
        lengthening: Vec::new(alloc),
    };
    let mut pc = 0;
    for function in lowering.functions() {
        let mut registers = no_mentions(alloc, usize::from(function.regs))?;
        for _ in 0..function.len {
            if let Some(instr) = lowering.code().get(pc) {
                events.add(&mut registers, instr, pc as u16)?;
            }
            pc = pc.saturating_add(1);
        }
        for mentions in &mut registers {
            mentions.fields.sort_unstable();
        }
        events.registers.push(registers)?;
    }
    Ok(events)
}

impl Mentions {
    /// The first instruction from a pc on that makes a lock on the register, with this path, another, or makes another this one. One
    /// that takes an address or a value by the register does so only where the path begins with that operation, and a load needs
    /// the register's own cell.
    fn next(&self, path: &[Op], pc: u16) -> Option<u16> {
        let setting = first_from(&self.settings, pc);
        let taken = match path.first() {
            Some(Op::Off(offset)) => first_field(&self.fields, *offset, pc),
            Some(Op::Deref) | None => first_from(&self.loads, pc),
        };
        earlier(setting, taken)
    }
}

impl Events {
    /// Adds the instruction at a pc, of a function with these lists of its registers.
    fn add(
        &mut self,
        registers: &mut Vec<Mentions>,
        instr: &Instr,
        pc: u16,
    ) -> Result<(), AllocError> {
        let (set, used) = mentioned(instr);
        if let Some(register) = set {
            add_setting(registers, register, pc)?;
        }
        if let Some(register) = used {
            add_setting(registers, register, pc)?;
        }
        add_use(registers, instr, pc)?;
        match *instr {
            Instr::GlobalAddress { global, .. } => {
                add_to(&mut self.globals, usize::from(global), pc)
            }
            Instr::Store { .. } => Ok(self.stores.push(pc)?),
            Instr::Call { .. } | Instr::Return { .. } => Ok(self.turns.push(pc)?),
            Instr::FieldAddress { .. } | Instr::Load { .. } => Ok(self.lengthening.push(pc)?),
            _ => Ok(()),
        }
    }

    /// The first instruction from a pc on that mentions what an expression of the function begins with.
    fn next_mention(&self, function: u16, expr: &Expr, pc: u16) -> Option<u16> {
        match expr.base {
            Base::Global(global) => first_from(self.globals.get(usize::from(global))?, pc),
            Base::Reg(register) => {
                let registers = self.registers.get(usize::from(function))?;
                let mentions = registers.get(usize::from(register))?;
                mentions.next(expr.path.as_slice(), pc)
            }
        }
    }

    /// The first instruction from a pc on at which something may happen to a lock of the function, if all ways lead there; else the first
    /// jump from which some do not. The instructions before it leave the lock as it is, need it not, and make it of no other.
    pub fn next(&self, function: u16, lock: &Lock, pc: u16) -> Option<Passed> {
        let change = self.next_change(function, lock, pc)?;
        Some(self.skips.pass(pc, change))
    }

    /// The first call or return from a pc on, if all ways lead there; else the first jump from which some do not.
    pub fn first_turn(&self, pc: u16) -> Option<Passed> {
        let turn = first_from(&self.turns, pc)?;
        Some(self.skips.pass(pc, turn))
    }

    /// How many calls and returns are among so many instructions from a pc on.
    pub fn count_turns(&self, pc: u16, len: usize) -> usize {
        let end = usize::from(pc).saturating_add(len);
        let first = match self.turns.binary_search(&pc) {
            Ok(place) | Err(place) => place,
        };
        let mut count: usize = 0;
        for turn in self.turns.iter().skip(first) {
            if usize::from(*turn) >= end {
                break;
            }
            count = count.saturating_add(1);
        }
        count
    }

    /// The first instruction from a pc on, other than a jump, at which something may happen to a lock of the function.
    fn next_change(&self, function: u16, lock: &Lock, pc: u16) -> Option<u16> {
        let turn = first_from(&self.turns, pc);
        let Lock::Expr(expr, _) = lock else {
            return earlier(turn, first_from(&self.lengthening, pc));
        };
        let mention = earlier(turn, self.next_mention(function, expr, pc));
        if has_star(lock) {
            earlier(mention, first_from(&self.stores, pc))
        } else {
            mention
        }
    }
}
