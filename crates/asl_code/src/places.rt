//! The rules of an image that judge each instruction at its place.

ghost use Rattle.std.specs.Prelude.{◌≡◌, ◌+◌, ◌&&◌, nat_le, nat_lt, IsTrue, not, position};
ghost use Rattle.std.specs.List.{list_all};
ghost use Rattle.asl_code.specs.Rules.{test_of, body_at, IsLowestFailing};
ghost use Rattle.asl_code.specs.Verified.{keeps_limits, has_ranges, has_target, has_arguments, has_registers, has_operands, has_lock_base, has_list_bases};

use crate::image::{Function, Image};
use crate::instr::Instr;
use crate::lock::{Base, Lock};

/// The rules of the verifier's table that judge each instruction.
#[derive(Clone, Copy)]
pub enum Rule {
    Target,
    Register,
    Operand,
    ListBase,
}

/// The lowest place of an instruction that does not pass the rule.
pub fn first_failing(image: &Image, rule: Rule) -> Option<u32>
    requires limits { IsTrue (keeps_limits image.now) }
    requires ranges { IsTrue (has_ranges image.now) }
    ensures { IsLowestFailing (test_of rule image.now) image.now result }
{
    let mut first = 0;
    let mut rest = image.code.as_slice();
    for function in image.functions.as_slice() {
        let (body, later) = rest.split_at(function.len as usize);
        if let Some(place) = first_in_body(image, rule, first, function, body) {
            return Some((first + place) as u32);
        }
        first += body.len();
        rest = later;
    }
    None
}

/// The lowest place in the body, which begins at `first`, of an instruction that does not pass the rule.
fn first_in_body(
    image: &Image,
    rule: Rule,
    first: usize,
    function: &Function,
    body: &[Instr],
) -> Option<usize>
    ensures { result
        ≡ position (λ instr. not (test_of rule image.now (body_at first function.now) instr)) body.now }
{
    body.iter()
        .position(|instr| !passes(image, rule, first, function, instr))
}

/// Whether the instruction of a function, whose body begins at `first`, passes the rule.
fn passes(image: &Image, rule: Rule, first: usize, function: &Function, instr: &Instr) -> bool
    ensures { result ≡ test_of rule image.now (body_at first function.now) instr.now }
{
    match rule {
        Rule::Target => has_target(image, first, function, instr),
        Rule::Register => has_registers(image, function, instr),
        Rule::Operand => has_operands(image, instr),
        Rule::ListBase => has_list_bases(image, function, instr),
    }
}

/// Whether a jump stays in the body of its function, and the function that a call names is there.
fn has_target(image: &Image, first: usize, function: &Function, instr: &Instr) -> bool
    ensures { result ≡ has_target image.now (body_at first function.now) instr.now }
{
    match *instr {
        Instr::Jump { target } | Instr::JumpIfZero { target, .. } => {
            is_inside(usize::from(target), first, function.len as usize)
        }
        Instr::Call { function, .. } => usize::from(function) < image.functions.len(),
        _ => true,
    }
}

/// Whether the place lies in the body of so many instructions that begins at `first`.
fn is_inside(place: usize, first: usize, len: usize) -> bool
    ensures { result ≡ (nat_le first place && nat_lt place (first + len)) }
{
    first <= place && place - first < len
}

/// Whether the function has each register that the instruction names, and all that a call hands on.
fn has_registers(image: &Image, function: &Function, instr: &Instr) -> bool
    ensures { result ≡ has_registers image.now function.now instr.now }
{
    let regs = function.regs;
    match *instr {
        Instr::SetInt { to, .. }
        | Instr::SetNull { to }
        | Instr::GlobalAddress { to, .. }
        | Instr::New { to, .. } => to < regs,
        Instr::Move { to, from } | Instr::FieldAddress { to, from, .. } => to < regs && from < regs,
        Instr::Add { to, left, right }
        | Instr::Subtract { to, left, right }
        | Instr::LessThan { to, left, right }
        | Instr::Equals { to, left, right } => to < regs && left < regs && right < regs,
        Instr::Load { to, address } => to < regs && address < regs,
        Instr::Store { address, from } => address < regs && from < regs,
        Instr::JumpIfZero { test, .. } => test < regs,
        Instr::Call {
            to,
            first,
            function: callee,
        } => to < regs && has_arguments(image, function, first, callee),
        Instr::Return { from } | Instr::Output { from } => from < regs,
        Instr::Jump { .. } | Instr::Acquire { .. } | Instr::Release => true,
    }
}

/// Whether the function has the registers from `first` on that the called function takes.
fn has_arguments(image: &Image, function: &Function, first: u8, callee: u16) -> bool
    ensures { result ≡ has_arguments image.now function.now first callee }
{
    match image.functions.as_slice().get(usize::from(callee)) {
        Some(callee) => u32::from(first) + u32::from(callee.params) <= u32::from(function.regs),
        None => true,
    }
}

/// Whether what the instruction names is there, and a new object has a cell.
fn has_operands(image: &Image, instr: &Instr) -> bool
    ensures { result ≡ has_operands image.now instr.now }
{
    match *instr {
        Instr::GlobalAddress { global, .. } => usize::from(global) < image.globals.len(),
        Instr::New { cells, class, .. } => 0 < cells && u32::from(class) < image.classes,
        Instr::Acquire { list } => usize::from(list) < image.lists.len(),
        _ => true,
    }
}

/// Whether the function has the registers on which the locks of the list that it acquires are based.
fn has_list_bases(image: &Image, function: &Function, instr: &Instr) -> bool
    ensures { result ≡ has_list_bases image.now function.now instr.now }
{
    match *instr {
        Instr::Acquire { list } => match image.lists.as_slice().get(usize::from(list)) {
            Some(locks) => has_lock_bases(function, locks.as_slice()),
            None => true,
        },
        _ => true,
    }
}

/// Whether it has those of all these locks.
fn has_lock_bases(function: &Function, locks: &[Lock]) -> bool
    ensures { result ≡ list_all (has_lock_base function.now) locks.now }
{
    locks.iter().all(|lock| has_lock_base(function, lock))
}

/// Whether the function has the register on which the lock's expression is based, if it is based on one.
fn has_lock_base(function: &Function, lock: &Lock) -> bool
    ensures { result ≡ has_lock_base function.now lock.now }
{
    match lock {
        Lock::Root(_) | Lock::Class(_, _) => true,
        Lock::Expr(expr, _) => match expr.base {
            Base::Reg(register) => register < function.regs,
            Base::Global(_) => true,
        },
    }
}
