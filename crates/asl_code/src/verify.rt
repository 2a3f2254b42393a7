//! Judging an image, rule after rule.

ghost use Rattle.std.specs.Prelude.{◌≡◌, ◌≤◌, nat_lt, length, IsTrue, MatchOption};
ghost use Rattle.std.specs.List.{list_all};
ghost use Rattle.asl_code.specs.Bodies.{total_len};
ghost use Rattle.asl_code.specs.Verified.{keeps_function_limits, keeps_list_limit, keeps_counts, keeps_limits, has_lock, has_tables, has_entry, has_range, has_ranges, is_end, has_ends, IsVerified, IsAnswer};

use crate::fault::VerifyFault;
use crate::image::{Function, Image};
use crate::image_limits::{self, Limits, limits_of};
use crate::instr::Instr;
use crate::items::Items;
use crate::lock::{Base, Lock};
use crate::places::{Rule, first_failing};

/// The fault of the earliest line that applies, at its lowest place; none where the image is verified.
pub fn first_fault(image: &Image) -> Option<VerifyFault>
    ensures { MatchOption result (IsVerified image.now) (IsAnswer image.now) }
{
    if !keeps_limits(image) {
        return Some(VerifyFault::Limit);
    }
    if !has_tables(image) {
        return Some(VerifyFault::Table);
    }
    if !has_entry(image) {
        return Some(VerifyFault::NoEntry);
    }
    if !has_ranges(image) {
        return Some(VerifyFault::FunctionRange);
    }
    if !has_ends(image) {
        return Some(VerifyFault::FallsOut);
    }
    if let Some(pc) = first_failing(image, Rule::Target) {
        return Some(VerifyFault::Target(pc));
    }
    if let Some(pc) = first_failing(image, Rule::Register) {
        return Some(VerifyFault::Register(pc));
    }
    if let Some(pc) = first_failing(image, Rule::Operand) {
        return Some(VerifyFault::Operand(pc));
    }
    if let Some(pc) = first_failing(image, Rule::ListBase) {
        return Some(VerifyFault::ListBase(pc));
    }
    None
}

/// Whether there is the image's version, and no count is over its limit.
fn keeps_limits(image: &Image) -> bool
    ensures { result ≡ keeps_limits image.now }
{
    match limits_of(image.version) {
        Some(limits) => keeps_counts(image, limits),
        None => false,
    }
}

/// Whether no count is over its limit, under what the version sets.
fn keeps_counts(image: &Image, version: Limits) -> bool
    ensures { result ≡ keeps_counts version image.now }
{
    image.classes <= image_limits::CLASSES
        && image.globals.len() <= image_limits::GLOBALS
        && image.functions.len() <= image_limits::FUNCTIONS
        && image.code.len() <= image_limits::CODE
        && image.lists.len() <= image_limits::LISTS
        && functions_keep_limits(image.functions.as_slice())
        && lists_keep_limit(image.lists.as_slice(), version)
}

/// Whether no function has more parameters or registers than a function may.
fn functions_keep_limits(functions: &[Function]) -> bool
    ensures { result ≡ list_all keeps_function_limits functions.now }
{
    functions.iter().all(|f| f.params <= image_limits::PARAMS && f.regs <= image_limits::REGS)
}

/// Whether no list has more locks than the version allows.
fn lists_keep_limit(lists: &[Items<Lock>], version: Limits) -> bool
    ensures { result ≡ list_all (keeps_list_limit version) lists.now }
{
    lists.iter().all(|locks| locks.len() <= version.locks)
}

/// Whether the classes of all globals, and the classes and globals of all locks are there.
fn has_tables(image: &Image) -> bool
    ensures { result ≡ has_tables image.now }
{
    has_classes(image.globals.as_slice(), image.classes) && has_lists(image)
}

/// Whether the class of each global is there.
fn has_classes(globals: &[u16], classes: u32) -> bool
    ensures { result ≡ list_all (λ class. nat_lt class classes) globals.now }
{
    globals.iter().all(|class| u32::from(*class) < classes)
}

/// Whether what each lock of each list names is there.
fn has_lists(image: &Image) -> bool
    ensures { result ≡ list_all (list_all (has_lock image.now)) image.now.lists }
{
    image
        .lists
        .as_slice()
        .iter()
        .all(|locks| has_locks(image, locks.as_slice()))
}

/// Whether what each of these locks names is there.
fn has_locks(image: &Image, locks: &[Lock]) -> bool
    ensures { result ≡ list_all (has_lock image.now) locks.now }
{
    locks.iter().all(|lock| has_lock(image, lock))
}

/// Whether the class or the global that a lock names is there; a register is judged where the list is acquired.
fn has_lock(image: &Image, lock: &Lock) -> bool
    ensures { result ≡ has_lock image.now lock.now }
{
    match lock {
        Lock::Root(_) => true,
        Lock::Class(class, _) => u32::from(*class) < image.classes,
        Lock::Expr(expr, _) => match expr.base {
            Base::Reg(_) => true,
            Base::Global(global) => usize::from(global) < image.globals.len(),
        },
    }
}

/// Whether the entry function is there and has exactly one parameter.
fn has_entry(image: &Image) -> bool
    ensures { result ≡ has_entry image.now }
{
    match image.functions.as_slice().get(usize::from(image.start)) {
        Some(function) => function.params == 1,
        None => false,
    }
}

/// Whether each function has an instruction and a register for each parameter, and the bodies together are the code.
fn has_ranges(image: &Image) -> bool
    requires { IsTrue (keeps_limits image.now) }
    ensures { result ≡ has_ranges image.now }
{
    functions_have_range(image.functions.as_slice())
        && total_len(image.functions.as_slice()) == image.code.len() as u64
}

/// Whether each function has an instruction, and a register for each parameter.
fn functions_have_range(functions: &[Function]) -> bool
    ensures { result ≡ list_all has_range functions.now }
{
    functions.iter().all(|f| 0 < f.len && f.params <= f.regs)
}

/// How many instructions all bodies have together.
fn total_len(functions: &[Function]) -> u64
    requires { length functions.now ≤ 256 }
    ensures { result ≡ total_len functions.now }
{
    functions.iter().map(|f| u64::from(f.len)).sum()
}

/// Whether the last instruction of each function returns or jumps.
fn has_ends(image: &Image) -> bool
    requires { IsTrue (has_ranges image.now) }
    ensures { result ≡ has_ends image.now }
{
    let code = image.code.as_slice();
    let mut first = 0;
    for function in image.functions.as_slice() {
        let past = first + function.len as usize;
        if !is_end(&code[past - 1]) {
            return false;
        }
        first = past;
    }
    true
}

/// Whether nothing goes on to the instruction behind this one.
fn is_end(instr: &Instr) -> bool
    ensures { result ≡ is_end instr.now }
{
    matches!(instr, Instr::Return { .. } | Instr::Jump { .. })
}
