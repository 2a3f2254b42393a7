//! Counts, functions and sections of a program.
ghost use Rattle.std.specs.Prelude.{◌≡◌, ◌≢◌, ◌<◌, ◌≤◌, ◌^◌, IfSome, IfNone, IsTrue, Some, length, slice_get};
ghost use Rattle.asl_code.specs.Bodies.{first_of, total_len};
ghost use Rattle.asl_code.specs.Fits.{FitsImage, LiesIn};
ghost use Rattle.asl_code.specs.declared.image.Function.{Function};
ghost use Rattle.asl_code.specs.declared.instr.Instr.TheVariants as instr;
ghost use Rattle.asl_lower.specs.OpenSections.{is_acquire, sections_before};
ghost use Rattle.asl_c_programs.specs.Status.{IsSectionPut};
ghost use Rattle.asl_c_programs.specs.Tables.{class_named, counts_of, function_at, section_count_of};

use crate::entries::{Counts, FunctionEntry, SectionEntry};
use crate::list_entries::{names_class, names_root};
use crate::opened::Opened;
use crate::status::{DONE, NO_SUCH_NUMBER};
use asl_code::{Function, Instr, Program, verified_images_fit};

/// How many there are of each part.
pub fn counts(opened: &Opened) -> Counts
    ensures { result ≡ counts_of opened.now }
{
    let program = &opened.program;
    fits(program);
    Counts {
        version: program.version(),
        classes: program.classes(),
        globals: program.globals().len() as u32,
        functions: program.functions().len() as u32,
        start: u32::from(program.start()),
        instructions: program.code().len() as u32,
        sections: sections(program.code()),
        lists: program.lists().len() as u32,
        names_root: names_root(program.lists()),
        has_source: opened.facts.is_some(),
    }
}

/// Whether some list has a lock on the class, if there is the class.
pub fn class(program: &Program, class: u32) -> Option<bool>
    ensures { result ≡ class_named program.now class }
{
    if class < program.classes() {
        Some(names_class(program.lists(), class))
    } else {
        None
    }
}

/// The class of the global.
pub fn global(program: &Program, global: u32) -> Option<u16>
    ensures { result ≡ slice_get program.now.globals global }
{
    program.globals().get(global as usize).copied()
}

/// The function of this number.
pub fn function(program: &Program, number: u32) -> Option<FunctionEntry>
    ensures { result ≡ function_at program.now number }
{
    fits(program);
    let function = program.functions().get(number as usize)?;
    Some(FunctionEntry {
        parameters: function.params,
        registers: function.regs,
        first: first(program.functions(), number as usize),
        instructions: function.len,
    })
}

/// Writes the section of this number.
pub fn put_section(program: &Program, number: u32, entry: &mut SectionEntry) -> u32
    ensures put { IsSectionPut program.now number entry.old entry.new result }
    ensures unwritten { result ≢ 0 → entry.new ≡ entry.old }
    ensures other { result ≢ 3 }
{
    fits(program);
    match entered(program.code(), number) {
        Some((place, list)) => {
            *entry = SectionEntry {
                function: owner(program, place),
                list,
                place,
            };
            DONE
        }
        None => NO_SUCH_NUMBER,
    }
}

/// The facts of a verified image.
fn fits(program: &Program)
    ensures { FitsImage program.now }
{
    verified_images_fit();
    program.code();
}

/// Where the function of this number begins.
#[tactic(auto, using(crate::proofs::Bodies::begins_within))]
fn first(functions: &[Function], number: usize) -> u32
    requires few { length functions.now ≤ 256 }
    requires total { total_len functions.now < 2 ^ 16 }
    requires there { number ≤ length functions.now }
    ensures { result ≡ first_of functions.now number }
{
    total_len(&functions[..number]) as u32
}

/// How many instructions the functions have together.
fn total_len(functions: &[Function]) -> u64
    requires { length functions.now ≤ 256 }
    ensures { result ≡ total_len functions.now }
{
    functions.iter().map(|f| u64::from(f.len)).sum()
}

/// The number of the function in whose body the place lies.
fn owner(program: &Program, place: u32) -> u16
    requires { place < length program.now.code }
    ensures { (f : Function) × LiesIn program.now result place f }
{
    fits(program);
    let mut number = 0;
    let mut end = 0;
    for function in program.functions() {
        end += function.len;
        if place < end {
            return number;
        }
        number += 1;
    }
    number
}

/// How many sections the code has.
fn sections(code: &[Instr]) -> u32
    requires { length code.now < 2 ^ 16 }
    ensures { result ≡ section_count_of code.now }
{
    let mut count = 0;
    for instr in code {
        if is_acquire(instr) {
            count += 1;
        }
    }
    count
}

/// The place of the `acq` of this number, and its list.
fn entered(code: &[Instr], number: u32) -> Option<(u32, u16)>
    requires { length code.now < 2 ^ 16 }
    ensures enters { IfSome result (λ at. slice_get code.now at.0 ≡ Some (instr.Acquire at.1)) }
    ensures there { IfSome result (λ at. at.0 < length code.now) }
    ensures number { IfSome result (λ at. sections_before code.now at.0 ≡ number) }
    ensures none { IfNone result (section_count_of code.now ≤ number) }
{
    let mut left = number;
    for (place, instr) in code.iter().enumerate() {
        if is_acquire(instr) {
            if left == 0 {
                return Some((place as u32, list_of(instr)));
            }
            left -= 1;
        }
    }
    None
}

/// Whether the instruction enters a section.
fn is_acquire(instr: &Instr) -> bool
    ensures { result ≡ is_acquire instr.now }
{
    matches!(instr, Instr::Acquire { .. })
}

/// The list of an instruction that enters a section.
fn list_of(entering: &Instr) -> u16
    requires { IsTrue (is_acquire entering.now) }
    ensures { entering.now ≡ instr.Acquire result }
{
    match entering {
        Instr::Acquire { list } => *list,
        _ => unreachable!(),
    }
}
