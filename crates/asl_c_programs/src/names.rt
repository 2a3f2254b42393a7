//! Names of a program's source.
ghost use Rattle.std.specs.Prelude.{◌≡◌, ◌≢◌, Some, slice_get};
ghost use Rattle.std.specs.Option.{option_copied};
ghost use Rattle.asl_map.specs.declared.map.Map.{Map};
ghost use Rattle.asl_map.specs.Names.{function_name, register_name};
ghost use Rattle.asl_c_programs.specs.Status.{IsNamePut, named_by};

use crate::opened::Opened;
use crate::status::{DONE, NO_NAMES, NO_SUCH_NUMBER};
use asl_c_memory::put_front;
use asl_map::Map;
use asl_syntax::Name;

/// Puts the name of a function into the buffer as far as there is room, and its whole length beside it.
pub fn put_function(opened: &Opened, function: u32, buffer: &mut [u8], whole: &mut usize) -> u32
    ensures put { IsNamePut (named_by opened.now (λ (m : Map). function_name m function)) buffer.old buffer.new whole.old whole.new result }
    ensures unwritten { result ≢ 0 → (buffer.new ≡ buffer.old) × (whole.new ≡ whole.old) }
    ensures other { result ≢ 3 }
{
    match &opened.facts {
        Some(facts) => put(function_of(&facts.map, function), buffer, whole),
        None => NO_NAMES,
    }
}

/// The same of a global.
pub fn put_global(opened: &Opened, global: u32, buffer: &mut [u8], whole: &mut usize) -> u32
    ensures put { IsNamePut (named_by opened.now (λ (m : Map). slice_get m.globals.items global)) buffer.old buffer.new whole.old whole.new result }
    ensures unwritten { result ≢ 0 → (buffer.new ≡ buffer.old) × (whole.new ≡ whole.old) }
    ensures other { result ≢ 3 }
{
    match &opened.facts {
        Some(facts) => put(facts.map.globals.get(global as usize), buffer, whole),
        None => NO_NAMES,
    }
}

/// The same of a local, by its register.
pub fn put_register(
    opened: &Opened,
    function: u32,
    register: u32,
    buffer: &mut [u8],
    whole: &mut usize,
) -> u32
    ensures put { IsNamePut (named_by opened.now (λ (m : Map). register_name m function register)) buffer.old buffer.new whole.old whole.new result }
    ensures unwritten { result ≢ 0 → (buffer.new ≡ buffer.old) × (whole.new ≡ whole.old) }
    ensures other { result ≢ 3 }
{
    match &opened.facts {
        Some(facts) => put(register_of(&facts.map, function, register), buffer, whole),
        None => NO_NAMES,
    }
}

/// The name of a function.
fn function_of(map: &Map, function: u32) -> Option<&Name>
    ensures { option_copied result ≡ function_name map.now function }
{
    let function = map.functions.get(function as usize)?;
    Some(&function.name)
}

/// The name of a local, by its register.
fn register_of(map: &Map, function: u32, register: u32) -> Option<&Name>
    ensures { option_copied result ≡ register_name map.now function register }
{
    let names = map.registers.get(function as usize)?;
    names.get(register as usize)
}

/// Puts the name, if there is one, into the buffer as far as there is room, and its whole length beside it.
fn put(name: Option<&Name>, buffer: &mut [u8], whole: &mut usize) -> u32
    ensures put { IsNamePut (Some (option_copied name.entry)) buffer.old buffer.new whole.old whole.new result }
    ensures unwritten { result ≢ 0 → (buffer.new ≡ buffer.old) × (whole.new ≡ whole.old) }
    ensures other { result ≢ 3 }
{
    match name {
        Some(name) => {
            let name = name.as_slice();
            put_front(name, buffer);
            *whole = name.len();
            DONE
        }
        None => NO_SUCH_NUMBER,
    }
}
