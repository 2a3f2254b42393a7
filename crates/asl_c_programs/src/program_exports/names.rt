//! What reads the names of a program's source.
ghost use Rattle.std.specs.Prelude.{◌≡◌, ◌≢◌, ◌↔◌, true, false, slice_get};
ghost use Rattle.asl_map.specs.declared.map.Map.{Map};
ghost use Rattle.asl_map.specs.Names.{function_name, register_name};
ghost use Rattle.asl_c_programs.specs.Status.{IsNamePut, named_by};

use crate::names;
use crate::program_handle::Handle;
use crate::status::BAD_HANDLE;
use std::alloc::Global;

/// The name of a function.
///
/// Status 0: written. 3: the handle has no program. 24: there is no such function. 25: there is no source. Of 3, 25 and 24 the first that
/// applies.
#[unsafe(no_mangle)]
pub extern "C" fn asl_program_function_name_nonnull(
    alloc: Global,
    handle: &mut Handle,
    function: u32,
    name: &mut [u8],
    whole: &mut usize,
) -> u32
    ensures live { handle.new.live ≡ handle.old.live }
    ensures same { handle.old.live ≡ true → handle.new.slot.program ≡ handle.old.slot.program }
    ensures no_program { result ≡ 3 ↔ handle.old.live ≡ false }
    ensures put { handle.old.live ≡ true → IsNamePut (named_by handle.old.slot.program (λ (m : Map). function_name m function)) name.old name.new whole.old whole.new result }
    ensures unwritten { result ≢ 0 → (name.new ≡ name.old) × (whole.new ≡ whole.old) }
{
    match handle.take(alloc) {
        Some(opened) => {
            let status = names::put_function(&opened, function, name, whole);
            *handle = Handle::of(opened);
            status
        }
        None => BAD_HANDLE,
    }
}

/// The name of a global.
///
/// Status 0: written. 3: the handle has no program. 24: there is no such global. 25: there is no source. Of 3, 25 and 24 the first that
/// applies.
#[unsafe(no_mangle)]
pub extern "C" fn asl_program_global_name_nonnull(
    alloc: Global,
    handle: &mut Handle,
    global: u32,
    name: &mut [u8],
    whole: &mut usize,
) -> u32
    ensures live { handle.new.live ≡ handle.old.live }
    ensures same { handle.old.live ≡ true → handle.new.slot.program ≡ handle.old.slot.program }
    ensures no_program { result ≡ 3 ↔ handle.old.live ≡ false }
    ensures put { handle.old.live ≡ true → IsNamePut (named_by handle.old.slot.program (λ (m : Map). slice_get m.globals.items global)) name.old name.new whole.old whole.new result }
    ensures unwritten { result ≢ 0 → (name.new ≡ name.old) × (whole.new ≡ whole.old) }
{
    match handle.take(alloc) {
        Some(opened) => {
            let status = names::put_global(&opened, global, name, whole);
            *handle = Handle::of(opened);
            status
        }
        None => BAD_HANDLE,
    }
}

/// The name of a local of a function, by its register.
///
/// Status 0: written. 3: the handle has no program. 24: there is no such function or register. 25: there is no source. Of 3, 25 and 24 the first that
/// applies.
#[unsafe(no_mangle)]
pub extern "C" fn asl_program_register_name_nonnull(
    alloc: Global,
    handle: &mut Handle,
    function: u32,
    register: u32,
    name: &mut [u8],
    whole: &mut usize,
) -> u32
    ensures live { handle.new.live ≡ handle.old.live }
    ensures same { handle.old.live ≡ true → handle.new.slot.program ≡ handle.old.slot.program }
    ensures no_program { result ≡ 3 ↔ handle.old.live ≡ false }
    ensures put { handle.old.live ≡ true → IsNamePut (named_by handle.old.slot.program (λ (m : Map). register_name m function register)) name.old name.new whole.old whole.new result }
    ensures unwritten { result ≢ 0 → (name.new ≡ name.old) × (whole.new ≡ whole.old) }
{
    match handle.take(alloc) {
        Some(opened) => {
            let status = names::put_register(&opened, function, register, name, whole);
            *handle = Handle::of(opened);
            status
        }
        None => BAD_HANDLE,
    }
}
