//! What the threads ask for as text.
ghost use Rattle.std.specs.Prelude.{◌≡◌, ◌<◌, ◌≤◌, ◌++◌, length, OnOk, string_bytes};
ghost use Rattle.asl_show.specs.Asks.{asked_text, asks_of, asks_text};

use crate::nodes::{About, push_nodes};
use asl_lock_forest::Node;
use asl_machine::Machine;
use asl_mode_lanes::Mode;
use std::alloc::{AllocError, Global};

/// Adds what each thread asks for that stands at an `acq` in no section, and who is in its way.
pub fn push_asks(alloc: Global, text: &mut String, machine: &Machine<'_>) -> Result<(), AllocError>
    ensures { OnOk result (string_bytes text.new ≡ string_bytes text.old ++ asks_text machine.now) }
{
    for t in 0..machine.threads() {
        push_asks_of(alloc, text, machine, t)?;
    }
    Ok(())
}

/// Adds what the thread asks for, if it does.
fn push_asks_of(
    alloc: Global,
    text: &mut String,
    machine: &Machine<'_>,
    t: u32,
) -> Result<(), AllocError>
    requires { t < length machine.now.state.threads }
    ensures { OnOk result (string_bytes text.new ≡ string_bytes text.old ++ asks_of machine.now t) }
{
    match machine.request(alloc, t)? {
        Some(request) => push_request(
            text,
            machine.program().classes(),
            machine,
            t,
            request.as_slice(),
        ),
        None => Ok(()),
    }
}

/// Adds the request of the thread, and who is in its way.
fn push_request(
    text: &mut String,
    classes: u32,
    machine: &Machine<'_>,
    t: u32,
    request: &[(Node, Mode)],
) -> Result<(), AllocError>
    requires thread { t < length machine.now.state.threads }
    requires few { classes ≤ 65536 }
    ensures { OnOk result (string_bytes text.new ≡ string_bytes text.old ++ asked_text classes machine.now.state t request.now) }
{
    if request.is_empty() {
        return write!(text, "asks {t}\n");
    }
    push_nodes(text, classes, machine, t, &About::Asked(request))?;
    push_nodes(text, classes, machine, t, &About::Clashes(request))
}
