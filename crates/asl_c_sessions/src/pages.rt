//! What is told of a session as text.
ghost use Rattle.std.specs.Prelude.{◌≡◌, ◌+◌, ◌<◌, ◌^◌, length, IfOk, string_bytes};
ghost use Rattle.asl_c_sessions.specs.Pages.{page_text, event_lines};

use asl_journal::Event;
use asl_machine::Machine;
use asl_show::{push_asks, push_line, push_objects, push_stack, push_view};
use std::alloc::{AllocError, Global};

/// What may be told of a machine, by the words of `debug`.
#[derive(Clone, Copy)]
pub enum Page {
    View,
    Asks,
    Stack,
    Objects,
}

/// The page of the machine.
pub fn page_of(alloc: Global, machine: &Machine<'_>, page: Page) -> Result<String, AllocError>
    ensures { IfOk result (λ text. string_bytes text ≡ page_text page machine.now) }
{
    let mut text = String::new(alloc);
    match page {
        Page::View => push_view(&mut text, machine)?,
        Page::Asks => push_asks(alloc, &mut text, machine)?,
        Page::Stack => push_stack(&mut text, machine)?,
        Page::Objects => push_objects(&mut text, machine)?,
    }
    Ok(text)
}

/// The lines of events, numbered from the given number on.
pub fn lines_from(alloc: Global, first: usize, events: &[Event]) -> Result<String, AllocError>
    requires { first + length events.now < 2 ^ 32 }
    ensures { IfOk result (λ text. string_bytes text ≡ event_lines first events.now) }
{
    let mut text = String::new(alloc);
    for (index, event) in events.iter().enumerate() {
        push_line(&mut text, first + index, event.thread, event.reply)?;
    }
    Ok(text)
}
