//! Where the regions lie in the code.
ghost use Rattle.std.specs.Prelude.{◌≡◌, ◌<◌, ◌≤◌, ◌↔◌, IsTrue, [], length, IfOk, OnOk};
ghost use Rattle.asl_lower.specs.OpenSections.{IsInner};
ghost use Rattle.asl_backward_flow.specs.Spans.{IsSpan, AreSpans, AreClosed, AreSections};

use crate::region::Region;
use asl_lower::Lowering;
use std::alloc::{AllocError, Global};

/// A region, the function in whose body it lies, its first pc, and the pc after its last.
#[derive(Clone, Copy)]
pub struct Span {
    pub region: Region,
    pub function: u16,
    pub first: u16,
    pub end: u16,
}

impl Span {
    /// Whether the pc is one of the region.
    pub fn has(&self, pc: u16) -> bool
        ensures { IsTrue result ↔ ((self.now.first ≤ pc) × (pc < self.now.end)) }
    {
        self.first <= pc && pc < self.end
    }
}

/// Where each region lies: the sections, and the bodies of inner functions.
pub fn spans(alloc: Global, lowering: &Lowering) -> Result<Vec<Span>, AllocError>
    ensures all { IfOk result (λ spans. AreSpans lowering.now spans.items) }
    ensures closed { IfOk result (λ spans. AreClosed lowering.now spans.items) }
{
    let mut spans = Vec::new(alloc);
    add_sections(lowering, &mut spans)?;
    add_bodies(lowering, &mut spans)?;
    Ok(spans)
}

/// The spans of all sections, by their numbers.
fn add_sections(lowering: &Lowering, spans: &mut Vec<Span>) -> Result<(), AllocError>
    requires { spans.old.items ≡ [] }
    ensures { OnOk result (AreSections lowering.now spans.new.items (length lowering.now.sections)) }
{
    for number in 0..lowering.sections().len() {
        spans.push(section_span(lowering, number))?;
    }
    Ok(())
}

/// After them the spans of those function bodies that run inside a section.
fn add_bodies(lowering: &Lowering, spans: &mut Vec<Span>) -> Result<(), AllocError>
    requires { AreSections lowering.now spans.old.items (length lowering.now.sections) }
    ensures all { OnOk result (AreSpans lowering.now spans.new.items) }
    ensures closed { OnOk result (AreClosed lowering.now spans.new.items) }
{
    let inner = lowering.inner();
    for number in 0..lowering.functions().len() {
        if inner[number] {
            spans.push(body_span(lowering, number))?;
        }
    }
    Ok(())
}

/// Where a section lies.
fn section_span(lowering: &Lowering, number: usize) -> Span
    requires { number < length lowering.now.sections }
    ensures region { result.region ≡ Region.Section number }
    ensures span { IsSpan lowering.now result }
{
    let section = lowering.sections()[number];
    Span {
        region: Region::Section(number as u16),
        function: section.function,
        first: section.acquire + 1,
        end: section.release,
    }
}

/// Where the body of an inner function lies.
fn body_span(lowering: &Lowering, number: usize) -> Span
    requires there { number < length lowering.now.functions }
    requires inner { IsInner lowering.now number }
    ensures region { result.region ≡ Region.Body number }
    ensures span { IsSpan lowering.now result }
{
    let len = lowering.functions()[number].len;
    let function = number as u16;
    let first = lowering.start(function);
    Span {
        region: Region::Body(function),
        function,
        first,
        end: first + len as u16,
    }
}
