//! Groups of sections whose points are few enough for the sets of all of them at once.
ghost use Rattle.std.specs.Prelude.{◌≡◌, ◌<◌, ◌≤◌, ◌-◌, length, IfOk};
ghost use Rattle.asl_backward_flow.specs.Spans.{AreSpans, IsGroup};

use crate::span::Span;
use asl_lower::Lowering;
use std::alloc::{AllocError, Global};

/// How many points the sections of a group have at most together: their sets take some 150 MB at the most. A section has fewer than
/// 65,535; small programs have one group.
const GROUP_POINTS: usize = 262_144;

/// The number of the section at which the group that begins with the section `first` ends, among so many sections.
pub fn group_end(spans: &[Span], first: usize, count: usize) -> usize
    requires order { first ≤ count }
    requires there { count ≤ length spans.now }
    ensures from { first ≤ result }
    ensures within { result ≤ count }
    ensures some { first < count → first < result }
{
    if first >= count {
        return first;
    }
    let mut end = first + 1;
    let mut points = points_of(&spans[first]);
    while end < count {
        points = points.saturating_add(points_of(&spans[end]));
        if points > GROUP_POINTS {
            return end;
        }
        end += 1;
    }
    end
}

/// How many points a region has.
fn points_of(span: &Span) -> usize {
    usize::from(span.end.saturating_sub(span.first))
}

/// Of the spans of all regions those of the sections from `first` up to `end`, and of all bodies.
pub fn group_spans(
    alloc: Global,
    lowering: &Lowering,
    spans: &[Span],
    first: usize,
    end: usize,
) -> Result<Vec<Span>, AllocError>
    requires spans { AreSpans lowering.now spans.now }
    requires order { first ≤ end }
    requires within { end ≤ length lowering.now.sections }
    ensures { IfOk result (λ group. IsGroup lowering.now spans.now first (end - first) group.items) }
{
    let count = lowering.sections().len();
    let mut group = Vec::with_capacity(alloc, spans.len())?;
    group.extend_from_slice(&spans[first..end])?;
    group.extend_from_slice(&spans[count..])?;
    Ok(group)
}
