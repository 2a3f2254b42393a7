//! Locks that regions need, as points of a search: the place of the region in the flow, a pc, and the lock's number.

use crate::explain_analysis::ExplainAnalysis;
use asl_code::Lock;

/// A lock that the region at a place of the flow needs at a pc, by its number there.
#[derive(Clone, Copy, PartialEq, Eq, PartialOrd, Ord, Hash, Drop)]
pub(crate) struct Point {
    pub(crate) place: u16,
    pub(crate) pc: u16,
    pub(crate) number: u16,
}

/// A place of the flow as a number of a point.
pub(crate) fn narrow(place: Option<usize>) -> Option<u16> {
    let place = place?;
    if place < 65536 {
        Some(place as u16)
    } else {
        None
    }
}

/// The point of a lock that the region at a place needs at a pc.
pub(crate) fn needed_point(
    analysis: &ExplainAnalysis,
    place: u16,
    pc: u16,
    lock: &Lock,
) -> Option<Point> {
    let number = analysis.flow.number(usize::from(place), lock)?;
    point_of(analysis, place, pc, number)
}

/// The point of the lock of a number, if the region at a place needs it at a pc.
pub(crate) fn point_of(
    analysis: &ExplainAnalysis,
    place: u16,
    pc: u16,
    number: usize,
) -> Option<Point> {
    if number < 65536
        && analysis
            .flow
            .needs(usize::from(place), u32::from(pc), number)
    {
        Some(Point {
            place,
            pc,
            number: number as u16,
        })
    } else {
        None
    }
}

/// The lock of a point.
pub(crate) fn lock_of(analysis: &ExplainAnalysis, point: Point) -> Option<&Lock> {
    analysis
        .flow
        .locks(usize::from(point.place))
        .get(usize::from(point.number))
}
