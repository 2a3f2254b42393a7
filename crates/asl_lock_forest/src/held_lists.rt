//! The list of what each thread holds, as long as it is short.
ghost use Rattle.std.specs.Prelude.{◌≡◌, ◌<◌, IfOk, OnOk, OnErr, map, length, replicate, [], slice_set, slice_index_or};
ghost use Rattle.asl_lock_forest.specs.Holding.{held, asked};

use crate::Node;
use asl_mode_lanes::Mode;
use std::alloc::{AllocError, Global};

/// The mode that the list has at the node.
pub(crate) fn listed(own: &[(Node, Mode)], node: Node) -> Mode
    ensures { result ≡ asked own.now node }
{
    for ask in own {
        if ask.0.is_same(node) {
            return ask.1;
        }
    }
    Mode::NL
}

/// A list for each thread, with nothing in it.
pub(crate) fn no_lists(alloc: Global, threads: u32) -> Result<Vec<Vec<(Node, Mode)>>, AllocError>
    ensures { IfOk result (λ held. map (λ v. v.items) held.items ≡ replicate threads []) }
{
    let mut held = Vec::with_capacity(alloc, threads as usize)?;
    for made in 0..threads {
        held.push(Vec::new(alloc))?;
    }
    Ok(held)
}

/// The same lists.
pub(crate) fn same_lists(
    alloc: Global,
    held: &[Vec<(Node, Mode)>],
) -> Result<Vec<Vec<(Node, Mode)>>, AllocError>
    ensures { IfOk result (λ copy. map (λ v. v.items) copy.items ≡ map (λ v. v.items) held.now) }
{
    let mut copy = Vec::with_capacity(alloc, held.len())?;
    for own in held {
        copy.push(own.as_slice().to_vec(alloc)?)?;
    }
    Ok(copy)
}

/// Writes what the thread asks into its list, which has nothing in it.
pub(crate) fn note(
    held: &mut Vec<Vec<(Node, Mode)>>,
    thread: u32,
    request: &[(Node, Mode)],
) -> Result<(), AllocError>
    requires there { thread < length held.old.items }
    requires empty { slice_index_or (map (λ v. v.items) held.old.items) thread [] ≡ [] }
    ensures ok { OnOk result (map (λ v. v.items) held.new.items ≡ slice_set (map (λ v. v.items) held.old.items) thread request.now) }
    ensures err { OnErr result (map (λ v. v.items) held.new.items ≡ map (λ v. v.items) held.old.items) }
{
    held[thread as usize].extend_from_slice(request)
}

/// Empties the thread's list, and keeps its capacity.
pub(crate) fn forget(held: &mut Vec<Vec<(Node, Mode)>>, thread: u32)
    requires { thread < length held.old.items }
    ensures { map (λ v. v.items) held.new.items ≡ slice_set (map (λ v. v.items) held.old.items) thread [] }
{
    held[thread as usize].clear();
}
