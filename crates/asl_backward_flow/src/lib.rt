//! Which locks a region needs at each of its points: locks flow backwards over the code, from the accesses that need them.
#![tactic(auto)]

mod access_needs;
mod call_needs;
mod entered;
mod entry_flow;
mod fault;
mod flow;
mod flow_analysis;
mod following;
mod found;
mod fresh;
mod graph;
mod group;
mod laws;
mod masks;
mod needs_step;
mod region;
mod region_needs;
mod rounds;
mod scratch;
mod solve;
mod span;
mod waiting;

pub use entry_flow::needed_at_entries;
pub use fault::FlowFault;
pub use flow::Flow;
pub use laws::{
    needed_locks_depend_on_written_classes_alone, nothing_is_needed_outside_a_region,
    the_needed_locks_are_the_least_closed_family, what_needed_locks_name_is_there,
};
pub use region::Region;
pub use solve::needed;
