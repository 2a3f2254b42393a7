//! Multiple-granularity locks: a tree of nodes, and who holds which mode at which node.
#![tactic(auto)]

mod forest;
mod held_lists;
mod holding_laws;
mod leaf_hash;
mod leaves;
mod node;
mod rows;

pub use forest::Forest;
pub use holding_laws::{
    grants_are_held, grants_stay_lawful, readers_and_writers_exclude_each_other, releases_are_held,
    releases_stay_lawful, requests_are_tested, those_in_the_way_hold, threads_change_places,
};
pub use node::Node;
