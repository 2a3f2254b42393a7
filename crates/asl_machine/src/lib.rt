//! The machine: threads that step through a verified program over one heap, under the locks of their sections.
#![tactic(auto)]

mod activity;
mod asked_laws;
mod fate;
mod fault;
mod frame;
mod frame_only;
mod free_locks;
mod fresh_laws;
mod gathering;
mod heap;
mod laws;
mod machine;
mod memory;
mod packed_value;
mod perform;
mod places;
mod program_code;
mod reply;
mod request;
mod run_laws;
mod sections;
mod step_laws;
mod thread;
mod thread_control;
mod values;

pub use asked_laws::requests_are_granted;
pub use fault::{Fault, MachineFault};
pub use fresh_laws::{fresh_objects_are_made_in_the_section, fresh_objects_stay_apart};
pub use laws::{
    held_nodes_are_there, no_world_is_blocked, reached_holdings_are_lawful,
    reached_states_are_well_formed, requests_are_least, steps_have_one_line,
};
pub use machine::{FramePlace, Machine, Paused};
pub use reply::{Reply, Status};
pub use run_laws::{runs_are_the_tables, runs_go_on, runs_reach};
pub use step_laws::{
    grants_cover_their_locks, new_objects_change_no_cell, steps_leave_others_alone,
    stores_change_one_cell,
};
pub use thread_control::MAX_FRAMES;
