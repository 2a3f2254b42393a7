//! The laws, which are functions that do nothing: that they are there, and can be called.
use std::alloc::AllocError;

pub fn answer(out: &mut String) -> Result<(), AllocError> {
    asl_machine::requests_are_least();
    asl_machine::steps_have_one_line();
    asl_machine::reached_states_are_well_formed();
    asl_machine::reached_holdings_are_lawful();
    asl_machine::held_nodes_are_there();
    asl_machine::fresh_objects_stay_apart();
    asl_machine::no_world_is_blocked();
    asl_machine::runs_go_on();
    asl_machine::runs_reach();
    asl_machine::runs_are_the_tables();
    asl_machine::steps_leave_others_alone();
    asl_machine::stores_change_one_cell();
    asl_machine::new_objects_change_no_cell();
    asl_machine::grants_cover_their_locks();
    out.push_str("there\n")
}
