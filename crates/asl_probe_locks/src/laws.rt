//! The laws, which are functions that do nothing: that they are there, and can be called.
use std::alloc::AllocError;

pub fn answer(out: &mut String) -> Result<(), AllocError> {
    of_modes();
    of_forests();
    out.push_str("there\n")
}

fn of_modes() {
    asl_mode_lanes::modes_are_ordered();
    asl_mode_lanes::joins_are_a_lattice();
    asl_mode_lanes::compatibility_goes_down();
    asl_mode_lanes::readers_and_writers_clash();
    asl_mode_lanes::enough_modes();
    asl_mode_lanes::codes_are_modes();
}

fn of_forests() {
    asl_lock_forest::grants_are_held();
    asl_lock_forest::releases_are_held();
    asl_lock_forest::grants_stay_lawful();
    asl_lock_forest::releases_stay_lawful();
    asl_lock_forest::readers_and_writers_exclude_each_other();
    asl_lock_forest::those_in_the_way_hold();
    asl_lock_forest::requests_are_tested();
    asl_lock_forest::threads_change_places();
}
