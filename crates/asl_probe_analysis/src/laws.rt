//! The laws of inferred programs, which are functions that do nothing: that they are there, and can be called.
use asl_atomicity::laws::{runs_have_serial_ones, runs_have_serial_ones_up_to_numbers};
use asl_emitter::{
    absorbing_is_a_strict_order, fitted_lists_stand_over_their_sets, inferred_images_are_one,
    inferred_images_are_sound, lists_depend_on_the_set_alone, programs_have_one_outcome,
};
use asl_soundness::laws::{
    links_keep_locks_protected, locks_of_waiting_frames_are_protected, needed_locks_are_protected,
    never_unprotected,
};
use asl_soundness::structure_laws::{
    accesses_are_in_sections, depths_count_open_sections, sections_are_entered_and_left,
    states_agree_with_classes,
};
use std::alloc::AllocError;

pub fn answer(out: &mut String) -> Result<(), AllocError> {
    states_agree_with_classes();
    depths_count_open_sections();
    sections_are_entered_and_left();
    accesses_are_in_sections();
    links_keep_locks_protected();
    needed_locks_are_protected();
    locks_of_waiting_frames_are_protected();
    never_unprotected();
    runs_have_serial_ones();
    runs_have_serial_ones_up_to_numbers();
    absorbing_is_a_strict_order();
    lists_depend_on_the_set_alone();
    fitted_lists_stand_over_their_sets();
    inferred_images_are_sound();
    inferred_images_are_one();
    programs_have_one_outcome();
    out.push_str("there\n")
}
