//! The laws, which are functions that do nothing: that they are there, and can be called.
use std::alloc::AllocError;

pub fn answer(out: &mut String) -> Result<(), AllocError> {
    of_code();
    of_texts();
    of_files();
    out.push_str("there\n")
}

fn of_code() {
    asl_code::instr_and_bytes_are_one();
    asl_code::value_and_bytes_are_one();
    asl_code::bodies_part_the_code();
    asl_code::images_have_one_answer();
    asl_code::the_first_version_has_the_threads();
    asl_code::verified_images_fit();
}

fn of_texts() {
    asl_assembler::laws::texts_spell_one_image();
    asl_assembler::laws::texts_have_one_outcome();
    asl_assembler::laws::canonical_texts_are_spelled();
}

fn of_files() {
    asl_loader::laws::image_and_bytes_are_one();
    asl_loader::laws::load_and_store_undo_each_other();
    asl_loader::laws::bytes_have_one_outcome();
}
