//! The laws, which are functions that do nothing: that they are there, and can be called.
use asl_syntax::parse;
use std::alloc::{AllocError, Global};

pub fn answer(alloc: Global, out: &mut String) -> Result<(), AllocError> {
    of_tokens();
    of_trees();
    of_lowerings();
    if let Ok(ast) = parse(alloc, b"fn main(t){return t;}") {
        asl_syntax::laws::a_printed_ast_is_read_back(&ast);
    }
    out.push_str("there\n")
}

fn of_tokens() {
    asl_grammar::laws::a_text_has_real_tokens();
    asl_grammar::laws::a_token_is_read_whole();
    asl_grammar::laws::a_front_is_the_longest_token();
    asl_grammar::laws::a_text_has_one_grammar_fault();
    asl_grammar::laws::a_text_has_one_reading();
}

fn of_trees() {
    asl_syntax::laws::a_text_has_one_tree();
    asl_syntax::laws::a_printed_tree_is_spelled();
    asl_syntax::laws::a_printed_tree_is_lexed();
    asl_syntax::laws::a_tree_mentions_its_names();
    asl_syntax::laws::names_are_declared_once();
    asl_syntax::laws::names_are_known();
    asl_syntax::laws::faults_of_names_are_the_first();
    asl_syntax::laws::a_printed_tree_is_read_back();
    asl_syntax::laws::a_text_has_one_outcome();
}

fn of_lowerings() {
    asl_lower::one_lowering();
    asl_lower::bodies_part_the_code();
    asl_lower::sections_nest();
    asl_lower::sections_are_listed();
    asl_lower::returns_stand_last();
    asl_lower::control_stays_inside();
    asl_lower::numbers_follow_the_code();
    asl_lower::calls_pass_on();
    asl_lower::bare_accesses_are_in_sections();
    asl_lower::operands_are_there();
    asl_lower::limits_are_kept();
    asl_lower::regions_are_left_at_their_ends();
    asl_lower::open_sections_are_distinct();
    asl_lower::the_outermost_section_stays();
}
