//! Lock lists, and the image that is inferred for a program.
#![tactic(auto)]

mod absorb;
mod fault;
mod fitted;
mod inferred;
mod inferred_image;
mod laws;
mod reduced;

pub use absorb::{covers, suffices_for};
pub use fault::InferFault;
pub use fitted::{MAX_LOCKS, fit};
pub use inferred::infer;
pub use inferred_image::{classed, lists};
pub use laws::{
    absorbing_is_a_strict_order, fitted_lists_stand_over_their_sets, inferred_images_are_one,
    inferred_images_are_sound, lists_depend_on_the_set_alone, programs_have_one_outcome,
};
pub use reduced::reduce;
