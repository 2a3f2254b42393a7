//! Values, instructions, locks and images of the `asl` machine, and the verifier that turns an image into a program.
#![tactic(auto)]

mod fault;
mod image;
pub mod image_limits;
mod instr;
mod instr_bytes;
mod items;
mod laws;
mod lock;
mod path;
mod places;
mod program;
mod value;
mod value_bytes;
mod verify;

pub use fault::VerifyFault;
pub use image::{Function, Image};
pub use image_limits::{
    Limits, NEWEST, NEWEST_LIMITS, has_fresh, is_version, limits_of, version_for,
};
pub use instr::Instr;
pub use instr_bytes::{get_instr, instr_and_bytes_are_one, put_instr};
pub use items::Items;
pub use laws::{
    bodies_part_the_code, images_have_one_answer, the_first_version_has_the_threads,
    verified_images_fit,
};
pub use lock::{Base, Expr, Lock};
pub use path::{Op, Path};
pub use program::Program;
pub use value::{Cell, Effect, Value};
pub use value_bytes::{ValueFault, get_value, put_value, value_and_bytes_are_one};
