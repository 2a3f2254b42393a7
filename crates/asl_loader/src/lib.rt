//! Images as bytes: `store` writes a program's bytes, and `load` reads them.
#![tactic(auto)]

mod code_fields;
mod fault;
mod image_bytes;
mod image_fields;
mod image_writing;
pub mod laws;
mod lock_fields;
pub mod shared_fields;

pub use fault::{LoadFault, Stop};
pub use image_bytes::load;
pub use image_writing::store;
