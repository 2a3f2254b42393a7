//! The request of a list, over what C shows of its registers and of its heap.
#![tactic(auto)]

mod list_request;
mod placing;
mod shown;
mod tracing;

pub use list_request::request;
pub use shown::{ShownCell, ShownObject, ShownValue};
