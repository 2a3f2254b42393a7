//! The lock forest for C, in a handle that C keeps, and the forest with a queue in another. `include/asl.h` declares the functions.
#![tactic(auto)]

mod c_request;
mod desk;
mod fits;
mod forest_exports;
mod forest_handle;
mod forest_slot;
mod queue_exports;
mod queue_fits;
mod queue_handle;
mod queue_reader_exports;
mod queue_slot;
mod reader_exports;
mod request_fits;

pub use forest_handle::Handle;
pub use queue_handle::QueueHandle;
