//! How words end, with a status and with what is said: over streams, and over memory.

pub(crate) mod ending;
pub(crate) mod over_memory;
pub(crate) mod tool;
