//! Words of the scripts and answers of all probes: lines, texts, values, locks, nodes.
#![tactic(auto)]

mod lines;
mod locks;
mod nodes;
mod texts;
mod values;

pub use lines::{put_bad, put_bool, put_line, put_number, put_same, put_word};
pub use locks::{lock, put_locks};
pub use nodes::{mode, mode_name, node};
pub use texts::{numbers, put_escaped, unescaped};
pub use values::{cell, effect, effect_name, instr, put_value, value};
