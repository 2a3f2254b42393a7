//! Why members share a class, told to a reader of the source: chains of statements, each with what it says of the classes.
#![tactic(auto)]

mod chain;
mod class_text;
mod facts;
mod grounds;
mod kinds;
mod laws;
mod lines;
mod making;
mod parting;
mod phrases;
mod reasoned;
mod statements;
mod told;
mod words;

pub use class_text::classes_told;
pub use facts::{Facts, Known, known_source};
pub use laws::chains_rest_on_less;
pub use lines::{push_padded, push_place};
pub use reasoned::{Reasoned, reasoned_source};
pub use statements::line_of;
pub use told::{ToldClass, ToldGround, ToldGrounds, ToldPair, ToldStep};
pub use words::register_words;
