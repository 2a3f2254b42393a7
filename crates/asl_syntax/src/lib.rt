//! Source text to tree and back.
#![tactic(auto)]

mod ast;
mod build;
mod call_arity;
mod declared_words;
mod fault;
mod ident;
pub mod laws;
mod mentions;
mod name;
mod names;
mod numbered_names;
mod open_block;
mod parser;
mod printed_statements;
mod printed_words;
mod printer;
mod right_side;
mod scan;
mod source_limits;
pub mod tree;
mod words;

pub use ast::Ast;
pub use fault::SyntaxFault;
pub use ident::Ident;
pub use name::Name;
pub use numbered_names::NumberedNames;
pub use parser::parse;
pub use printer::print;
