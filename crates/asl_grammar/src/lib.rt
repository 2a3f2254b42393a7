//! Tokens and grammar of the source language: reading bytes as tokens, and telling whether tokens are a program.
#![tactic(auto)]

pub mod control;
pub mod control_step;
mod in_place;
mod kinds;
pub mod laws;
pub mod lexeme;
pub mod lexer;
pub mod recognizer;
pub mod token;
pub mod value_step;
