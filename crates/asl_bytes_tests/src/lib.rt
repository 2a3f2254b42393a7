//! Damage of one byte at each place: images, run files, sources and assembly texts with it are refused, at their place, or
//! spell what they are read as. And a program's text in C.
//!
//! The counter's image and run file are cut at each place (211 files), and each byte is changed to each other value (53,805 files). Of the
//! changed ones each refusal comes as often as a reader found that was written apart from the crates and is not kept here, with places of
//! the same sum. A source and an assembly text have each byte set to each of the 256 (91 and 142 bytes). A refused source names the
//! changed byte (`NotAscii`, `Token`), or a place that is not before the piece between blanks which has it (`Grammar`); `NoMain` comes
//! where `main` was changed, `Unknown` anywhere, and no other. Of assembly the line is that of the change or the one after it, and
//! a broken rule is one that the changed line can break. The text in C is what an emitter in Python printed, likewise written apart.
#![tactic(auto)]

#[cfg(test)]
mod c_texts;
#[cfg(test)]
mod images;
#[cfg(test)]
mod rows;
#[cfg(test)]
mod run_files;
#[cfg(test)]
mod texts;
