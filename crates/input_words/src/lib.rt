//! Input files: the words that their lines spell, or the first line that is wrong.
//!
//! A line is an optional minus and 1 to 19 decimal digits whose value has 64 bits, and a newline ends it, which may be
//! missing after the last. `read_words` reads a file in one pass, by the definitions of `specs/Words.antt` and
//! `specs/Lines.antt`. Whoever reads no more of a file than `MAX_BYTES` hears the same of it, as
//! `long_inputs_are_wrong` says.
#![tactic(auto)]

mod laws;
mod lines;
mod words;

pub use laws::long_inputs_are_wrong;
pub use words::{MAX_BYTES, WordsFault, read_words};

#[cfg(test)]
mod tests;
