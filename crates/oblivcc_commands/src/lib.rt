//! The commands of the program: their table, and what a command line asks for.
#![tactic(auto)]

mod asked;
mod reader;
mod table;

pub use asked::{Asked, CheckWords, ClearWords, DealWords, have_one_meaning, read_command};
pub use reader::{find_break, read_words};
pub use table::CommandKind;

#[cfg(test)]
mod tests;
