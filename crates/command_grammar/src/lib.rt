//! Command lines: a command's name, its operands, and options in any order, each with its value in the next
//! word. Which commands there are is a table. `scan` finds which of them the words are, or the first wrong word.
#![tactic(auto)]

mod form;
mod role;
mod scanner;
mod table;
mod values;

pub use form::{WordForm, fits, is_signed, number_to};
pub use role::{Role, role_of};
pub use scanner::{find_break, give_options_once, have_one_reading, scan};
pub use table::{Command, CommandOption};
pub use values::{
    key_or_zeros, list_or_none, number_or, text_or_empty, value, word_at, words_from,
};
