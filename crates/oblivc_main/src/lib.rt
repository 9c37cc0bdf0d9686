//! What the program `oblivcc` does, over any files, streams and lines to the other party.
//!
//! `oblivcc` is the top call: it reads the words of a command line, does what they ask for, and answers
//! the status to exit with. `serve_process` reads those words from the process first.
//!
//! - `check` says whether a source is accepted. It refuses a source without tokens (L1 to L6), tokens without a tree (G1 and
//!   G2), a tree without types (T1 to T12), and a typed tree that breaks a rule of hidden scopes or frozen places (F1 to F5),
//!   in this order, and says the rule and the place.
//! - `clear` runs a program in the clear on the words of both parties, and prints what it shows. It refuses what `check`
//!   refuses.
//! - `deal` makes both halves of dealt transfers from a key, and writes each to a file.
//!
//! `Answered` in `specs/Statuses.antt` says what a call answers: a status that has its cause, and its number and line.
//! `Ends` in `specs/Endings.antt` has the five ways in which a command ends, over the files that it reads and makes and what it
//! means of them, which is a row a command in `specs/Commands.antt`. There is no other status, nothing but want of memory stops
//! a command whose files have their form while nothing fails, and no file changes but those that it makes
//! (`IsAnswered`). What a source has to be stands in the crate `accepted_sources`, what an input file in `input_words`, what the
//! words of a command line in `oblivcc_commands`. The program `answered_calls` has tables of calls with their answers.
#![tactic(auto)]

mod arguments;
mod checking;
mod clearing;
mod dealing;
mod making;
mod names;
mod printing;
mod program;
mod reading;
mod refusal;
mod saying;
mod status;

pub use arguments::serve_process;
pub use program::oblivcc;
