//! Reading declarations, statements and blocks.
//!
//! `leads` says what a token begins, `simple` reads statements without statements as parts and the headers of
//! the others, `declarations` reads declarations of variables, and `statements` the rest. Each reading call answers what
//! it read and the tokens after it, and promises that this is its production of the grammar and that no other
//! reading of the tokens is, or says at which token they can't go on (`Reads` of `oc_grammar`). So an `else`
//! belongs to the nearest `if` that may have one: `Closed` says that no `else` comes after a statement that
//! could take it. `specs/Continuations.antt` has the productions without their first tokens.
#![tactic(auto)]

pub mod declarations;
pub mod leads;
pub mod simple;
pub mod statements;
