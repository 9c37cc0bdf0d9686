//! Reading written types, and names with their pointers and lengths.
//!
//! `bases` reads what a type begins with: its marks, and `bool`, an integer type, or `struct` and a name.
//! `integers` reads the words of an integer type. `declarators` reads stars, lengths in brackets, and a name
//! between them. Each call answers what it read and the tokens after it, and promises that this is its
//! production of the grammar and that no other reading of the tokens is, or says at which token they can't go on
//! (`Reads` of `oc_grammar`). `specs/Continuations.antt` has the productions without their first tokens.
#![tactic(auto)]

pub mod bases;
pub mod declarators;
pub mod integers;
