//! Reading expressions.
//!
//! `expressions` has one reading call for each level of the grammar: assignments, choices, the operators
//! between two operands, what stands before an operand, what stands after one, and what stands alone. `signs`
//! says which operator comes next, and `leaves` makes nodes. Each reading call answers what it read and the tokens after
//! it, and promises that this is its production of the grammar and that no other reading of the tokens is, or
//! says at which token they can't go on (`Reads` of `oc_grammar`).
//!
//! Operators of one level are taken in a loop, so only nesting is on the call stack. `specs/Continuations.antt` has the
//! productions without their first tokens, and says what a loop has left to read.
#![tactic(auto)]

pub mod expressions;
mod leaves;
pub mod signs;
