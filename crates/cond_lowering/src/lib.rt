//! From typed trees to code: `lower` makes the code of a program, which runs as the program's tree is walked.
//!
//! - `writing` adds lines to a list; `sizes` counts the cells of types.
//! - `steps` has what needs no recursion, `calls` the calls of the language's own, `expressions` expressions and places.
//! - `ways` has the ways out of a statement, `declares` declared variables, `statements` statements.
//! - `functions` has functions, `lowering` whole programs.
#![tactic(auto)]

mod calls;
mod declares;
mod expressions;
mod functions;
mod lowering;
mod sizes;
mod statements;
mod steps;
mod ways;
mod writing;

pub use lowering::{Code, lower};
