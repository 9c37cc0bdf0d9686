//! The direct run of a typed program in the clear.
//!
//! `run_clear` runs a program on the words of both parties, and answers what it shows and how it ends: exactly the clear
//! meaning of the program. `nodes` walks expressions, places, statements and calls in one cycle of functions, each of which
//! promises the walk of its part of the tree (`specs/Runs.antt`); `writes` and `updates` are what a node does with the values of
//! its parts, `variables` makes variables, `around` is what surrounds a node, and `types` tests types.
#![tactic(auto)]

pub mod around;
pub mod nodes;
pub mod run;
pub mod types;
pub mod updates;
pub mod variables;
pub mod writes;

pub use run::{ClearRun, run_clear};
