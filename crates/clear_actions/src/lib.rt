//! The actions of a run in the clear: on blocks, values, words and slots, each with the walk's own action as its contract.
//!
//! `machine` has what a run holds and why it stops. `cells`, `copying` and `places` work on blocks and pointers, `operations`
//! on values, `exchange` on words and what is shown; `variables` has steps, slots and calls, `entered` the slots of one call,
//! and `builtins` the language's own calls. What the code does is said by `Gives`, `Does` and `Moves` of `specs/Acting.antt`.
#![tactic(auto)]

pub mod builtins;
pub mod cells;
pub mod copying;
pub mod entered;
pub mod exchange;
pub mod kinds;
pub mod machine;
pub mod operations;
pub mod places;
pub mod variables;

pub use builtins::perform;
pub use copying::copy_struct;
pub use machine::{Fault, Halt, Machine, Store};
