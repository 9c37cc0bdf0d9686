//! Lowered code: the instructions, the code of a typed program, and what code does over any domain of hidden values.
//!
//! Definitions alone: `specs/Lower.antt` says which code each form of a typed tree has, and `specs/Machine.antt` what each
//! instruction does and how a run of code goes on, by the actions of the walk of a typed tree.
#![tactic(auto)]

pub mod code;

pub use code::{CodeFunction, Instr, Line};
