//! The gates of word events, over every backend.
//!
//! An event's operands are integers that both parties know, or words that earlier events made. `fire` makes the gates of any
//! event, and `event_ands` says how many ANDs they are.
#![tactic(auto)]

mod events;
mod firing;
mod operands;
mod operations;

pub use events::{Gated, Operand};
pub use firing::{event_ands, fire};
