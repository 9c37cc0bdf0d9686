//! Words of wires, and the integer operations on them, for every backend.
//!
//! A `Word` has 1, 8, 16, 32 or 64 wires, the lowest first. Each operation makes its gates over any
//! `Gates`, in an order that is fixed by its definition (`specs/Fragments.antt`), and its contract says
//! four things: the backend's state and the wires are those of its own calls played in that order; where
//! the operands' wires stand for integers, the answer's wires stand for the integer of the operation; the
//! ANDs are exactly as many as `ands` tells; and wires that stood for a bit before stand for it after.
//! No call takes memory.
#![tactic(auto)]

mod carries;
mod choices;
mod comparisons;
mod derived;
mod divisions;
mod known;
mod laws;
mod operation;
mod products;
mod shifts;
mod sums;
mod wires;
mod word;

pub use choices::{differ, either, flip, meet, select};
pub use comparisons::{equal, less, to_bool};
pub use derived::{greater, greater_equal, is_zero, less_equal, unequal};
pub use divisions::{quotient, remainder};
pub use known::known_word;
pub use laws::{fragments_compute, fragments_have_ands, fragments_have_widths};
pub use operation::{WordOp, ands};
pub use products::multiply;
pub use shifts::{refit, resize, shift_known, shift_word};
pub use sums::{add, negate, subtract};
pub use word::Word;
