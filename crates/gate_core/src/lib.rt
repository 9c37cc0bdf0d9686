//! Gates: what every backend of a word circuit gives, and two plain backends.
//!
//! A backend makes gates one after another and gives each a wire. What carries a bit is the backend's own
//! affair: a bit, a label, a share, or nothing at all. `Gates` says what its calls give, which bit a wire
//! stands for, and what an AND costs. `PlainBits` has bits as wires, `Blank` only counts: both are
//! `Counting`, over a `Carrier` of bits and one of nothing.
#![tactic(auto)]

mod carriers;
mod counting;
mod gates;
mod laws;

pub use counting::{Blank, Carrier, Counting, PlainBits};
pub use gates::{Gates, MOST_ANDS};
pub use laws::{
    gates_join, operands_are_put_in, operands_are_read, readings_join, room_goes_on, room_suffices,
    wires_stand_for_truth,
};
