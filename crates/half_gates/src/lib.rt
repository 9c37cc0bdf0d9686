//! Labels of wires, and AND gates of half gates.
//!
//! A wire of a garbled circuit has two labels, one for each bit, which differ by delta. `garble_and` makes
//! the two rows of an AND gate and the label of its result for the bit 0; `eval_and` makes the label of the
//! result from one label of each input and the rows. The hash is `hash_label`. After S. Zahur, M. Rosulek and
//! D. Evans, *Two Halves Make a Whole* (Eurocrypt 2015).
#![tactic(auto)]

mod gate;
mod hash;

pub use gate::{eval_and, garble_and, half_gates_make_and};
pub use hash::{Label, hash_label};

#[cfg(test)]
mod tests;
