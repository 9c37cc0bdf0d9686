//! Glances at a tree: what a public expression gives where it only reads variables and computes, a few nodes deep.
//!
//! A run in the clear looks so at each expression before it walks it. A glance changes nothing and never fails: where
//! it would have to do more, as at a call, an assignment, a hidden value or a trap, it tells nothing, and the walk decides.
//! `writes` makes an assignment or an update of a public integer whose parts glances tell.
#![tactic(auto)]

pub mod glances;
mod numbers;
pub mod writes;

pub use glances::{glance, glance_place};
pub use writes::{assign_at_once, update_at_once};
