//! A law of scopes: slots are numbered in the order of the text, so that the last one before a part of an `obliv if`
//! stands for all variables that are outside of it.
#![tactic(auto)]

ghost use Rattle.numbered_scopes.specs.Laws.{SlotsAreNumbered};

pub use scope_rules::ScopeFault;

/// In a well typed program the first fault in scopes is the same where one number stands for the variables outside.
pub fn slots_are_numbered()
    ensures { SlotsAreNumbered }
{}
