//! What a source is to the program: accepted with its typed tree, or refused by the first rule that it breaks.
//!
//! `specs/Accepted.antt` says both, along the source's tokens, its tree, its typed tree and the scopes of that; all commands
//! cite it. `specs/Answers.antt` says what reading a source answers: it is accepted, or has just one refusal. `accept` reads one.
#![tactic(auto)]

mod accepting;
pub mod rules;
pub mod source;

pub use accepting::{accept, sources_are_judged};
pub use rules::SourceRule;
pub use source::{AcceptedSource, SourceFault};
