//! The tree of a source, or the first place at which its tokens are refused.
//!
//! The grammar is `Derives` of the crate `oc_grammar`: which tokens spell a program. `specs/Load.antt` says how
//! deep a source may nest: each token has a load, and none may be over 1,000. `specs/Refusals.antt` says where a
//! source is refused. `parse` looks for a token whose load is too large first (`load`), so no tree is built that
//! is deeper than the load allows (`laws`, over `specs/Depth.antt` of `oc_source`); then it reads one part of the
//! program after another (`programs`): a struct definition or a function (`parts`). What begins with `struct` and a
//! name may be either, so these two tokens are passed before the choice; `specs/Continuations.antt` has the
//! productions without their first tokens. The program `deep_trees` has tables of sources with their trees.
#![tactic(auto)]

mod entries;
mod faults;
mod functions;
pub mod laws;
mod load;
mod params;
mod parsing;
mod parts;
mod programs;
mod structs;

pub use faults::{ParseFault, ParseRule};
pub use laws::light_trees_are_shallow;
pub use parsing::parse;
