//! A source that is accepted, and why one isn't.

ghost use Rattle.std.specs.Prelude.{◌≡◌, true, is_none};
ghost use Rattle.oc_typing.specs.Tree.{tree_of};
ghost use Rattle.scope_rules.specs.FirstFault.{first_fault};

use crate::rules::SourceRule;
use oc_source::{Program, Spot};
use oc_typing::Typed;

/// A source that is accepted: its parsed tree, and its typed tree, which keeps the rules of hidden scopes and frozen places.
#[derive(Drop)]
pub struct AcceptedSource {
    /// The parsed tree of the source.
    pub program: Program,
    /// The typed tree of that.
    pub typed: Typed,
    ghost in_scope: { is_none (first_fault (tree_of typed)) ≡ true },
}

/// Why a source isn't accepted.
#[derive(Clone, Copy, Debug, PartialEq, Eq)]
pub enum SourceFault {
    /// The first rule that the source breaks, and where.
    Refused { rule: SourceRule, spot: Spot },
    /// Memory ran out, which says nothing of the source.
    NoMemory,
}
