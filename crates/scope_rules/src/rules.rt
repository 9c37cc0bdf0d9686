//! The rules of scopes, and what breaks one.

use oc_source::Spot;

/// A rule of hidden scopes and frozen places.
#[derive(Clone, Copy, Debug, PartialEq, Eq)]
pub enum ScopeRule {
    /// Public data is written to a frozen place in a hidden scope.
    F1,
    /// What is frozen comes to a place or a pointer that isn't.
    F2,
    /// A function without the mark `obliv`, or a call of the language's own, in a hidden scope.
    F3,
    /// A `return`, `break` or `continue` out of a part of an `obliv if` or out of a `~obliv` block.
    F4,
    /// Public data is written to a frozen place in a scope that isn't hidden.
    F5,
}

/// A rule that is broken, and where.
#[derive(Clone, Copy, Debug, PartialEq, Eq)]
pub struct ScopeFault {
    pub rule: ScopeRule,
    pub spot: Spot,
}
