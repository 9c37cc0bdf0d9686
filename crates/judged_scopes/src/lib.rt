//! A law of the rules of scopes: a program breaks one first exactly where it doesn't keep them all.
#![tactic(auto)]

ghost use Rattle.judged_scopes.specs.Laws.{ScopesAreJudged};

pub use scope_rules::ScopeFault;

/// A typed program has a first fault in scopes exactly where it doesn't keep their rules.
pub fn scopes_are_judged()
    ensures { ScopesAreJudged }
{}
