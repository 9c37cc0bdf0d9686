//! The rules that refuse a source, by what they speak of.

use oc_lexer::LexRule;
use oc_parser::ParseRule;
use scope_rules::ScopeRule;
use type_rules::TypeRule;

/// A rule that refuses a source. A source is asked for its tokens first, then for its tree, its types and its scopes.
#[derive(Clone, Copy, Debug, PartialEq, Eq)]
pub enum SourceRule {
    /// L1 to L6: the source has no tokens.
    Lex(LexRule),
    /// G2: its tokens nest too deep; G1: they don't, and have no tree.
    Parse(ParseRule),
    /// T1 to T12: its tree has no types.
    Types(TypeRule),
    /// F1 to F5: its typed tree breaks a rule of hidden scopes and frozen places.
    Scopes(ScopeRule),
}
