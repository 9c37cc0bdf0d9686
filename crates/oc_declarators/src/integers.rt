//! The words of an integer type.

ghost use Rattle.std.specs.Prelude.{◌≡◌, ℕ, ◌<◌, ◌≤◌, List, length, MatchOption, IfOk};
ghost use Rattle.oc_values.specs.declared.integers.IntKind.{IntKind};
ghost use Rattle.oc_lexer.specs.declared.token.Token.{Token};
ghost use Rattle.oc_grammar.specs.Parsing.{Found};
ghost use Rattle.oc_grammar.specs.Calls.{Reads};
ghost use Rattle.oc_grammar.specs.WrittenTypes.{Optional, Ints};
ghost use Rattle.oc_declarators.specs.Continuations.{BeforeNoWord, NotWord, tail, int_after};

use oc_grammar::ParseError;
use oc_grammar::tables::{Opening, Width, int_kind, opening_of};
use oc_grammar::taking::{eat_word, next};
use oc_lexer::{Keyword, Token};
use oc_values::IntKind;

/// Passes a keyword that may be left out.
pub fn optional(tokens: &[Token], word: Keyword) -> &[Token]
    ensures { Found (Optional word) (NotWord word) tokens.now tt result.now }
{
    match eat_word(tokens, word) {
        Some(rest) => rest,
        None => tokens,
    }
}

// Passes the words after the one that the type is named after.
fn tail(tokens: &[Token], unsigned: bool, width: Width) -> (IntKind, &[Token])
    ensures { Found (tail unsigned width) BeforeNoWord tokens.now result.0 result.1.now }
{
    let kind = int_kind(unsigned, width);
    match width {
        Width::Char => (kind, tokens),
        Width::Short => (kind, optional(tokens, Keyword::Int)),
        Width::Int => (kind, tokens),
        Width::Long => {
            let rest = optional(tokens, Keyword::Long);
            (kind, optional(rest, Keyword::Int))
        }
    }
}

// Passes the words after `signed` or `unsigned`.
fn after_sign(tokens: &[Token], unsigned: bool) -> (IntKind, &[Token])
    ensures { Found (int_after (Opening.Signs unsigned)) BeforeNoWord tokens.now result.0 result.1.now }
{
    match next(tokens) {
        Some((token, rest)) => match opening_of(&token.kind) {
            Opening::Named(width) => tail(rest, unsigned, width),
            _ => (int_kind(unsigned, Width::Int), tokens),
        },
        None => (int_kind(unsigned, Width::Int), tokens),
    }
}

/// Passes the words after the first one of an integer type; `None` where none begins with it.
pub fn int_after(tokens: &[Token], first: Opening) -> Option<(IntKind, &[Token])>
    ensures { MatchOption result ((kind : IntKind) (ys : List Token) → int_after first kind ys → ⊥) (λ found. Found (int_after first) BeforeNoWord tokens.now found.0 found.1.now) }
{
    match first {
        Opening::Bool => Some((IntKind::Bool, tokens)),
        Opening::Signs(unsigned) => Some(after_sign(tokens, unsigned)),
        Opening::Named(width) => Some(tail(tokens, false, width)),
        Opening::Frozen | Opening::Obliv | Opening::Struct | Opening::Other => None,
    }
}

/// Reads an integer type without marks.
pub fn ints(tokens: &[Token]) -> Result<(IntKind, &[Token]), ParseError<'_>>
    ensures reads { Reads Ints BeforeNoWord tokens.now result }
    ensures shorter { IfOk result (λ found. length found.1.now < length tokens.now) }
{
    let Some((token, rest)) = next(tokens) else {
        return Err(ParseError::Unexpected(tokens));
    };
    match int_after(rest, opening_of(&token.kind)) {
        Some((kind, rest)) => Ok((kind, rest)),
        None => Err(ParseError::Unexpected(tokens)),
    }
}
