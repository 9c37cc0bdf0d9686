//! What a written type begins with.

ghost use Rattle.std.specs.Prelude.{◌≡◌, ◌<◌, List, length, MatchOption, IfOk};
ghost use Rattle.oc_source.specs.declared.parsed.BaseName.{BaseName};
ghost use Rattle.oc_lexer.specs.declared.token.Token.{Token};
ghost use Rattle.oc_grammar.specs.Parsing.{Found, By};
ghost use Rattle.oc_grammar.specs.Calls.{Reads};
ghost use Rattle.oc_grammar.specs.Tables.{opening};
ghost use Rattle.oc_grammar.specs.WrittenTypes.{Base};
ghost use Rattle.oc_declarators.specs.Continuations.{BeforeNoWord, marked, named_struct, after_obliv, after_frozen};

use crate::integers::{int_after, ints};
use oc_grammar::ParseError;
use oc_grammar::tables::{Opening, opening_of};
use oc_grammar::taking::{name, next};
use oc_lexer::Token;
use oc_source::Spot;
use oc_source::parsed::{BaseKind, BaseName};

// Passes the words after the first one of an integer type with marks; `None` where none begins with it.
fn marked(
    tokens: &[Token],
    first: Opening,
    spot: Spot,
    frozen: bool,
    obliv: bool,
) -> Option<(BaseName, &[Token])>
    ensures { MatchOption result ((base : BaseName) (ys : List Token) → marked first spot frozen obliv base ys → ⊥) (λ found. Found (marked first spot frozen obliv) BeforeNoWord tokens.now found.0 found.1.now) }
{
    let (kind, rest) = int_after(tokens, first)?;
    let base = BaseName {
        spot,
        frozen,
        obliv,
        kind: BaseKind::Int(kind),
    };
    Some((base, rest))
}

// Reads the name after `struct`.
fn named_struct(
    tokens: &[Token],
    spot: Spot,
    frozen: bool,
) -> Result<(BaseName, &[Token]), ParseError<'_>>
    ensures reads { Reads (named_struct spot frozen) BeforeNoWord tokens.now result }
    ensures shorter { IfOk result (λ found. length found.1.now < length tokens.now) }
{
    let (named, rest) = name(tokens)?;
    let base = BaseName {
        spot,
        frozen,
        obliv: false,
        kind: BaseKind::Struct(named.name),
    };
    Ok((base, rest))
}

/// Reads what comes after the `obliv` at the spot.
pub fn after_obliv(tokens: &[Token], spot: Spot) -> Result<(BaseName, &[Token]), ParseError<'_>>
    ensures reads { Reads (By (λ t. after_obliv spot (opening t.kind))) BeforeNoWord tokens.now result }
    ensures shorter { IfOk result (λ found. length found.1.now < length tokens.now) }
{
    let Some((token, rest)) = next(tokens) else {
        return Err(ParseError::Unexpected(tokens));
    };
    match opening_of(&token.kind) {
        Opening::Frozen => {
            let (kind, rest) = ints(rest)?;
            let base = BaseName {
                spot,
                frozen: true,
                obliv: true,
                kind: BaseKind::Int(kind),
            };
            Ok((base, rest))
        }
        first => match marked(rest, first, spot, false, true) {
            Some((base, rest)) => Ok((base, rest)),
            None => Err(ParseError::Unexpected(tokens)),
        },
    }
}

// Reads what comes after the `frozen` at the spot.
fn after_frozen(tokens: &[Token], spot: Spot) -> Result<(BaseName, &[Token]), ParseError<'_>>
    ensures reads { Reads (By (λ t. after_frozen spot (opening t.kind))) BeforeNoWord tokens.now result }
    ensures shorter { IfOk result (λ found. length found.1.now < length tokens.now) }
{
    let Some((token, rest)) = next(tokens) else {
        return Err(ParseError::Unexpected(tokens));
    };
    match opening_of(&token.kind) {
        Opening::Obliv => {
            let (kind, rest) = ints(rest)?;
            let base = BaseName {
                spot,
                frozen: true,
                obliv: true,
                kind: BaseKind::Int(kind),
            };
            Ok((base, rest))
        }
        Opening::Struct => named_struct(rest, spot, true),
        first => match marked(rest, first, spot, true, false) {
            Some((base, rest)) => Ok((base, rest)),
            None => Err(ParseError::Unexpected(tokens)),
        },
    }
}

/// Reads what a written type begins with.
pub fn base(tokens: &[Token]) -> Result<(BaseName, &[Token]), ParseError<'_>>
    ensures reads { Reads Base BeforeNoWord tokens.now result }
    ensures shorter { IfOk result (λ found. length found.1.now < length tokens.now) }
{
    let Some((token, rest)) = next(tokens) else {
        return Err(ParseError::Unexpected(tokens));
    };
    match opening_of(&token.kind) {
        Opening::Frozen => after_frozen(rest, token.spot),
        Opening::Obliv => after_obliv(rest, token.spot),
        Opening::Struct => named_struct(rest, token.spot, false),
        first => match marked(rest, first, token.spot, false, false) {
            Some((base, rest)) => Ok((base, rest)),
            None => Err(ParseError::Unexpected(tokens)),
        },
    }
}
