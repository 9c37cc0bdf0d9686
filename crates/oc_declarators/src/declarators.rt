//! Names with their pointers and lengths.

ghost use Rattle.std.specs.Prelude.{◌≡◌, ◌<◌, ◌≤◌, [], length, IfOk};
ghost use Rattle.oc_grammar.specs.Parsing.{Any};
ghost use Rattle.oc_grammar.specs.Calls.{Reads};
ghost use Rattle.oc_grammar.specs.WrittenTypes.{Stars, Dims, Declr};
ghost use Rattle.oc_declarators.specs.Continuations.{NoStar, NoBracket, dim_rest, closed_type};

use crate::bases::base;
use oc_grammar::ParseError;
use oc_grammar::taking::{eat, expect, name, next};
use oc_lexer::{Sign, Token, TokenKind};
use oc_source::parsed::{BaseKind, BaseName, FieldDef, TypeName};
use oc_values::{Items, Name, NoMemory};
use std::alloc::Global;

/// Reads any number of stars. More than a count holds need more memory than there is; the load refuses
/// such a source before.
pub fn stars(tokens: &[Token]) -> Result<(u32, &[Token]), ParseError<'_>>
    ensures reads { Reads Stars NoStar tokens.now result }
    ensures shorter { IfOk result (λ found. length found.1.now ≤ length tokens.now) }
{
    let mut count: u32 = 0;
    let mut rest = tokens;
    while let Some(after) = eat(rest, Sign::Star) {
        if count == u32::MAX {
            return Err(ParseError::NoMemory);
        }
        count += 1;
        rest = after;
    }
    Ok((count, rest))
}

/// Reads a number and a closing bracket.
pub fn length(tokens: &[Token]) -> Result<(u64, &[Token]), ParseError<'_>>
    ensures reads { Reads dim_rest Any tokens.now result }
    ensures shorter { IfOk result (λ found. length found.1.now < length tokens.now) }
{
    let Some((token, rest)) = next(tokens) else {
        return Err(ParseError::Unexpected(tokens));
    };
    match &token.kind {
        TokenKind::Number(number) => {
            let value = number.value;
            let rest = expect(rest, Sign::RightBracket)?;
            Ok((value, rest))
        }
        TokenKind::Keyword(_)
        | TokenKind::Sign(_)
        | TokenKind::Name(_)
        | TokenKind::Character(_)
        | TokenKind::Text(_) => Err(ParseError::Unexpected(tokens)),
    }
}

/// Reads any number of lengths in brackets.
pub fn dims<'t>(
    alloc: Global,
    tokens: &'t [Token],
) -> Result<(Items<u64>, &'t [Token]), ParseError<'t>>
    ensures reads { Reads Dims NoBracket tokens.now result }
    ensures shorter { IfOk result (λ found. length found.1.now ≤ length tokens.now) }
{
    let mut found = Items::new(alloc);
    let mut rest = tokens;
    while let Some(after) = eat(rest, Sign::LeftBracket) {
        let (value, after) = length(after)?;
        found.push(value)?;
        rest = after;
    }
    Ok((found, rest))
}

/// A copy of what a type begins with, which shares its name.
pub fn copied(base: &BaseName) -> Result<BaseName, NoMemory>
    ensures { IfOk result (λ copy. copy ≡ base.now) }
{
    let kind = match &base.kind {
        BaseKind::Int(kind) => BaseKind::Int(*kind),
        BaseKind::Struct(name) => BaseKind::Struct(name.share()?),
    };
    Ok(BaseName {
        spot: base.spot,
        frozen: base.frozen,
        obliv: base.obliv,
        kind,
    })
}

/// Reads a name of this base, with its stars and lengths.
pub fn declr<'t>(
    alloc: Global,
    tokens: &'t [Token],
    base: &BaseName,
) -> Result<(FieldDef, &'t [Token]), ParseError<'t>>
    ensures reads { Reads (Declr base.now) NoBracket tokens.now result }
    ensures shorter { IfOk result (λ found. length found.1.now < length tokens.now) }
{
    let (stars, rest) = stars(tokens)?;
    let (named, rest) = name(rest)?;
    let (dims, rest) = dims(alloc, rest)?;
    let field = FieldDef {
        spot: named.spot,
        name: named.name,
        base: copied(base)?,
        stars,
        dims,
    };
    Ok((field, rest))
}

/// Reads a type and a closing parenthesis.
pub fn closed_type(tokens: &[Token]) -> Result<(TypeName, &[Token]), ParseError<'_>>
    ensures reads { Reads closed_type Any tokens.now result }
    ensures shorter { IfOk result (λ found. length found.1.now < length tokens.now) }
{
    let (base, rest) = base(tokens)?;
    let (stars, rest) = stars(rest)?;
    let rest = expect(rest, Sign::RightParen)?;
    Ok((TypeName { base, stars }, rest))
}
