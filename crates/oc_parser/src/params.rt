//! Parameters of a function.

ghost use Rattle.std.specs.Prelude.{◌≡◌, ◌<◌, ◌≤◌, length, IfOk};
ghost use Rattle.oc_grammar.specs.Parsing.{Any};
ghost use Rattle.oc_grammar.specs.Calls.{Reads};
ghost use Rattle.oc_grammar.specs.WrittenTypes.{Commas};
ghost use Rattle.oc_grammar.specs.Headings.{Brackets, Parameter};
ghost use Rattle.oc_declarators.specs.Continuations.{NoBracket};
ghost use Rattle.oc_parser.specs.Continuations.{DeclaratorsEnd, closed_parameters};

use oc_declarators::bases::base;
use oc_declarators::declarators::{length, stars};
use oc_grammar::ParseError;
use oc_grammar::taking::{eat, eat_word, expect, name};
use oc_lexer::{Keyword, Sign, Token};
use oc_source::parsed::{Param, ParamArray};
use oc_values::Items;
use std::alloc::Global;

// Reads the brackets after the name of a parameter, if it has some.
fn brackets(tokens: &[Token]) -> Result<(ParamArray, &[Token]), ParseError<'_>>
    ensures reads { Reads Brackets NoBracket tokens.now result }
    ensures shorter { IfOk result (λ found. length found.1.now ≤ length tokens.now) }
{
    let Some(rest) = eat(tokens, Sign::LeftBracket) else {
        return Ok((ParamArray::Plain, tokens));
    };
    match eat(rest, Sign::RightBracket) {
        Some(rest) => Ok((ParamArray::Open, rest)),
        None => {
            let (size, rest) = length(rest)?;
            Ok((ParamArray::Sized(size), rest))
        }
    }
}

// Reads a parameter.
fn param(tokens: &[Token]) -> Result<(Param, &[Token]), ParseError<'_>>
    ensures reads { Reads Parameter NoBracket tokens.now result }
    ensures shorter { IfOk result (λ found. length found.1.now < length tokens.now) }
{
    let (base, rest) = base(tokens)?;
    let (stars, rest) = stars(rest)?;
    let (named, rest) = name(rest)?;
    let (array, rest) = brackets(rest)?;
    let param = Param {
        spot: named.spot,
        name: named.name,
        base,
        stars,
        array,
    };
    Ok((param, rest))
}

// Reads one parameter or more.
fn listed<'t>(
    alloc: Global,
    tokens: &'t [Token],
) -> Result<(Items<Param>, &'t [Token]), ParseError<'t>>
    ensures reads { Reads (Commas Parameter) DeclaratorsEnd tokens.now result }
    ensures shorter { IfOk result (λ found. length found.1.now < length tokens.now) }
{
    let (first, mut rest) = param(tokens)?;
    let mut found = Items::new(alloc);
    found.push(first)?;
    while let Some(after) = eat(rest, Sign::Comma) {
        let (more, after) = param(after)?;
        found.push(more)?;
        rest = after;
    }
    Ok((found, rest))
}

/// Reads the parameters of a function and the closing parenthesis.
pub fn closed_parameters<'t>(
    alloc: Global,
    tokens: &'t [Token],
) -> Result<(Items<Param>, &'t [Token]), ParseError<'t>>
    ensures reads { Reads closed_parameters Any tokens.now result }
    ensures shorter { IfOk result (λ found. length found.1.now < length tokens.now) }
{
    if let Some(rest) = eat(tokens, Sign::RightParen) {
        return Ok((Items::new(alloc), rest));
    }
    if let Some(rest) = eat_word(tokens, Keyword::Void) {
        let rest = expect(rest, Sign::RightParen)?;
        return Ok((Items::new(alloc), rest));
    }
    let (found, rest) = listed(alloc, tokens)?;
    let rest = expect(rest, Sign::RightParen)?;
    Ok((found, rest))
}
