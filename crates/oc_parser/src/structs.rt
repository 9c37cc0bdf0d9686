//! Fields of a struct definition.

ghost use Rattle.std.specs.Prelude.{◌≡◌, ◌<◌, length, IfOk};
ghost use Rattle.oc_grammar.specs.Parsing.{Any};
ghost use Rattle.oc_grammar.specs.Calls.{Reads};
ghost use Rattle.oc_grammar.specs.WrittenTypes.{Commas, Declr};
ghost use Rattle.oc_grammar.specs.Headings.{Fields};
ghost use Rattle.oc_parser.specs.Continuations.{DeclaratorsEnd, closed_fields};

use oc_declarators::bases::base;
use oc_declarators::declarators::declr;
use oc_grammar::ParseError;
use oc_grammar::taking::{eat, expect};
use oc_lexer::{Sign, Token};
use oc_source::parsed::{BaseName, FieldDef};
use oc_values::Items;
use std::alloc::Global;

// Reads one declared name of the base or more.
fn listed<'t>(
    alloc: Global,
    tokens: &'t [Token],
    base: &BaseName,
) -> Result<(Items<FieldDef>, &'t [Token]), ParseError<'t>>
    ensures reads { Reads (Commas (Declr base.now)) DeclaratorsEnd tokens.now result }
    ensures shorter { IfOk result (λ found. length found.1.now < length tokens.now) }
{
    let (first, mut rest) = declr(alloc, tokens, base)?;
    let mut found = Items::new(alloc);
    found.push(first)?;
    while let Some(after) = eat(rest, Sign::Comma) {
        let (more, after) = declr(alloc, after, base)?;
        found.push(more)?;
        rest = after;
    }
    Ok((found, rest))
}

// Reads the fields of one base.
fn fields<'t>(
    alloc: Global,
    tokens: &'t [Token],
) -> Result<(Items<FieldDef>, &'t [Token]), ParseError<'t>>
    ensures reads { Reads Fields Any tokens.now result }
    ensures shorter { IfOk result (λ found. length found.1.now < length tokens.now) }
{
    let (base, rest) = base(tokens)?;
    let (found, rest) = listed(alloc, rest, &base)?;
    let rest = expect(rest, Sign::Semicolon)?;
    Ok((found, rest))
}

/// Reads the fields of a struct definition and its closing brace.
pub fn closed_fields<'t>(
    alloc: Global,
    tokens: &'t [Token],
) -> Result<(Items<FieldDef>, &'t [Token]), ParseError<'t>>
    ensures reads { Reads closed_fields Any tokens.now result }
    ensures shorter { IfOk result (λ found. length found.1.now < length tokens.now) }
{
    let (mut found, mut rest) = fields(alloc, tokens)?;
    loop {
        match eat(rest, Sign::RightBrace) {
            Some(after) => return Ok((found, after)),
            None => {
                let (more, after) = fields(alloc, rest)?;
                found.append(more)?;
                rest = after;
            }
        }
    }
}
