//! Struct definitions and functions, as they stand in a source.

ghost use Rattle.std.specs.Prelude.{◌≡◌, ◌<◌, length, IfOk};
ghost use Rattle.oc_grammar.specs.Parsing.{Any};
ghost use Rattle.oc_grammar.specs.Calls.{Reads};
ghost use Rattle.oc_parser.specs.Continuations.{APart, function_after, typed_after, struct_after, named_after};

use crate::functions::function;
use crate::structs::closed_fields;
use oc_declarators::bases::base;
use oc_declarators::declarators::stars;
use oc_grammar::ParseError;
use oc_grammar::taking::{Named, eat, eat_word, expect, name, next_spot};
use oc_lexer::{Keyword, Sign, Token};
use oc_source::Spot;
use oc_source::parsed::{BaseKind, BaseName, Function, StructDef, TypeName};
use std::alloc::Global;

/// A part of a program.
#[derive(Drop)]
pub enum Part {
    Struct(StructDef),
    Function(Function),
}

// Reads the rest of a function, after its result.
fn function_part<'t>(
    alloc: Global,
    tokens: &'t [Token],
    returned: Option<TypeName>,
) -> Result<(Part, &'t [Token]), ParseError<'t>>
    ensures reads { Reads (function_after returned) Any tokens.now result }
    ensures shorter { IfOk result (λ found. length found.1.now < length tokens.now) }
{
    let (function, rest) = function(alloc, tokens, returned)?;
    Ok((Part::Function(function), rest))
}

// Reads the rest of a function, after what the type of its result begins with.
fn typed_part<'t>(
    alloc: Global,
    tokens: &'t [Token],
    base: BaseName,
) -> Result<(Part, &'t [Token]), ParseError<'t>>
    ensures reads { Reads (typed_after base) Any tokens.now result }
    ensures shorter { IfOk result (λ found. length found.1.now < length tokens.now) }
{
    let (stars, rest) = stars(tokens)?;
    function_part(alloc, rest, Some(TypeName { base, stars }))
}

// Reads the rest of a struct definition, after `struct`, the name and `{`.
fn struct_part<'t>(
    alloc: Global,
    tokens: &'t [Token],
    named: Named,
) -> Result<(Part, &'t [Token]), ParseError<'t>>
    ensures reads { Reads (struct_after named) Any tokens.now result }
    ensures shorter { IfOk result (λ found. length found.1.now < length tokens.now) }
{
    let (fields, rest) = closed_fields(alloc, tokens)?;
    let rest = expect(rest, Sign::Semicolon)?;
    let found = StructDef {
        spot: named.spot,
        name: named.name,
        fields,
    };
    Ok((Part::Struct(found), rest))
}

// Reads what comes after the `struct` at the spot.
fn named_part<'t>(
    alloc: Global,
    tokens: &'t [Token],
    spot: Spot,
) -> Result<(Part, &'t [Token]), ParseError<'t>>
    ensures reads { Reads (named_after spot) Any tokens.now result }
    ensures shorter { IfOk result (λ found. length found.1.now < length tokens.now) }
{
    let (named, rest) = name(tokens)?;
    match eat(rest, Sign::LeftBrace) {
        Some(rest) => struct_part(alloc, rest, named),
        None => {
            let base = BaseName {
                spot,
                frozen: false,
                obliv: false,
                kind: BaseKind::Struct(named.name),
            };
            typed_part(alloc, rest, base)
        }
    }
}

/// Reads a struct definition or a function.
pub fn next_part<'t>(
    alloc: Global,
    tokens: &'t [Token],
) -> Result<(Part, &'t [Token]), ParseError<'t>>
    ensures reads { Reads APart Any tokens.now result }
    ensures shorter { IfOk result (λ found. length found.1.now < length tokens.now) }
{
    if let Some(rest) = eat_word(tokens, Keyword::Struct) {
        return named_part(alloc, rest, next_spot(tokens));
    }
    if let Some(rest) = eat_word(tokens, Keyword::Void) {
        return function_part(alloc, rest, None);
    }
    let (base, rest) = base(tokens)?;
    typed_part(alloc, rest, base)
}
