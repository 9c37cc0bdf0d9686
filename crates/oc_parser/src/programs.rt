//! Whole programs.

ghost use Rattle.std.specs.Prelude.{◌≡◌, ◌∷◌, ◌++◌, [], IfOk, MatchResult};
ghost use Rattle.oc_grammar.specs.Parsing.{Found};
ghost use Rattle.oc_grammar.specs.Calls.{Fails};
ghost use Rattle.oc_parser.specs.Programs.{Whole, AtEnd, with_part};
ghost use Rattle.oc_parser.specs.Places.{spot_from};

use crate::parts::{Part, next_part};
use oc_grammar::ParseError;
use oc_grammar::taking::next;
use oc_lexer::Token;
use oc_source::Spot;
use oc_source::parsed::Program;
use oc_values::{Items, NoMemory};
use std::alloc::Global;

/// The spot of the first token, or that of the end.
pub fn spot_from(tokens: &[Token], end: Spot) -> Spot
    ensures { result ≡ spot_from end tokens.now }
{
    match next(tokens) {
        Some((token, _rest)) => token.spot,
        None => end,
    }
}

// A program with one more part.
fn with_part(program: Program, part: Part) -> Result<Program, NoMemory>
    ensures { IfOk result (λ more. more ≡ with_part program part) }
{
    let Program {
        mut structs,
        mut functions,
        end,
    } = program;
    match part {
        Part::Struct(found) => structs.push(found)?,
        Part::Function(found) => functions.push(found)?,
    }
    Ok(Program {
        structs,
        functions,
        end,
    })
}

/// Reads a program with this end, up to its last token.
pub fn program<'t>(alloc: Global, tokens: &'t [Token], end: Spot) -> Result<Program, ParseError<'t>>
    ensures { MatchResult result (λ found. Found (Whole end) AtEnd tokens.now found []) (λ error. Fails (Whole end) AtEnd tokens.now error) }
{
    let mut found = Program {
        structs: Items::new(alloc),
        functions: Items::new(alloc),
        end,
    };
    let mut rest = tokens;
    while !rest.is_empty() {
        let (more, after) = next_part(alloc, rest)?;
        found = with_part(found, more)?;
        rest = after;
    }
    Ok(found)
}
