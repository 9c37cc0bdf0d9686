//! Functions, after their result.

ghost use Rattle.std.specs.Prelude.{◌≡◌, ◌<◌, ◌≤◌, length, IfOk};
ghost use Rattle.oc_grammar.specs.Parsing.{Found, Any};
ghost use Rattle.oc_grammar.specs.Calls.{Reads};
ghost use Rattle.oc_grammar.specs.Headings.{Mark, Body, AfterResult};
ghost use Rattle.oc_parser.specs.Continuations.{NoObliv, signature};

use crate::params::closed_parameters;
use oc_grammar::ParseError;
use oc_grammar::taking::{Named, eat, eat_word, expect, name};
use oc_lexer::{Keyword, Sign, Token};
use oc_source::parsed::{Function, Param, Stmt, TypeName};
use oc_statements::statements::block;
use oc_values::Items;
use std::alloc::Global;

/// What stands between the result of a function and its body.
#[derive(Drop)]
pub struct Heading {
    pub named: Named,
    pub params: Items<Param>,
    pub obliv: bool,
}

// Passes the mark `obliv` if it comes next.
fn mark(tokens: &[Token]) -> (bool, &[Token])
    ensures { Found Mark NoObliv tokens.now result.0 result.1.now }
{
    match eat_word(tokens, Keyword::Obliv) {
        Some(rest) => (true, rest),
        None => (false, tokens),
    }
}

// Reads what stands between the result of a function and its body.
fn signature<'t>(
    alloc: Global,
    tokens: &'t [Token],
) -> Result<(Heading, &'t [Token]), ParseError<'t>>
    ensures reads { Reads signature NoObliv tokens.now result }
    ensures shorter { IfOk result (λ found. length found.1.now < length tokens.now) }
{
    let (named, rest) = name(tokens)?;
    let rest = expect(rest, Sign::LeftParen)?;
    let (params, rest) = closed_parameters(alloc, rest)?;
    let (obliv, rest) = mark(rest);
    let heading = Heading {
        named,
        params,
        obliv,
    };
    Ok((heading, rest))
}

// Reads the body of a function, or the semicolon of a prototype.
fn body<'t>(
    alloc: Global,
    tokens: &'t [Token],
) -> Result<(Option<Items<Stmt>>, &'t [Token]), ParseError<'t>>
    ensures reads { Reads Body Any tokens.now result }
    ensures shorter { IfOk result (λ found. length found.1.now < length tokens.now) }
{
    match eat(tokens, Sign::Semicolon) {
        Some(rest) => Ok((None, rest)),
        None => {
            let (steps, rest) = block(alloc, tokens)?;
            Ok((Some(steps), rest))
        }
    }
}

/// Reads what follows the result of a function.
pub fn function<'t>(
    alloc: Global,
    tokens: &'t [Token],
    returned: Option<TypeName>,
) -> Result<(Function, &'t [Token]), ParseError<'t>>
    ensures reads { Reads (AfterResult returned) Any tokens.now result }
    ensures shorter { IfOk result (λ found. length found.1.now < length tokens.now) }
{
    let (heading, rest) = signature(alloc, tokens)?;
    let (body, rest) = body(alloc, rest)?;
    let function = Function {
        spot: heading.named.spot,
        name: heading.named.name,
        result: returned,
        params: heading.params,
        obliv: heading.obliv,
        body,
    };
    Ok((function, rest))
}
