//! Declarations of variables.

ghost use Rattle.std.specs.Prelude.{◌≡◌, ◌<◌, length, IfOk};
ghost use Rattle.oc_grammar.specs.Parsing.{Any};
ghost use Rattle.oc_grammar.specs.Calls.{Reads};
ghost use Rattle.oc_grammar.specs.WrittenTypes.{Commas};
ghost use Rattle.oc_grammar.specs.Statements.{Initialised};
ghost use Rattle.oc_expressions.specs.Continuations.{ListEnds};
ghost use Rattle.oc_statements.specs.Continuations.{NameEnds, names_after, declare_after};

use crate::simple::boxed;
use oc_declarators::declarators::declr;
use oc_expressions::expressions::expr;
use oc_grammar::ParseError;
use oc_grammar::taking::{eat, expect};
use oc_lexer::{Sign, Token};
use oc_source::parsed::{BaseName, Declared, Stmt, StmtNode};
use oc_values::{Boxed, Items};
use std::alloc::Global;

// Reads a declared name with its initialiser, if it has one.
fn initialised<'t>(
    alloc: Global,
    tokens: &'t [Token],
    base: &BaseName,
) -> Result<(Declared, &'t [Token]), ParseError<'t>>
    ensures reads { Reads (Initialised base.now) NameEnds tokens.now result }
    ensures shorter { IfOk result (λ found. length found.1.now < length tokens.now) }
{
    let (field, rest) = declr(alloc, tokens, base)?;
    match eat(rest, Sign::Assign) {
        None => Ok((Declared { field, init: None }, rest)),
        Some(rest) => {
            let (value, rest) = expr(alloc, rest)?;
            let init = Some(value);
            Ok((Declared { field, init }, rest))
        }
    }
}

// Reads one declared name or more.
fn listed<'t>(
    alloc: Global,
    tokens: &'t [Token],
    base: &BaseName,
) -> Result<(Items<Declared>, &'t [Token]), ParseError<'t>>
    ensures reads { Reads (Commas (Initialised base.now)) ListEnds tokens.now result }
    ensures shorter { IfOk result (λ found. length found.1.now < length tokens.now) }
{
    let (first, mut rest) = initialised(alloc, tokens, base)?;
    let mut found = Items::new(alloc);
    found.push(first)?;
    while let Some(after) = eat(rest, Sign::Comma) {
        let (more, after) = initialised(alloc, after, base)?;
        found.push(more)?;
        rest = after;
    }
    Ok((found, rest))
}

/// Reads the names of a declaration, after what its type begins with.
pub fn names<'t>(
    alloc: Global,
    tokens: &'t [Token],
    base: &BaseName,
) -> Result<(Items<Declared>, &'t [Token]), ParseError<'t>>
    ensures reads { Reads (names_after base.now) Any tokens.now result }
    ensures shorter { IfOk result (λ found. length found.1.now < length tokens.now) }
{
    let (found, rest) = listed(alloc, tokens, base)?;
    let rest = expect(rest, Sign::Semicolon)?;
    Ok((found, rest))
}

/// Reads the rest of a declaration as a statement, after what its type begins with.
pub fn declare<'t>(
    alloc: Global,
    tokens: &'t [Token],
    base: &BaseName,
) -> Result<(Boxed<Stmt>, &'t [Token]), ParseError<'t>>
    ensures reads { Reads (declare_after base.now) Any tokens.now result }
    ensures shorter { IfOk result (λ found. length found.1.now < length tokens.now) }
{
    let (found, rest) = names(alloc, tokens, base)?;
    Ok((boxed(alloc, base.spot, StmtNode::Declare(found))?, rest))
}
