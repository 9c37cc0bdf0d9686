//! Statements, one reading call a rule of the grammar.

ghost use Rattle.std.specs.Prelude.{◌≡◌, ◌<◌, ◌≤◌, [], length, IfOk};
ghost use Rattle.oc_grammar.specs.Parsing.{Any};
ghost use Rattle.oc_grammar.specs.Calls.{Reads};
ghost use Rattle.oc_grammar.specs.Statements.{Statement, Closed, Block};
ghost use Rattle.oc_source.specs.Parsed.{stmt};
ghost use Rattle.oc_statements.specs.Continuations.{if_node, if_after, while_after, for_after, always_after, Run, Step};

use crate::declarations::declare;
use crate::leads::{Lead, lead_at};
use crate::simple::{boxed, condition, for_header, name_in_parens, simple};
use oc_declarators::bases::{after_obliv, base};
use oc_expressions::signs::begins_type;
use oc_grammar::ParseError;
use oc_grammar::taking::{eat, eat_word, expect, expect_word, next, next_spot};
use oc_lexer::{Keyword, Sign, Token};
use oc_source::Spot;
use oc_source::parsed::{Expr, Stmt, StmtNode};
use oc_values::{Boxed, Items};
use std::alloc::{AllocError, Global};

// An `if`, or an `obliv if`.
fn branched(
    alloc: Global,
    spot: Spot,
    obliv: bool,
    cond: Boxed<Expr>,
    yes: Boxed<Stmt>,
    no: Option<Boxed<Stmt>>,
) -> Result<Boxed<Stmt>, AllocError>
    ensures { IfOk result (λ made. made ≡ stmt spot (if_node obliv cond yes no)) }
{
    if obliv {
        boxed(alloc, spot, StmtNode::OblivIf { cond, yes, no })
    } else {
        boxed(alloc, spot, StmtNode::If { cond, yes, no })
    }
}

/// Reads a statement.
#[cycle(stmt)]
pub fn stmt<'t>(
    alloc: Global,
    tokens: &'t [Token],
) -> Result<(Boxed<Stmt>, &'t [Token]), ParseError<'t>>
    ensures reads { Reads Statement Closed tokens.now result }
    ensures closed { IfOk result (λ found. Closed found.0 found.1.now) }
    ensures shorter { IfOk result (λ found. length found.1.now < length tokens.now) }
{
    let Some((token, rest)) = next(tokens) else {
        return Err(ParseError::Unexpected(tokens));
    };
    match lead_at(&token.kind) {
        Lead::Block => {
            let (steps, rest) = steps(alloc, rest)?;
            Ok((boxed(alloc, token.spot, StmtNode::Block(steps))?, rest))
        }
        Lead::If => conditional(alloc, rest, token.spot, false),
        Lead::While => while_loop(alloc, rest, token.spot),
        Lead::For => for_loop(alloc, rest, token.spot),
        Lead::Obliv => {
            let rest = expect_word(rest, Keyword::If)?;
            conditional(alloc, rest, token.spot, true)
        }
        Lead::Tilde => match eat_word(rest, Keyword::Obliv) {
            Some(rest) => always(alloc, rest, token.spot),
            None => simple(alloc, tokens),
        },
        Lead::Simple => simple(alloc, tokens),
    }
}

// Reads what comes after `if`.
#[cycle(stmt)]
fn conditional<'t>(
    alloc: Global,
    tokens: &'t [Token],
    spot: Spot,
    obliv: bool,
) -> Result<(Boxed<Stmt>, &'t [Token]), ParseError<'t>>
    ensures reads { Reads (if_after spot obliv) Closed tokens.now result }
    ensures closed { IfOk result (λ found. Closed found.0 found.1.now) }
    ensures shorter { IfOk result (λ found. length found.1.now < length tokens.now) }
{
    let (cond, rest) = condition(alloc, tokens)?;
    let (yes, rest) = stmt(alloc, rest)?;
    match eat_word(rest, Keyword::Else) {
        None => Ok((branched(alloc, spot, obliv, cond, yes, None)?, rest)),
        Some(rest) => {
            let (no, rest) = stmt(alloc, rest)?;
            Ok((branched(alloc, spot, obliv, cond, yes, Some(no))?, rest))
        }
    }
}

// Reads what comes after `while`.
#[cycle(stmt)]
fn while_loop<'t>(
    alloc: Global,
    tokens: &'t [Token],
    spot: Spot,
) -> Result<(Boxed<Stmt>, &'t [Token]), ParseError<'t>>
    ensures reads { Reads (while_after spot) Closed tokens.now result }
    ensures closed { IfOk result (λ found. Closed found.0 found.1.now) }
    ensures shorter { IfOk result (λ found. length found.1.now < length tokens.now) }
{
    let (cond, rest) = condition(alloc, tokens)?;
    let (body, rest) = stmt(alloc, rest)?;
    Ok((boxed(alloc, spot, StmtNode::While { cond, body })?, rest))
}

// Reads what comes after `for`.
#[cycle(stmt)]
fn for_loop<'t>(
    alloc: Global,
    tokens: &'t [Token],
    spot: Spot,
) -> Result<(Boxed<Stmt>, &'t [Token]), ParseError<'t>>
    ensures reads { Reads (for_after spot) Closed tokens.now result }
    ensures closed { IfOk result (λ found. Closed found.0 found.1.now) }
    ensures shorter { IfOk result (λ found. length found.1.now < length tokens.now) }
{
    let (header, rest) = for_header(alloc, tokens)?;
    let (body, rest) = stmt(alloc, rest)?;
    let node = StmtNode::For {
        init: header.init,
        cond: header.cond,
        advance: header.advance,
        body,
    };
    Ok((boxed(alloc, spot, node)?, rest))
}

// Reads what comes after `~ obliv`.
#[cycle(stmt)]
fn always<'t>(
    alloc: Global,
    tokens: &'t [Token],
    spot: Spot,
) -> Result<(Boxed<Stmt>, &'t [Token]), ParseError<'t>>
    ensures reads { Reads (always_after spot) Any tokens.now result }
    ensures closed { IfOk result (λ found. Closed found.0 found.1.now) }
    ensures shorter { IfOk result (λ found. length found.1.now < length tokens.now) }
{
    let (name, rest) = name_in_parens(alloc, tokens)?;
    let start = next_spot(rest);
    let (steps, rest) = block(alloc, rest)?;
    let body = boxed(alloc, start, StmtNode::Block(steps))?;
    Ok((boxed(alloc, spot, StmtNode::Always { name, body })?, rest))
}

/// Reads a block.
#[cycle(stmt)]
pub fn block<'t>(
    alloc: Global,
    tokens: &'t [Token],
) -> Result<(Items<Stmt>, &'t [Token]), ParseError<'t>>
    ensures reads { Reads Block Any tokens.now result }
    ensures shorter { IfOk result (λ found. length found.1.now < length tokens.now) }
{
    let rest = expect(tokens, Sign::LeftBrace)?;
    let (steps, rest) = steps(alloc, rest)?;
    Ok((steps, rest))
}

// Reads what comes after `{`.
#[cycle(stmt)]
fn steps<'t>(
    alloc: Global,
    tokens: &'t [Token],
) -> Result<(Items<Stmt>, &'t [Token]), ParseError<'t>>
    ensures reads { Reads (Run []) Any tokens.now result }
    ensures shorter { IfOk result (λ found. length found.1.now < length tokens.now) }
{
    let mut found = Items::new(alloc);
    let mut rest = tokens;
    loop {
        match eat(rest, Sign::RightBrace) {
            Some(after) => return Ok((found, after)),
            None => {
                let (more, after) = step(alloc, rest)?;
                found.push(more.into_inner())?;
                rest = after;
            }
        }
    }
}

// Reads a declaration or a statement.
#[cycle(stmt)]
fn step<'t>(
    alloc: Global,
    tokens: &'t [Token],
) -> Result<(Boxed<Stmt>, &'t [Token]), ParseError<'t>>
    ensures reads { Reads Step Closed tokens.now result }
    ensures closed { IfOk result (λ found. Closed found.0 found.1.now) }
    ensures shorter { IfOk result (λ found. length found.1.now < length tokens.now) }
{
    let spot = next_spot(tokens);
    match eat_word(tokens, Keyword::Obliv) {
        Some(rest) => match eat_word(rest, Keyword::If) {
            Some(rest) => conditional(alloc, rest, spot, true),
            None => {
                let (base, rest) = after_obliv(rest, spot)?;
                declare(alloc, rest, &base)
            }
        },
        None => {
            if begins_type(tokens) {
                let (base, rest) = base(tokens)?;
                declare(alloc, rest, &base)
            } else {
                stmt(alloc, tokens)
            }
        }
    }
}
