//! Statements that have no statements as parts, and parts of others.

ghost use Rattle.std.specs.Prelude.{◌≡◌, ◌<◌, false, length, IfOk};
ghost use Rattle.oc_lexer.specs.declared.token.TokenKind.TheVariants as kind;
ghost use Rattle.oc_grammar.specs.Parsing.{Any};
ghost use Rattle.oc_grammar.specs.Calls.{Reads};
ghost use Rattle.oc_grammar.specs.Tables.{strength};
ghost use Rattle.oc_expressions.specs.Continuations.{begins};
ghost use Rattle.oc_source.specs.Parsed.{stmt};
ghost use Rattle.oc_grammar.specs.Statements.{Condition, Perhaps, Init};
ghost use Rattle.oc_statements.specs.Continuations.{SimpleStatement, header_form, name_form};

use crate::declarations::names;
use crate::leads::{SimpleLead, simple_lead};
use oc_declarators::bases::base;
use oc_expressions::expressions::before;
use oc_expressions::signs::begins_type;
use oc_grammar::ParseError;
use oc_grammar::taking::{eat, expect, name, next};
use oc_lexer::{Sign, Token};
use oc_source::Spot;
use oc_source::parsed::{Expr, ForInit, Stmt, StmtNode};
use oc_values::{Boxed, Name};
use std::alloc::{AllocError, Global};

/// What stands in the parentheses of a `for`.
#[derive(Debug, Drop)]
pub struct Header {
    pub init: ForInit,
    pub cond: Option<Boxed<Expr>>,
    pub advance: Option<Boxed<Expr>>,
}

/// A statement at a spot.
pub fn boxed(alloc: Global, spot: Spot, node: StmtNode) -> Result<Boxed<Stmt>, AllocError>
    ensures { IfOk result (λ made. made ≡ stmt spot node) }
{
    Boxed::new(alloc, Stmt { spot, node })
}

/// Reads an expression in parentheses.
pub fn condition<'t>(
    alloc: Global,
    tokens: &'t [Token],
) -> Result<(Boxed<Expr>, &'t [Token]), ParseError<'t>>
    ensures reads { Reads Condition Any tokens.now result }
    ensures shorter { IfOk result (λ found. length found.1.now < length tokens.now) }
{
    let rest = expect(tokens, Sign::LeftParen)?;
    let (value, rest) = before(alloc, rest, Sign::RightParen)?;
    Ok((value, rest))
}

/// Reads a sign, with an expression before it or none.
pub fn perhaps<'t>(
    alloc: Global,
    tokens: &'t [Token],
    sign: Sign,
) -> Result<(Option<Boxed<Expr>>, &'t [Token]), ParseError<'t>>
    requires loose { strength (kind.Sign sign) ≡ 0 }
    requires first { begins (kind.Sign sign) ≡ false }
    ensures reads { Reads (Perhaps sign) Any tokens.now result }
    ensures shorter { IfOk result (λ found. length found.1.now < length tokens.now) }
{
    match eat(tokens, sign) {
        Some(rest) => Ok((None, rest)),
        None => {
            let (value, rest) = before(alloc, tokens, sign)?;
            let given = Some(value);
            Ok((given, rest))
        }
    }
}

// Reads what the header of a `for` begins with.
fn init<'t>(alloc: Global, tokens: &'t [Token]) -> Result<(ForInit, &'t [Token]), ParseError<'t>>
    ensures reads { Reads Init Any tokens.now result }
    ensures shorter { IfOk result (λ found. length found.1.now < length tokens.now) }
{
    if begins_type(tokens) {
        let (base, rest) = base(tokens)?;
        let (found, rest) = names(alloc, rest, &base)?;
        return Ok((ForInit::Declare(found), rest));
    }
    let (value, rest) = perhaps(alloc, tokens, Sign::Semicolon)?;
    match value {
        Some(value) => Ok((ForInit::Express(value), rest)),
        None => Ok((ForInit::Nothing, rest)),
    }
}

/// Reads what stands in the parentheses of a `for`, with them.
pub fn for_header<'t>(
    alloc: Global,
    tokens: &'t [Token],
) -> Result<(Header, &'t [Token]), ParseError<'t>>
    ensures reads { Reads header_form Any tokens.now result }
    ensures shorter { IfOk result (λ found. length found.1.now < length tokens.now) }
{
    let rest = expect(tokens, Sign::LeftParen)?;
    let (init, rest) = init(alloc, rest)?;
    let (cond, rest) = perhaps(alloc, rest, Sign::Semicolon)?;
    let (advance, rest) = perhaps(alloc, rest, Sign::RightParen)?;
    let header = Header {
        init,
        cond,
        advance,
    };
    Ok((header, rest))
}

/// Reads a name in parentheses.
pub fn name_in_parens<'t>(
    alloc: Global,
    tokens: &'t [Token],
) -> Result<(Name, &'t [Token]), ParseError<'t>>
    ensures reads { Reads name_form Any tokens.now result }
    ensures shorter { IfOk result (λ found. length found.1.now < length tokens.now) }
{
    let rest = expect(tokens, Sign::LeftParen)?;
    let (named, rest) = name(rest)?;
    let rest = expect(rest, Sign::RightParen)?;
    Ok((named.name, rest))
}

/// Reads a statement that has no statements as parts.
pub fn simple<'t>(
    alloc: Global,
    tokens: &'t [Token],
) -> Result<(Boxed<Stmt>, &'t [Token]), ParseError<'t>>
    ensures reads { Reads SimpleStatement Any tokens.now result }
    ensures shorter { IfOk result (λ found. length found.1.now < length tokens.now) }
{
    let Some((token, rest)) = next(tokens) else {
        return Err(ParseError::Unexpected(tokens));
    };
    match simple_lead(&token.kind) {
        SimpleLead::Empty => Ok((boxed(alloc, token.spot, StmtNode::Empty)?, rest)),
        SimpleLead::Return => {
            let (value, rest) = perhaps(alloc, rest, Sign::Semicolon)?;
            Ok((boxed(alloc, token.spot, StmtNode::Return(value))?, rest))
        }
        SimpleLead::Break => {
            let rest = expect(rest, Sign::Semicolon)?;
            Ok((boxed(alloc, token.spot, StmtNode::Break)?, rest))
        }
        SimpleLead::Continue => {
            let rest = expect(rest, Sign::Semicolon)?;
            Ok((boxed(alloc, token.spot, StmtNode::Continue)?, rest))
        }
        SimpleLead::Express => {
            let (value, rest) = before(alloc, tokens, Sign::Semicolon)?;
            Ok((boxed(alloc, token.spot, StmtNode::Express(value))?, rest))
        }
    }
}
