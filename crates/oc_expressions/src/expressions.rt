//! Expressions, one reading call a rule of the grammar.

ghost use Rattle.std.specs.Prelude.{◌≡◌, ◌<◌, ◌≤◌, [], ◌∷◌, length, IfOk};
ghost use Rattle.oc_grammar.specs.Parsing.{Any};
ghost use Rattle.oc_grammar.specs.Calls.{Reads};
ghost use Rattle.oc_grammar.specs.Tables.{strength};
ghost use Rattle.oc_grammar.specs.WrittenTypes.{Commas};
ghost use Rattle.oc_grammar.specs.Expressions.{Expression, Before, Ends};
ghost use Rattle.oc_expressions.specs.Continuations.{primary, postfixes, postfix_after, closed_arguments, size_after, name_after, ParenAfter, Below, ListEnds};

use crate::leaves::{boxed, infixed, leaf, prefixed};
use crate::signs::{
    Postfix, assignment_next, begins_type, operation_next, postfix_next, prefix_next,
};
use oc_declarators::declarators::closed_type;
use oc_grammar::ParseError;
use oc_grammar::taking::{eat, expect, is_word, name, next, next_spot};
use oc_lexer::{Keyword, Sign, Token, TokenKind};
use oc_source::Spot;
use oc_source::parsed::{Expr, ExprNode};
use oc_values::{Boxed, Items, Name};
use std::alloc::Global;

/// Reads an expression.
#[cycle(expr)]
pub fn expr<'t>(
    alloc: Global,
    tokens: &'t [Token],
) -> Result<(Boxed<Expr>, &'t [Token]), ParseError<'t>>
    ensures reads { Reads (Expression 1) (Ends 1) tokens.now result }
    ensures shorter { IfOk result (λ found. length found.1.now < length tokens.now) }
{
    let spot = next_spot(tokens);
    let (left, rest) = cond(alloc, tokens)?;
    match assignment_next(rest) {
        None => Ok((left, rest)),
        Some((op, rest)) => {
            let (right, rest) = expr(alloc, rest)?;
            Ok((
                boxed(alloc, spot, ExprNode::Assign { op, left, right })?,
                rest,
            ))
        }
    }
}

// Reads an expression that is no assignment.
#[cycle(expr)]
fn cond<'t>(
    alloc: Global,
    tokens: &'t [Token],
) -> Result<(Boxed<Expr>, &'t [Token]), ParseError<'t>>
    ensures reads { Reads (Expression 2) (Ends 2) tokens.now result }
    ensures shorter { IfOk result (λ found. length found.1.now < length tokens.now) }
{
    let spot = next_spot(tokens);
    let (first, rest) = binary(alloc, tokens, 3)?;
    match eat(rest, Sign::Question) {
        None => Ok((first, rest)),
        Some(rest) => {
            let (yes, rest) = before(alloc, rest, Sign::Colon)?;
            let (no, rest) = cond(alloc, rest)?;
            let node = ExprNode::Choose {
                cond: first,
                yes,
                no,
            };
            Ok((boxed(alloc, spot, node)?, rest))
        }
    }
}

/// Reads an expression and a sign that no expression goes on with.
#[cycle(expr)]
pub fn before<'t>(
    alloc: Global,
    tokens: &'t [Token],
    sign: Sign,
) -> Result<(Boxed<Expr>, &'t [Token]), ParseError<'t>>
    requires { strength (TokenKind.Sign sign) ≡ 0 }
    ensures reads { Reads (Before sign) Any tokens.now result }
    ensures shorter { IfOk result (λ found. length found.1.now < length tokens.now) }
{
    let (value, rest) = expr(alloc, tokens)?;
    let rest = expect(rest, sign)?;
    Ok((value, rest))
}

// Reads operands with operators between them that bind at least so tightly.
#[cycle(expr)]
fn binary<'t>(
    alloc: Global,
    tokens: &'t [Token],
    least: u8,
) -> Result<(Boxed<Expr>, &'t [Token]), ParseError<'t>>
    requires { (3 ≤ least) × (least ≤ 13) }
    ensures reads { Reads (Expression least) (Ends least) tokens.now result }
    ensures shorter { IfOk result (λ found. length found.1.now < length tokens.now) }
    ensures below { IfOk result (λ found. Below least found.1.now) }
{
    let spot = next_spot(tokens);
    let (mut left, mut rest) = unary(alloc, tokens)?;
    while let Some((level, op, after)) = operation_next(rest, least) {
        let (right, after) = binary(alloc, after, level + 1)?;
        left = infixed(alloc, spot, op, left, right)?;
        rest = after;
    }
    Ok((left, rest))
}

// Reads an operand with what stands before and after it.
#[cycle(expr)]
fn unary<'t>(
    alloc: Global,
    tokens: &'t [Token],
) -> Result<(Boxed<Expr>, &'t [Token]), ParseError<'t>>
    ensures reads { Reads (Expression 13) (Ends 13) tokens.now result }
    ensures shorter { IfOk result (λ found. length found.1.now < length tokens.now) }
{
    let spot = next_spot(tokens);
    match eat(tokens, Sign::LeftParen) {
        Some(rest) => parens(alloc, rest, spot),
        None => match prefix_next(tokens) {
            Some((prefix, rest)) => {
                let (part, rest) = unary(alloc, rest)?;
                Ok((prefixed(alloc, spot, prefix, part)?, rest))
            }
            None => {
                let (left, rest) = primary(alloc, tokens)?;
                postfixes(alloc, rest, spot, left)
            }
        },
    }
}

// Reads what comes after the opening parenthesis at the spot.
#[cycle(expr)]
fn parens<'t>(
    alloc: Global,
    tokens: &'t [Token],
    spot: Spot,
) -> Result<(Boxed<Expr>, &'t [Token]), ParseError<'t>>
    ensures reads { Reads (ParenAfter spot) (Ends 13) tokens.now result }
    ensures shorter { IfOk result (λ found. length found.1.now < length tokens.now) }
{
    if begins_type(tokens) {
        let (to, rest) = closed_type(tokens)?;
        let (part, rest) = unary(alloc, rest)?;
        return Ok((boxed(alloc, spot, ExprNode::Cast { to, part })?, rest));
    }
    let (inner, rest) = before(alloc, tokens, Sign::RightParen)?;
    postfixes(alloc, rest, spot, inner)
}

// Reads what stands after an operand that begins at the spot.
#[cycle(expr)]
fn postfixes<'t>(
    alloc: Global,
    tokens: &'t [Token],
    spot: Spot,
    first: Boxed<Expr>,
) -> Result<(Boxed<Expr>, &'t [Token]), ParseError<'t>>
    ensures reads { Reads (postfixes spot first) (Ends 13) tokens.now result }
    ensures shorter { IfOk result (λ found. length found.1.now ≤ length tokens.now) }
{
    let mut left = first;
    let mut rest = tokens;
    while let Some((postfix, after)) = postfix_next(rest) {
        let (more, after) = postfixed(alloc, after, spot, left, postfix)?;
        left = more;
        rest = after;
    }
    Ok((left, rest))
}

// Reads what comes after one sign after an operand.
#[cycle(expr)]
fn postfixed<'t>(
    alloc: Global,
    tokens: &'t [Token],
    spot: Spot,
    part: Boxed<Expr>,
    postfix: Postfix,
) -> Result<(Boxed<Expr>, &'t [Token]), ParseError<'t>>
    ensures reads { Reads (postfix_after spot part postfix) Any tokens.now result }
    ensures shorter { IfOk result (λ found. length found.1.now ≤ length tokens.now) }
{
    match postfix {
        Postfix::Index => {
            let (amount, rest) = before(alloc, tokens, Sign::RightBracket)?;
            Ok((boxed(alloc, spot, ExprNode::Index { part, amount })?, rest))
        }
        Postfix::Field => {
            let (named, rest) = name(tokens)?;
            let name = named.name;
            Ok((boxed(alloc, spot, ExprNode::Field { part, name })?, rest))
        }
        Postfix::Arrow => {
            let (named, rest) = name(tokens)?;
            let name = named.name;
            Ok((boxed(alloc, spot, ExprNode::Arrow { part, name })?, rest))
        }
        Postfix::Bump(up) => {
            let node = ExprNode::Bump {
                up,
                before: false,
                part,
            };
            Ok((boxed(alloc, spot, node)?, tokens))
        }
    }
}

// Reads what stands alone and is not in parentheses.
#[cycle(expr)]
fn primary<'t>(
    alloc: Global,
    tokens: &'t [Token],
) -> Result<(Boxed<Expr>, &'t [Token]), ParseError<'t>>
    ensures reads { Reads primary (Ends 15) tokens.now result }
    ensures shorter { IfOk result (λ found. length found.1.now < length tokens.now) }
{
    let Some((token, rest)) = next(tokens) else {
        return Err(ParseError::Unexpected(tokens));
    };
    if let Some(leaf) = leaf(alloc, token)? {
        return Ok((leaf, rest));
    }
    if is_word(token, Keyword::Sizeof) {
        return size(alloc, rest, token.spot);
    }
    match &token.kind {
        TokenKind::Name(name) => call(alloc, rest, token.spot, name),
        TokenKind::Keyword(_)
        | TokenKind::Sign(_)
        | TokenKind::Number(_)
        | TokenKind::Character(_)
        | TokenKind::Text(_) => Err(ParseError::Unexpected(tokens)),
    }
}

// Reads what comes after the `sizeof` at the spot.
fn size<'t>(
    alloc: Global,
    tokens: &'t [Token],
    spot: Spot,
) -> Result<(Boxed<Expr>, &'t [Token]), ParseError<'t>>
    ensures reads { Reads (size_after spot) (Ends 15) tokens.now result }
    ensures shorter { IfOk result (λ found. length found.1.now < length tokens.now) }
{
    let rest = expect(tokens, Sign::LeftParen)?;
    let (ty, rest) = closed_type(rest)?;
    Ok((boxed(alloc, spot, ExprNode::SizeOf(ty))?, rest))
}

// Reads what comes after the name at the spot.
#[cycle(expr)]
fn call<'t>(
    alloc: Global,
    tokens: &'t [Token],
    spot: Spot,
    name: &Name,
) -> Result<(Boxed<Expr>, &'t [Token]), ParseError<'t>>
    ensures reads { Reads (name_after spot name.now) (Ends 15) tokens.now result }
    ensures shorter { IfOk result (λ found. length found.1.now ≤ length tokens.now) }
{
    let name = name.share()?;
    match eat(tokens, Sign::LeftParen) {
        None => Ok((boxed(alloc, spot, ExprNode::Named(name))?, tokens)),
        Some(rest) => {
            let (args, rest) = arguments(alloc, rest)?;
            Ok((boxed(alloc, spot, ExprNode::Call { name, args })?, rest))
        }
    }
}

// Reads arguments and the closing parenthesis.
#[cycle(expr)]
fn arguments<'t>(
    alloc: Global,
    tokens: &'t [Token],
) -> Result<(Items<Expr>, &'t [Token]), ParseError<'t>>
    ensures reads { Reads closed_arguments Any tokens.now result }
    ensures shorter { IfOk result (λ found. length found.1.now < length tokens.now) }
{
    match eat(tokens, Sign::RightParen) {
        Some(rest) => Ok((Items::new(alloc), rest)),
        None => {
            let (args, rest) = listed(alloc, tokens)?;
            let rest = expect(rest, Sign::RightParen)?;
            Ok((args, rest))
        }
    }
}

// Reads one argument or more.
#[cycle(expr)]
fn listed<'t>(
    alloc: Global,
    tokens: &'t [Token],
) -> Result<(Items<Expr>, &'t [Token]), ParseError<'t>>
    ensures reads { Reads (Commas (Expression 1)) ListEnds tokens.now result }
    ensures shorter { IfOk result (λ found. length found.1.now < length tokens.now) }
{
    let (first, mut rest) = expr(alloc, tokens)?;
    let mut found = Items::new(alloc);
    found.push(first.into_inner())?;
    while let Some(after) = eat(rest, Sign::Comma) {
        let (more, after) = expr(alloc, after)?;
        found.push(more.into_inner())?;
        rest = after;
    }
    Ok((found, rest))
}
