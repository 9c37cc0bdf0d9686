//! The sign that comes next in an expression.

ghost use Rattle.std.specs.Prelude.{◌≡◌, MatchOption, IsTrue, ◌↔◌};
ghost use Rattle.oc_grammar.specs.Tokens.{SignStarts, NoSign};
ghost use Rattle.oc_grammar.specs.Tables.{prefix, assignment};
ghost use Rattle.oc_expressions.specs.Continuations.{postfix, Operates, Below, BeginsType};

use oc_grammar::tables::{
    Infix, Opening, Prefix, assignment_of, opening_of, operator_of, prefix_of,
};
use oc_grammar::taking::{next, sign_of};
use oc_lexer::{Sign, Token};
use oc_values::BinaryOp;

/// What stands after an operand.
#[derive(Clone, Copy, Debug, PartialEq, Eq)]
pub enum Postfix {
    Index,
    Field,
    Arrow,
    /// `++` where it is true, else `--`.
    Bump(bool),
}

/// What a sign begins after an operand.
pub fn postfix_of(sign: Sign) -> Option<Postfix>
    ensures { result ≡ postfix sign }
{
    match sign {
        Sign::LeftBracket => Some(Postfix::Index),
        Sign::Dot => Some(Postfix::Field),
        Sign::Arrow => Some(Postfix::Arrow),
        Sign::PlusPlus => Some(Postfix::Bump(true)),
        Sign::MinusMinus => Some(Postfix::Bump(false)),
        _ => None,
    }
}

/// What comes next after an operand.
pub fn postfix_next(tokens: &[Token]) -> Option<(Postfix, &[Token])>
    ensures { MatchOption result (NoSign postfix tokens.now) (λ found. SignStarts postfix tokens.now found.0 found.1.now) }
{
    let (token, rest) = next(tokens)?;
    let sign = sign_of(token)?;
    let said = postfix_of(sign)?;
    Some((said, rest))
}

/// The prefix that comes next.
pub fn prefix_next(tokens: &[Token]) -> Option<(Prefix, &[Token])>
    ensures { MatchOption result (NoSign prefix tokens.now) (λ found. SignStarts prefix tokens.now found.0 found.1.now) }
{
    let (token, rest) = next(tokens)?;
    let sign = sign_of(token)?;
    let said = prefix_of(sign)?;
    Some((said, rest))
}

/// The assignment that comes next.
pub fn assignment_next(tokens: &[Token]) -> Option<(Option<BinaryOp>, &[Token])>
    ensures { MatchOption result (NoSign assignment tokens.now) (λ found. SignStarts assignment tokens.now found.0 found.1.now) }
{
    let (token, rest) = next(tokens)?;
    let sign = sign_of(token)?;
    let said = assignment_of(sign)?;
    Some((said, rest))
}

/// The operator that comes next, with its level, if it binds at least so tightly.
pub fn operation_next(tokens: &[Token], least: u8) -> Option<(u8, Infix, &[Token])>
    ensures { MatchOption result (Below least tokens.now) (λ found. Operates tokens.now least found.0 found.1 found.2.now) }
{
    let (token, rest) = next(tokens)?;
    let sign = sign_of(token)?;
    let (level, op) = operator_of(sign)?;
    if level < least {
        None
    } else {
        Some((level, op, rest))
    }
}

/// Whether a token with which a written type begins comes next.
pub fn begins_type(tokens: &[Token]) -> bool
    ensures { IsTrue result ↔ BeginsType tokens.now }
{
    match next(tokens) {
        Some((token, _rest)) => opening_of(&token.kind) != Opening::Other,
        None => false,
    }
}
