//! What single signs and keywords stand for in the grammar.

ghost use Rattle.std.specs.Prelude.{◌≡◌};
ghost use Rattle.oc_grammar.specs.Tables.{prefix, operator, assignment, opening, int_kind};

use oc_lexer::{Keyword, Sign, TokenKind};
use oc_source::parsed::UnaryOp;
use oc_values::{BinaryOp, IntKind};

/// A sign before an operand.
#[derive(Clone, Copy, Debug, PartialEq, Eq)]
pub enum Prefix {
    Unary(UnaryOp),
    /// `++` where it is true, else `--`.
    Bump(bool),
}

/// A sign between two operands.
#[derive(Clone, Copy, Debug, PartialEq, Eq)]
pub enum Infix {
    Binary(BinaryOp),
    /// `&&` where it is true, else `||`.
    Logic(bool),
}

/// The word that an integer type is named after.
#[derive(Clone, Copy, Debug, PartialEq, Eq)]
pub enum Width {
    Char,
    Short,
    Int,
    Long,
}

/// What a token begins in a written type.
#[derive(Clone, Copy, Debug, PartialEq, Eq)]
pub enum Opening {
    Frozen,
    Obliv,
    Struct,
    Bool,
    /// `unsigned` where it is true, else `signed`.
    Signs(bool),
    Named(Width),
    /// A token with which no written type begins.
    Other,
}

/// The operator that a sign is before an operand.
pub fn prefix_of(sign: Sign) -> Option<Prefix>
    ensures { result ≡ prefix sign }
{
    match sign {
        Sign::Minus => Some(Prefix::Unary(UnaryOp::Neg)),
        Sign::Plus => Some(Prefix::Unary(UnaryOp::Plus)),
        Sign::Bang => Some(Prefix::Unary(UnaryOp::Not)),
        Sign::Tilde => Some(Prefix::Unary(UnaryOp::Flip)),
        Sign::Star => Some(Prefix::Unary(UnaryOp::Deref)),
        Sign::Ampersand => Some(Prefix::Unary(UnaryOp::Address)),
        Sign::PlusPlus => Some(Prefix::Bump(true)),
        Sign::MinusMinus => Some(Prefix::Bump(false)),
        _ => None,
    }
}

/// The left-associative operator that a sign is between two operands, and its level.
pub fn operator_of(sign: Sign) -> Option<(u8, Infix)>
    ensures { result ≡ operator sign }
{
    match sign {
        Sign::OrOr => Some((3, Infix::Logic(false))),
        Sign::AndAnd => Some((4, Infix::Logic(true))),
        Sign::Bar => Some((5, Infix::Binary(BinaryOp::Or))),
        Sign::Caret => Some((6, Infix::Binary(BinaryOp::Xor))),
        Sign::Ampersand => Some((7, Infix::Binary(BinaryOp::And))),
        Sign::EqualEqual => Some((8, Infix::Binary(BinaryOp::Equal))),
        Sign::NotEqual => Some((8, Infix::Binary(BinaryOp::NotEqual))),
        Sign::Less => Some((9, Infix::Binary(BinaryOp::Less))),
        Sign::LessEq => Some((9, Infix::Binary(BinaryOp::LessEq))),
        Sign::Greater => Some((9, Infix::Binary(BinaryOp::Greater))),
        Sign::GreaterEq => Some((9, Infix::Binary(BinaryOp::GreaterEq))),
        Sign::ShiftLeft => Some((10, Infix::Binary(BinaryOp::Shl))),
        Sign::ShiftRight => Some((10, Infix::Binary(BinaryOp::Shr))),
        Sign::Plus => Some((11, Infix::Binary(BinaryOp::Add))),
        Sign::Minus => Some((11, Infix::Binary(BinaryOp::Sub))),
        Sign::Star => Some((12, Infix::Binary(BinaryOp::Mul))),
        Sign::Slash => Some((12, Infix::Binary(BinaryOp::Div))),
        Sign::Percent => Some((12, Infix::Binary(BinaryOp::Rem))),
        _ => None,
    }
}

/// The assignment that a sign is: by an operator, or plain.
pub fn assignment_of(sign: Sign) -> Option<Option<BinaryOp>>
    ensures { result ≡ assignment sign }
{
    match sign {
        Sign::Assign => Some(None),
        Sign::PlusAssign => Some(Some(BinaryOp::Add)),
        Sign::MinusAssign => Some(Some(BinaryOp::Sub)),
        Sign::StarAssign => Some(Some(BinaryOp::Mul)),
        Sign::SlashAssign => Some(Some(BinaryOp::Div)),
        Sign::PercentAssign => Some(Some(BinaryOp::Rem)),
        Sign::AndAssign => Some(Some(BinaryOp::And)),
        Sign::OrAssign => Some(Some(BinaryOp::Or)),
        Sign::XorAssign => Some(Some(BinaryOp::Xor)),
        Sign::ShiftLeftAssign => Some(Some(BinaryOp::Shl)),
        Sign::ShiftRightAssign => Some(Some(BinaryOp::Shr)),
        _ => None,
    }
}

/// What a token begins in a written type.
pub fn opening_of(kind: &TokenKind) -> Opening
    ensures { result ≡ opening kind.now }
{
    match kind {
        TokenKind::Keyword(word) => word_opening(*word),
        TokenKind::Name(_)
        | TokenKind::Number(_)
        | TokenKind::Character(_)
        | TokenKind::Text(_)
        | TokenKind::Sign(_) => Opening::Other,
    }
}

fn word_opening(word: Keyword) -> Opening
    ensures { result ≡ opening (TokenKind.Keyword word) }
{
    match word {
        Keyword::Frozen => Opening::Frozen,
        Keyword::Obliv => Opening::Obliv,
        Keyword::Struct => Opening::Struct,
        Keyword::Bool | Keyword::UnderscoreBool => Opening::Bool,
        Keyword::Signed => Opening::Signs(false),
        Keyword::Unsigned => Opening::Signs(true),
        Keyword::Char => Opening::Named(Width::Char),
        Keyword::Short => Opening::Named(Width::Short),
        Keyword::Int => Opening::Named(Width::Int),
        Keyword::Long => Opening::Named(Width::Long),
        _ => Opening::Other,
    }
}

/// The kind of an integer type that is named after a word.
pub fn int_kind(unsigned: bool, width: Width) -> IntKind
    ensures { result ≡ int_kind unsigned width }
{
    match (unsigned, width) {
        (false, Width::Char) => IntKind::I8,
        (true, Width::Char) => IntKind::U8,
        (false, Width::Short) => IntKind::I16,
        (true, Width::Short) => IntKind::U16,
        (false, Width::Int) => IntKind::I32,
        (true, Width::Int) => IntKind::U32,
        (false, Width::Long) => IntKind::I64,
        (true, Width::Long) => IntKind::U64,
    }
}
