//! What the first token of a statement says.

ghost use Rattle.std.specs.Prelude.{◌≡◌};
ghost use Rattle.oc_statements.specs.Continuations.{simple_lead, lead_at};

use oc_lexer::{Keyword, Sign, TokenKind};

/// What a token begins among the statements that have no statements as parts.
#[derive(Clone, Copy, Debug, PartialEq, Eq)]
pub enum SimpleLead {
    Empty,
    Return,
    Break,
    Continue,
    /// An expression, if it begins one at all.
    Express,
}

/// What a token begins among all statements.
#[derive(Clone, Copy, Debug, PartialEq, Eq)]
pub enum Lead {
    Block,
    If,
    While,
    For,
    Obliv,
    Tilde,
    /// One without statements as parts, if any.
    Simple,
}

/// What a token begins among the statements that have no statements as parts.
pub fn simple_lead(kind: &TokenKind) -> SimpleLead
    ensures { result ≡ simple_lead kind.now }
{
    match kind {
        TokenKind::Sign(sign) => match sign {
            Sign::Semicolon => SimpleLead::Empty,
            _ => SimpleLead::Express,
        },
        TokenKind::Keyword(word) => match word {
            Keyword::Return => SimpleLead::Return,
            Keyword::Break => SimpleLead::Break,
            Keyword::Continue => SimpleLead::Continue,
            _ => SimpleLead::Express,
        },
        TokenKind::Name(_) | TokenKind::Number(_) | TokenKind::Character(_) | TokenKind::Text(_) =>
            SimpleLead::Express,
    }
}

/// What a token begins among all statements.
pub fn lead_at(kind: &TokenKind) -> Lead
    ensures { result ≡ lead_at kind.now }
{
    match kind {
        TokenKind::Sign(sign) => match sign {
            Sign::LeftBrace => Lead::Block,
            Sign::Tilde => Lead::Tilde,
            _ => Lead::Simple,
        },
        TokenKind::Keyword(word) => match word {
            Keyword::If => Lead::If,
            Keyword::While => Lead::While,
            Keyword::For => Lead::For,
            Keyword::Obliv => Lead::Obliv,
            _ => Lead::Simple,
        },
        TokenKind::Name(_) | TokenKind::Number(_) | TokenKind::Character(_) | TokenKind::Text(_) =>
            Lead::Simple,
    }
}
