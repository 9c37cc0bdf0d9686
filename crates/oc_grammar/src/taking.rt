//! The next token.

ghost use Rattle.std.specs.Prelude.{◌≡◌, ◌<◌, [], ◌∷◌, length, MatchOption, IfOk, IsTrue, ◌↔◌};
ghost use Rattle.oc_lexer.specs.declared.token.Sign.{Sign as SignType};
ghost use Rattle.oc_grammar.specs.Tokens.{Is, Starts, NotNext, spot_at};
ghost use Rattle.oc_grammar.specs.Parsing.{Any};
ghost use Rattle.oc_grammar.specs.Calls.{Passes, Reads, One, ANamed};

use crate::ParseError;
use oc_lexer::{Keyword, Sign, Token, TokenKind};
use oc_source::Spot;
use oc_values::Name;

/// The first token, and those after it.
pub fn next(tokens: &[Token]) -> Option<(&Token, &[Token])>
    ensures { MatchOption result (tokens.now ≡ []) (λ found. tokens.now ≡ found.0.now ∷ found.1.now) }
{
    tokens.split_first()
}

/// The spot of the next token, or 1:1 where there is none.
pub fn next_spot(tokens: &[Token]) -> Spot
    ensures { result ≡ spot_at tokens.now }
{
    match next(tokens) {
        Some((token, _rest)) => token.spot,
        None => Spot { line: 1, column: 1 },
    }
}

/// Whether the token is this sign.
pub fn is_sign(token: &Token, sign: Sign) -> bool
    ensures { IsTrue result ↔ Is (TokenKind.Sign sign) token.now }
{
    match &token.kind {
        TokenKind::Sign(found) => *found == sign,
        TokenKind::Name(_)
        | TokenKind::Keyword(_)
        | TokenKind::Number(_)
        | TokenKind::Character(_)
        | TokenKind::Text(_) => false,
    }
}

/// The sign that the token is.
pub fn sign_of(token: &Token) -> Option<Sign>
    ensures { MatchOption result ((sign : SignType) → Is (TokenKind.Sign sign) token.now → ⊥) (λ sign. Is (TokenKind.Sign sign) token.now) }
{
    match &token.kind {
        TokenKind::Sign(sign) => Some(*sign),
        TokenKind::Name(_)
        | TokenKind::Keyword(_)
        | TokenKind::Number(_)
        | TokenKind::Character(_)
        | TokenKind::Text(_) => None,
    }
}

/// Passes a sign if it comes next.
pub fn eat(tokens: &[Token], sign: Sign) -> Option<&[Token]>
    ensures { MatchOption result (NotNext (TokenKind.Sign sign) tokens.now) (λ rest. Starts (TokenKind.Sign sign) tokens.now rest.now) }
{
    let (token, rest) = next(tokens)?;
    if is_sign(token, sign) {
        Some(rest)
    } else {
        None
    }
}

/// Passes one sign.
#[tactic(auto, using(crate::proofs::Calls::is_found, crate::proofs::Calls::is_refused))]
pub fn expect(tokens: &[Token], sign: Sign) -> Result<&[Token], ParseError<'_>>
    ensures { Passes (One (TokenKind.Sign sign)) tokens.now result }
{
    match eat(tokens, sign) {
        Some(rest) => Ok(rest),
        None => Err(ParseError::Unexpected(tokens)),
    }
}

/// Whether the token is this keyword.
pub fn is_word(token: &Token, word: Keyword) -> bool
    ensures { IsTrue result ↔ Is (TokenKind.Keyword word) token.now }
{
    match &token.kind {
        TokenKind::Keyword(found) => *found == word,
        TokenKind::Name(_)
        | TokenKind::Sign(_)
        | TokenKind::Number(_)
        | TokenKind::Character(_)
        | TokenKind::Text(_) => false,
    }
}

/// Passes a keyword if it comes next.
pub fn eat_word(tokens: &[Token], word: Keyword) -> Option<&[Token]>
    ensures { MatchOption result (NotNext (TokenKind.Keyword word) tokens.now) (λ rest. Starts (TokenKind.Keyword word) tokens.now rest.now) }
{
    let (token, rest) = next(tokens)?;
    if is_word(token, word) {
        Some(rest)
    } else {
        None
    }
}

/// Reads a name, which shares its bytes with the token, and its spot.
pub fn name(tokens: &[Token]) -> Result<(Named, &[Token]), ParseError<'_>>
    ensures reads { Reads ANamed Any tokens.now result }
    ensures shorter { IfOk result (λ found. length found.1.now < length tokens.now) }
{
    let Some((token, rest)) = next(tokens) else {
        return Err(ParseError::Unexpected(tokens));
    };
    match &token.kind {
        TokenKind::Name(name) => {
            let name = name.share()?;
            Ok((
                Named {
                    spot: token.spot,
                    name,
                },
                rest,
            ))
        }
        TokenKind::Keyword(_)
        | TokenKind::Sign(_)
        | TokenKind::Number(_)
        | TokenKind::Character(_)
        | TokenKind::Text(_) => Err(ParseError::Unexpected(tokens)),
    }
}

/// A name of the source, with its spot.
#[derive(Debug, Drop)]
pub struct Named {
    pub spot: Spot,
    pub name: Name,
}

/// Passes one keyword.
#[tactic(auto, using(crate::proofs::Calls::is_found, crate::proofs::Calls::is_refused))]
pub fn expect_word(tokens: &[Token], word: Keyword) -> Result<&[Token], ParseError<'_>>
    ensures reads { Passes (One (TokenKind.Keyword word)) tokens.now result }
    ensures shorter { IfOk result (λ rest. length rest.now < length tokens.now) }
{
    match eat_word(tokens, word) {
        Some(rest) => Ok(rest),
        None => Err(ParseError::Unexpected(tokens)),
    }
}
