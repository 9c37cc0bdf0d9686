//! The piece at the front of a text.

ghost use Rattle.std.specs.Prelude.{◌≡◌, ◌<◌, IfOk, Some, length, option_map};
ghost use Rattle.oc_lexer.specs.Scanned.{piece_at, piece_by, piece_of};

use crate::bytes::{ByteClass, split_run};
use crate::comments::comment_length;
use crate::directives::{define_at, include_length};
use crate::kinds::{Kind, kind_at};
use crate::literals::{character_at, quoted};
use crate::numbers::literal_of;
use crate::token::TokenKind;
use crate::words::{keyword_of, sign_at};
use oc_source::Literal;
use oc_values::{Name, NoMemory};
use std::alloc::Global;

/// A piece of a source.
#[derive(Debug, Drop)]
pub enum Piece<'s> {
    Blank,
    Comment,
    Include,
    /// From here on the name stands for the number.
    Define { name: &'s [u8], literal: Literal },
    /// A token, as it is where no `#define` names it.
    Lexeme(TokenKind),
}

/// What begins with a letter or `_`, and how many bytes it has.
fn word<'s>(alloc: Global, text: &'s [u8]) -> Result<(Piece<'s>, usize), NoMemory>
    ensures { IfOk result (λ r. Some (piece_of r.0, r.1) ≡ piece_by Kind.Word text.now) }
{
    let (word, _) = split_run(ByteClass::Name, text);
    let kind = match keyword_of(word) {
        Some(keyword) => TokenKind::Keyword(keyword),
        None => TokenKind::Name(Name::from_bytes(alloc, word)?),
    };
    Ok((Piece::Lexeme(kind), word.len()))
}

/// What begins with a digit.
fn number(text: &[u8]) -> Option<(Piece<'_>, usize)>
    ensures { option_map (λ r. (piece_of r.0, r.1)) result ≡ piece_by Kind.Number text.now }
{
    let (digits, _) = split_run(ByteClass::Number, text);
    match literal_of(digits) {
        Some(literal) => Some((Piece::Lexeme(TokenKind::Number(literal)), digits.len())),
        None => None,
    }
}

/// What begins with `'`.
fn character(text: &[u8]) -> Option<(Piece<'_>, usize)>
    ensures { option_map (λ r. (piece_of r.0, r.1)) result ≡ piece_by Kind.Character text.now }
{
    match character_at(text) {
        Some((byte, length)) => Some((Piece::Lexeme(TokenKind::Character(byte)), length)),
        None => None,
    }
}

/// What begins with `"`.
fn text_literal(alloc: Global, text: &[u8]) -> Result<Option<(Piece<'_>, usize)>, NoMemory>
    requires { 0 < length text.now }
    ensures { IfOk result (λ found. option_map (λ r. (piece_of r.0, r.1)) found ≡ piece_by Kind.Text text.now) }
{
    let (_, rest) = text.split_at(1);
    match quoted(alloc, rest)? {
        Some((bytes, length)) => Ok(Some((Piece::Lexeme(TokenKind::Text(bytes)), length + 1))),
        None => Ok(None),
    }
}

/// What begins with `#` on its line.
fn directive(text: &[u8]) -> Option<(Piece<'_>, usize)>
    ensures { option_map (λ r. (piece_of r.0, r.1)) result ≡ piece_by Kind.Directive text.now }
{
    if let Some(length) = include_length(text) {
        return Some((Piece::Include, length));
    }
    match define_at(text) {
        Some((name, literal, length)) => Some((Piece::Define { name, literal }, length)),
        None => None,
    }
}

/// What begins with `/*`.
fn block_comment(text: &[u8]) -> Option<(Piece<'_>, usize)>
    ensures { option_map (λ r. (piece_of r.0, r.1)) result ≡ piece_by Kind.BlockComment text.now }
{
    match comment_length(text) {
        Some(length) => Some((Piece::Comment, length)),
        None => None,
    }
}

/// What begins with `//`.
fn line_comment(text: &[u8]) -> (Piece<'_>, usize)
    ensures { Some (piece_of result.0, result.1) ≡ piece_by Kind.LineComment text.now }
{
    let (comment, _) = split_run(ByteClass::Line, text);
    (Piece::Comment, comment.len())
}

/// What begins with any other byte.
fn sign(text: &[u8]) -> Option<(Piece<'_>, usize)>
    ensures { option_map (λ r. (piece_of r.0, r.1)) result ≡ piece_by Kind.Sign text.now }
{
    match sign_at(text) {
        Some(sign) => Some((Piece::Lexeme(TokenKind::Sign(sign)), sign.text().len())),
        None => None,
    }
}

/// The piece at the front of a text and how many bytes it has, none where no piece can start there;
/// `is_fresh` says whether only blanks stand before it on its line. Whether a `#define` is of a new name is
/// not looked at.
pub fn piece_at(
    alloc: Global,
    is_fresh: bool,
    text: &[u8],
) -> Result<Option<(Piece<'_>, usize)>, NoMemory>
    requires { 0 < length text.now }
    ensures { IfOk result (λ found. option_map (λ r. (piece_of r.0, r.1)) found ≡ piece_at is_fresh text.now) }
{
    match kind_at(is_fresh, text) {
        Kind::Blank => Ok(Some((Piece::Blank, 1))),
        Kind::LineComment => Ok(Some(line_comment(text))),
        Kind::BlockComment => Ok(block_comment(text)),
        Kind::Directive => Ok(directive(text)),
        Kind::Word => Ok(Some(word(alloc, text)?)),
        Kind::Number => Ok(number(text)),
        Kind::Character => Ok(character(text)),
        Kind::Text => text_literal(alloc, text),
        Kind::Sign => Ok(sign(text)),
    }
}
