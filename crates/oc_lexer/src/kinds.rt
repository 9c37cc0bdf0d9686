//! What begins at the front of a text.

ghost use Rattle.std.specs.Prelude.{◌≡◌};
ghost use Rattle.oc_lexer.specs.Kinds.{kind_at};

use crate::bytes::{byte_at, is_digit, is_name_start, is_space};

/// What a text begins with, as its first bytes tell.
#[derive(Clone, Copy, Debug, PartialEq, Eq)]
pub enum Kind {
    Blank,
    /// A name or a keyword.
    Word,
    Number,
    Character,
    Text,
    Directive,
    BlockComment,
    LineComment,
    /// A sign, or a byte that starts nothing.
    Sign,
}

/// What the text begins with; `is_fresh` says whether only blanks stand before it on its line.
#[tactic(auto, unfolding(crate::specs::Kinds::kind_at))]
pub fn kind_at(is_fresh: bool, text: &[u8]) -> Kind
    ensures { result ≡ kind_at is_fresh text.now }
{
    let Some((first, more)) = text.split_first() else {
        return Kind::Sign;
    };
    let byte = *first;
    let second = byte_at(more, 0);
    if is_space(byte) || byte == b'\n' {
        Kind::Blank
    } else if is_name_start(byte) {
        Kind::Word
    } else if is_digit(byte) {
        Kind::Number
    } else if byte == b'\'' {
        Kind::Character
    } else if byte == b'"' {
        Kind::Text
    } else if byte == b'#' && is_fresh {
        Kind::Directive
    } else if byte == b'/' && second == b'*' {
        Kind::BlockComment
    } else if byte == b'/' && second == b'/' {
        Kind::LineComment
    } else {
        Kind::Sign
    }
}
