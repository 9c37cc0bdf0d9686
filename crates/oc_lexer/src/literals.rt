//! Characters and texts.

ghost use Rattle.std.specs.Prelude.{◌≡◌, ◌≤◌, IfOk, IfSome, length};
ghost use Rattle.oc_lexer.specs.Literals.{escape_value, is_character_byte, is_text_byte};
ghost use Rattle.oc_lexer.specs.Scanned.{character_at, element_at, quoted};

use crate::bytes::byte_at;
use oc_values::{Name, NoMemory};
use std::alloc::Global;

/// The byte that a letter after `\` stands for.
fn escape_value(letter: u8) -> Option<u8>
    ensures { result ≡ escape_value letter }
{
    match letter {
        b'n' => Some(b'\n'),
        b't' => Some(b'\t'),
        b'r' => Some(b'\r'),
        b'0' => Some(0),
        b'\\' | b'\'' | b'"' => Some(letter),
        _ => None,
    }
}

/// Whether the byte stands for itself in a text.
fn is_text_byte(byte: u8) -> bool
    ensures { result ≡ is_text_byte byte }
{
    (byte >= b' ' || byte == b'\t') && byte != b'"' && byte != b'\\'
}

/// Whether the byte stands for itself in a character literal.
fn is_character_byte(byte: u8) -> bool
    ensures { result ≡ is_character_byte byte }
{
    byte >= b' ' && byte <= b'~' && byte != b'\'' && byte != b'\\'
}

/// The byte of the character literal that begins here, and how many bytes spell it.
#[tactic(auto, unfolding(crate::specs::Scanned::character_at))]
pub fn character_at(text: &[u8]) -> Option<(u8, usize)>
    ensures value { result ≡ character_at text.now }
{
    let byte = byte_at(text, 1);
    if byte == b'\\' && byte_at(text, 3) == b'\'' {
        let value = escape_value(byte_at(text, 2))?;
        return Some((value, 4));
    }
    if is_character_byte(byte) && byte_at(text, 2) == b'\'' {
        Some((byte, 3))
    } else {
        None
    }
}

/// The byte that stands first in a text, and how many bytes spell it.
#[tactic(auto, unfolding(crate::specs::Scanned::element_at))]
fn element_at(text: &[u8]) -> Option<(u8, usize)>
    ensures value { result ≡ element_at text.now }
    ensures within { IfSome result (λ r. r.1 ≤ length text.now) }
    ensures some { IfSome result (λ r. 1 ≤ r.1) }
{
    let (first, more) = text.split_first()?;
    let byte = *first;
    if byte == b'\\' {
        let value = escape_value(byte_at(more, 0))?;
        Some((value, 2))
    } else if is_text_byte(byte) {
        Some((byte, 1))
    } else {
        None
    }
}

/// The bytes of a text up to the quote that closes it, and how many bytes spell them, with that quote;
/// none where the text is none.
pub fn quoted(alloc: Global, text: &[u8]) -> Result<Option<(Name, usize)>, NoMemory>
    ensures value { IfOk result (λ found. found ≡ quoted text.now) }
    ensures within { IfOk result (λ found. IfSome found (λ r. r.1 ≤ length text.now)) }
{
    let mut bytes = Vec::new(alloc);
    let mut at = 0;
    while byte_at(text, at) != b'"' {
        let (_, rest) = text.split_at(at);
        let Some((value, length)) = element_at(rest) else {
            return Ok(None);
        };
        bytes.push(value)?;
        at += length;
    }
    Ok(Some((Name::from_vec(bytes)?, at + 1)))
}
