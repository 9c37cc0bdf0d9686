//! The names that `#define`s of a source make numbers.

ghost use Rattle.std.specs.Prelude.{◌≡◌, Some, OnOk, ℕ, List};
ghost use Rattle.std.specs.Str.{bytes_eq};
ghost use Rattle.std.specs.Map.{update};
ghost use Rattle.oc_lexer.specs.Sources.{replaced_by};
ghost use Rattle.oc_lexer.specs.Known.{get_at};

use crate::token::TokenKind;
use oc_source::Literal;
use oc_values::NoMemory;
use std::alloc::Global;
use std::collections::BTreeMap;

/// The literal of a defined name.
pub fn find(known: &BTreeMap<&[u8], Literal>, name: &[u8]) -> Option<Literal>
    ensures { result ≡ get_at known.now name.now }
{
    known.get(name).copied()
}

/// Lets a name stand for a literal.
pub fn define<'s>(
    known: &mut BTreeMap<&'s [u8], Literal>,
    name: &'s [u8],
    literal: Literal,
) -> Result<(), NoMemory>
    ensures { OnOk result ((q : List ℕ) → get_at known.new q ≡ update bytes_eq (get_at known.old) name.now (Some literal) q) }
{
    known.insert(name, literal)?;
    Ok(())
}

/// The token that stands in the source, where a defined name is its number.
pub fn replaced(known: &BTreeMap<&[u8], Literal>, kind: TokenKind) -> TokenKind
    ensures { result ≡ replaced_by (get_at known.now) kind }
{
    if let TokenKind::Name(name) = &kind {
        if let Some(literal) = find(known, name.as_bytes()) {
            return TokenKind::Number(literal);
        }
    }
    kind
}
