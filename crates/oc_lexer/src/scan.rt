//! The tokens of a whole source.

ghost use Rattle.std.specs.Prelude.{◌≡◌, ◌≤◌, ◌<◌, ◌+◌, ◌++◌, ℕ, List, IfOk, IfErr, OnOk, length, option_map};
ghost use Rattle.oc_source.specs.declared.spot.Spot.{Spot};
ghost use Rattle.oc_lexer.specs.declared.token.LexRule.{LexRule};
ghost use Rattle.oc_lexer.specs.declared.token.Token.{Token};
ghost use Rattle.oc_lexer.specs.Faults.{IfRefused};
ghost use Rattle.oc_lexer.specs.Moving.{token_between};
ghost use Rattle.oc_lexer.specs.Places.{spot_after};
ghost use Rattle.oc_lexer.specs.Kinds.{kind_at};
ghost use Rattle.oc_lexer.specs.Known.{filtered, get_at, known_after};
ghost use Rattle.oc_lexer.specs.Scanned.{piece_at, piece_of, rule_of};
ghost use Rattle.oc_lexer.specs.Sources.{HasNoTokens, Spells, is_new_by};

use crate::bytes::{ByteClass, split_run};
use crate::defines::{define, find, replaced};
use crate::kinds::{Kind, kind_at};
use crate::numbers::suffix_of;
use crate::pieces::{Piece, piece_at};
use crate::places::{Place, START, passed};
use crate::token::{LexFault, LexRule, Lexed, Token};
use oc_source::Literal;
use oc_values::{Items, NoMemory};
use std::alloc::Global;
use std::collections::BTreeMap;

/// How many bytes a source has at most.
const MAX_BYTES: usize = 1_048_576;

/// The rule that a text breaks with which no piece can start.
fn rule_at(is_fresh: bool, text: &[u8]) -> LexRule
    ensures { result ≡ rule_of (kind_at is_fresh text.now) text.now }
{
    match kind_at(is_fresh, text) {
        Kind::BlockComment => LexRule::L2,
        Kind::Directive => LexRule::L5,
        Kind::Number => {
            let (digits, _) = split_run(ByteClass::Number, text);
            match suffix_of(digits) {
                Some(_) => LexRule::L4,
                None => LexRule::L3,
            }
        }
        Kind::Blank | Kind::Word | Kind::Character | Kind::Text | Kind::LineComment | Kind::Sign =>
            LexRule::L1,
    }
}

/// Whether the name of a `#define` is new.
fn is_new(known: &BTreeMap<&[u8], Literal>, piece: &Piece<'_>) -> bool
    ensures { result ≡ is_new_by (get_at known.now) (piece_of piece.now) }
{
    match piece {
        Piece::Define { name, .. } => find(known, name).is_none(),
        Piece::Blank | Piece::Comment | Piece::Include | Piece::Lexeme(_) => true,
    }
}

/// The piece at the front of a text and how many bytes it has, none where no piece can start there.
fn next_piece<'s>(
    alloc: Global,
    known: &BTreeMap<&'s [u8], Literal>,
    is_fresh: bool,
    text: &'s [u8],
) -> Result<Option<(Piece<'s>, usize)>, NoMemory>
    requires { 0 < length text.now }
    ensures { IfOk result (λ found. option_map (λ r. (piece_of r.0, r.1)) found
        ≡ filtered (get_at known.now) (piece_at is_fresh text.now)) }
{
    let Some((piece, length)) = piece_at(alloc, is_fresh, text)? else {
        return Ok(None);
    };
    if is_new(known, &piece) {
        Ok(Some((piece, length)))
    } else {
        Ok(None)
    }
}

/// Takes a piece that begins and ends at these places.
fn take_piece<'s>(
    known: &mut BTreeMap<&'s [u8], Literal>,
    tokens: &mut Items<Token>,
    piece: Piece<'s>,
    from: Place,
    to: Place,
) -> Result<(), NoMemory>
    ensures known { OnOk result ((name : List ℕ) → get_at known.new name ≡ known_after (get_at known.old) (piece_of piece.entry) name) }
    ensures tokens { OnOk result (tokens.new ≡ tokens.old ++ token_between (get_at known.old) from to (piece_of piece.entry)) }
{
    match piece {
        Piece::Define { name, literal } => define(known, name, literal),
        Piece::Lexeme(kind) => {
            let token = Token {
                kind: replaced(known, kind),
                from: from.at,
                to: to.at,
                spot: from.spot,
            };
            tokens.push(token)?;
            Ok(())
        }
        Piece::Blank | Piece::Comment | Piece::Include => Ok(()),
    }
}

/// The tokens of a source, or the first place at which it is refused.
pub fn lex(alloc: Global, source: &[u8]) -> Result<Lexed, LexFault>
    // The tokens are the source's.
    ensures spelled { IfOk result (λ lexed. Spells source.now lexed.tokens) }
    // The end is the spot just after the last byte.
    ensures end { IfOk result (λ lexed. lexed.end ≡ spot_after source.now) }
    // No other tokens are the source's, and no rule refuses it.
    ensures only { IfOk result (λ lexed. (tokens : List Token) → Spells source.now tokens → tokens ≡ lexed.tokens) }
    ensures accepted { IfOk result (λ lexed. (rule : LexRule) (spot : Spot) → HasNoTokens source.now rule spot → ⊥) }

    // The rule and the spot are those that refuse the source.
    ensures refused { IfErr result (λ fault. IfRefused fault (λ rule spot. HasNoTokens source.now rule spot)) }
    // No other rule or spot refuses it, and it has no tokens.
    ensures only_refusal { IfErr result (λ fault. IfRefused fault (λ rule spot.
        (other : LexRule) (at : Spot) → HasNoTokens source.now other at → (other ≡ rule) × (at ≡ spot))) }
    ensures none { IfErr result (λ fault. IfRefused fault (λ rule spot. (tokens : List Token) → Spells source.now tokens → ⊥)) }
{
    if source.len() > MAX_BYTES {
        return Err(LexFault::Refused {
            rule: LexRule::L6,
            spot: START.spot,
        });
    }
    let mut known = BTreeMap::new(alloc);
    let mut tokens = Items::new(alloc);
    let mut place = START;
    let mut rest = source;
    while !rest.is_empty() {
        let Some((piece, length)) = next_piece(alloc, &known, place.is_fresh, rest)? else {
            return Err(LexFault::Refused {
                rule: rule_at(place.is_fresh, rest),
                spot: place.spot,
            });
        };
        let (text, after) = rest.split_at(length);
        let next = passed(place, text);
        take_piece(&mut known, &mut tokens, piece, place, next)?;
        place = next;
        rest = after;
    }
    Ok(Lexed {
        tokens,
        end: place.spot,
    })
}
