//! What a run takes in and what it shows: private and public words, reveals, results and prints.

ghost use Rattle.std.specs.Prelude.{◌≡◌, ◌++◌, IfOk, OnOk};
ghost use Rattle.std.specs.Fmt.{signed_decimal};
ghost use Rattle.std.specs.Option.{option_map};
ghost use Rattle.oc_values.specs.Integers.{convert as converted, residue};
ghost use Rattle.oc_source.specs.declared.spot.Spot.{Spot};
ghost use Rattle.oc_walk.specs.declared.run.Value.TheVariants.{Int};
ghost use Rattle.oc_walk.specs.Walking.{transfers};
ghost use Rattle.oc_walk.specs.Exchange.{cost, formatted, word as private_word, feeds, reveals, gives, public_word as word_of_all, prints};
ghost use Rattle.oc_meanings.specs.Clear.{clear, known_of, words_of as words};
ghost use Rattle.clear_actions.specs.Acting.{bare, mem_of, word_in, fed, Gives, Does};

use crate::cells::{odd, trap};
use crate::machine::{Fault, Halt, Store};
use oc_cells::TrapKind;
use oc_source::Spot;
use oc_typed::PrintPiece;
use oc_values::{IntKind, Items, Name, convert, same_kind};
use oc_walk::{ClearSetup, ShownItem, Source, Value};
use std::alloc::{AllocError, Global};

/// The words of a party.
pub fn words_of(setup: &ClearSetup, party: u8) -> &Items<i64>
    ensures { result.now ≡ words setup.now.first setup.now.second party }
{
    if party == 1 {
        &setup.first
    } else {
        &setup.second
    }
}

/// The word at an index, where there is one.
fn find_word(words: &[i64], index: i128) -> Option<i128>
    ensures { result ≡ word_in words.now index }
{
    if index < 0 || index >= words.len() as i128 {
        return None;
    }
    Some(i128::from(words[index as usize]))
}

/// Takes dealt transfers, where enough are left.
fn pay(store: &mut Store<'_>, needed: u32) -> Result<(), Fault>
    ensures { Does (transfers needed (mem_of store.old)) result store.old store.new }
{
    let needed = u64::from(needed);
    if needed > store.dealt {
        return Err(Fault::Halted(Halt::DealtSpent));
    }
    store.dealt -= needed;
    Ok(())
}

/// The transfers that a word uses.
fn price(party: u8, kind: IntKind) -> u32
    ensures { result ≡ cost party kind }
{
    if party == 1 { 0 } else { kind.width() }
}

/// A private word that was sought before the transfers are counted.
fn feed_found(
    store: &mut Store<'_>,
    spot: Spot,
    party: u8,
    kind: IntKind,
    found: Option<i128>,
) -> Result<Value<i128>, Fault>
    ensures { Does (fed spot party kind found (mem_of store.old)) result store.old store.new }
{
    match found {
        Some(word) => {
            pay(store, price(party, kind))?;
            Ok(Value::Hidden(kind, convert(word, kind)))
        }
        None => Err(trap(TrapKind::I1, spot)),
    }
}

/// The private word at an index of any kind.
fn feed_index(
    store: &mut Store<'_>,
    setup: &ClearSetup,
    spot: Spot,
    party: u8,
    kind: IntKind,
    _of: IntKind,
    index: i128,
) -> Result<Value<i128>, Fault>
    ensures { Does (private_word (clear setup.now.first setup.now.second) (known_of setup.now) spot party kind (Int _of index) (mem_of store.old)) result store.old store.new }
{
    let found = find_word(words_of(setup, party).as_slice(), index);
    feed_found(store, spot, party, kind, found)
}

/// A private word, whose index is a public integer.
fn feed_word(
    store: &mut Store<'_>,
    setup: &ClearSetup,
    spot: Spot,
    party: u8,
    kind: IntKind,
    index: Value<i128>,
) -> Result<Value<i128>, Fault>
    ensures { Does (private_word (clear setup.now.first setup.now.second) (known_of setup.now) spot party kind index (mem_of store.old)) result store.old store.new }
{
    match index {
        Value::Int(of, n) => feed_index(store, setup, spot, party, kind, of, n),
        _ => Err(odd(spot)),
    }
}

/// What is fed: the private word at an index, or a value that both parties know.
pub fn feed(
    store: &mut Store<'_>,
    setup: &ClearSetup,
    source: Source,
    party: u8,
    kind: IntKind,
    value: Value<i128>,
) -> Result<Value<i128>, Fault>
    ensures { (spot : Spot) → Does (feeds (clear setup.now.first setup.now.second) (known_of setup.now) spot source party kind value (mem_of store.old)) result store.old store.new }
{
    match source {
        Source::Word(at) => feed_word(store, setup, at, party, kind, value),
        Source::Public => Ok(value),
    }
}

/// Shows a hidden value to both parties, which is then a public one.
pub fn reveal(
    store: &mut Store<'_>,
    spot: Spot,
    kind: IntKind,
    value: Value<i128>,
) -> Result<Value<i128>, Fault>
    ensures { Does (reveals bare spot kind value (mem_of store.old)) result store.old store.new }
{
    let Value::Hidden(of, hidden) = value else {
        return Err(odd(spot));
    };
    if !same_kind(kind, of) {
        return Err(odd(spot));
    }
    let shown = convert(hidden, kind);
    store.shown.push(ShownItem::Reveal { kind, value: shown })?;
    Ok(Value::Int(kind, shown))
}

/// Shows a hidden value to one party.
pub fn give(
    store: &mut Store<'_>,
    spot: Spot,
    kind: IntKind,
    party: u8,
    value: Value<i128>,
) -> Result<Value<i128>, Fault>
    ensures { Does (gives bare spot kind party value (mem_of store.old)) result store.old store.new }
{
    let Value::Hidden(of, hidden) = value else {
        return Err(odd(spot));
    };
    if !same_kind(kind, of) {
        return Err(odd(spot));
    }
    store.shown.push(ShownItem::Give {
        party,
        kind,
        value: hidden,
    })?;
    Ok(Value::Nothing)
}

/// The public word of a number.
pub fn public_word(
    store: &Store<'_>,
    setup: &ClearSetup,
    spot: Spot,
    value: Value<i128>,
) -> Result<Value<i128>, Fault>
    ensures { Gives (word_of_all bare (known_of setup.now) spot value (mem_of store.now)) result (mem_of store.now) }
{
    let Value::Int(_, index) = value else {
        return Err(odd(spot));
    };
    match find_word(setup.public.as_slice(), index) {
        Some(word) => Ok(Value::Int(IntKind::I64, convert(word, IntKind::I64))),
        None => Err(trap(TrapKind::I1, spot)),
    }
}

/// The text of a number, converted to a kind, in decimal.
fn push_decimal(
    alloc: Global,
    bytes: &mut Vec<u8>,
    kind: IntKind,
    n: i128,
) -> Result<(), AllocError>
    ensures { OnOk result (bytes.new.items ≡ bytes.old.items ++ signed_decimal (converted n kind)) }
{
    let number = convert(n, kind);
    let text = format!(in alloc; "{number}")?;
    bytes.extend_from_slice(text.as_bytes())
}

/// The byte that is a number modulo 256.
fn byte_of(n: i128) -> u8
    ensures { result ≡ residue 8 n }
{
    n.rem_euclid(256) as u8
}

/// The bytes that the pieces of a format make of these values, where they are as many and public.
pub fn format(
    alloc: Global,
    pieces: &[PrintPiece],
    values: &[Value<i128>],
) -> Result<Option<Vec<u8>>, AllocError>
    ensures { IfOk result (λ made. option_map (λ bytes. bytes.items) made ≡ formatted pieces.now values.now) }
{
    let mut bytes = Vec::new(alloc);
    let mut rest = values;
    for piece in pieces {
        match piece {
            PrintPiece::Text(text) => bytes.extend_from_slice(text.as_bytes())?,
            PrintPiece::Decimal(kind) => match rest {
                [Value::Int(_, n), more @ ..] => {
                    push_decimal(alloc, &mut bytes, *kind, *n)?;
                    rest = more;
                }
                _ => return Ok(None),
            },
            PrintPiece::Byte => match rest {
                [Value::Int(_, n), more @ ..] => {
                    bytes.push(byte_of(*n))?;
                    rest = more;
                }
                _ => return Ok(None),
            },
        }
    }
    if rest.is_empty() {
        Ok(Some(bytes))
    } else {
        Ok(None)
    }
}

/// Shows the text of a print.
pub fn print(store: &mut Store<'_>, spot: Spot, text: Option<Vec<u8>>) -> Result<Value<i128>, Fault>
    ensures { Does (prints bare spot (option_map (λ bytes. bytes.items) text) (mem_of store.old)) result store.old store.new }
{
    match text {
        Some(bytes) => {
            store.shown.push(ShownItem::Print(Name::from_vec(bytes)?))?;
            Ok(Value::Nothing)
        }
        None => Err(odd(spot)),
    }
}
