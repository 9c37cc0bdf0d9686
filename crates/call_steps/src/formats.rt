//! The formats of prints.

ghost use Rattle.std.specs.Prelude.{◌≡◌, ◌++◌, [], ◌∷◌, ℕ, List, IfOk, OnOk, Some};
ghost use Rattle.type_rules.specs.Prints.{format_of, with_piece};
ghost use Rattle.call_steps.specs.Printed.{format_seen};
ghost use Rattle.call_steps.specs.Formats.{format_from, turned, piece_of, read_before, bytes_before, read_with, may_end};

use oc_typed::PrintPiece;
use oc_values::{IntKind, Items, Name, NoMemory};
use std::alloc::Global;

/// What has been read of a conversion; where no format goes on so, it is broken.
#[derive(Clone, Copy, Debug)]
pub enum Reading {
    Outside,
    Percent,
    Long,
    LongLong,
    Broken,
}

/// A format as far as it is one, and whether it is one to its end.
#[derive(Drop)]
pub struct Format {
    pub pieces: Items<PrintPiece>,
    pub good: bool,
}

/// What a byte of a format does.
#[derive(Clone, Copy, Debug)]
pub enum Turn {
    /// It is text.
    Text,
    /// It goes on with a conversion, or breaks the format.
    On(Reading),
    /// It ends a conversion to decimal.
    Decimal(IntKind),
    /// It ends the conversion to a byte.
    Byte,
}

/// What was read of a format: pieces, then text that isn't a piece yet.
#[derive(Drop)]
pub struct Reader {
    pub pieces: Items<PrintPiece>,
    pub text: Vec<u8>,
    pub reading: Reading,
}

fn turn_outside(byte: u8) -> Turn
    ensures { (bs : List ℕ) → format_from Reading.Outside (byte ∷ bs) ≡ turned result byte bs }
{
    if byte == b'%' {
        Turn::On(Reading::Percent)
    } else {
        Turn::Text
    }
}

fn turn_percent(byte: u8) -> Turn
    ensures { (bs : List ℕ) → format_from Reading.Percent (byte ∷ bs) ≡ turned result byte bs }
{
    if byte == b'%' {
        Turn::Text
    } else if byte == b'd' {
        Turn::Decimal(IntKind::I32)
    } else if byte == b'u' {
        Turn::Decimal(IntKind::U32)
    } else if byte == b'c' {
        Turn::Byte
    } else if byte == b'l' {
        Turn::On(Reading::Long)
    } else {
        Turn::On(Reading::Broken)
    }
}

fn turn_long(byte: u8) -> Turn
    ensures { (bs : List ℕ) → format_from Reading.Long (byte ∷ bs) ≡ turned result byte bs }
{
    if byte == b'd' {
        Turn::Decimal(IntKind::I64)
    } else if byte == b'u' {
        Turn::Decimal(IntKind::U64)
    } else if byte == b'l' {
        Turn::On(Reading::LongLong)
    } else {
        Turn::On(Reading::Broken)
    }
}

fn turn_long_long(byte: u8) -> Turn
    ensures { (bs : List ℕ) → format_from Reading.LongLong (byte ∷ bs) ≡ turned result byte bs }
{
    if byte == b'd' {
        Turn::Decimal(IntKind::I64)
    } else if byte == b'u' {
        Turn::Decimal(IntKind::U64)
    } else {
        Turn::On(Reading::Broken)
    }
}

/// What a byte does where so much of a conversion has been read.
fn turn_at(reading: Reading, byte: u8) -> Turn
    ensures { (bs : List ℕ) → format_from reading (byte ∷ bs) ≡ turned result byte bs }
{
    match reading {
        Reading::Outside => turn_outside(byte),
        Reading::Percent => turn_percent(byte),
        Reading::Long => turn_long(byte),
        Reading::LongLong => turn_long_long(byte),
        Reading::Broken => Turn::On(Reading::Broken),
    }
}

/// Makes a piece of the text that was read, if there is any.
fn flush(alloc: Global, pieces: &mut Items<PrintPiece>, text: &[u8]) -> Result<(), NoMemory>
    ensures { OnOk result (pieces.new ≡ pieces.old ++ bytes_before text.now []) }
{
    let length = text.len();
    if length == 0 {
        return Ok(());
    }
    pieces.push(PrintPiece::Text(Name::from_bytes(alloc, text)?))?;
    Ok(())
}

/// Ends a conversion to decimal or to a byte.
fn end_piece(alloc: Global, reader: Reader, kind: Option<IntKind>) -> Result<Reader, NoMemory>
    ensures { IfOk result (λ r. (bs : List ℕ) → read_with r bs ≡ read_before reader.pieces reader.text.items (with_piece (piece_of kind) (format_from Reading.Outside bs))) }
{
    let Reader {
        mut pieces,
        mut text,
        reading: _,
    } = reader;
    flush(alloc, &mut pieces, text.as_slice())?;
    text.clear();
    pieces.push(new_piece(kind))?;
    Ok(Reader {
        pieces,
        text,
        reading: Reading::Outside,
    })
}

/// The conversion to decimal by a kind, or to a byte.
fn new_piece(kind: Option<IntKind>) -> PrintPiece
    ensures { result ≡ piece_of kind }
{
    match kind {
        Some(kind) => PrintPiece::Decimal(kind),
        None => PrintPiece::Byte,
    }
}

/// A byte of text.
fn add_text(reader: Reader, byte: u8) -> Result<Reader, NoMemory>
    ensures { IfOk result (λ r. (bs : List ℕ) → read_with r bs ≡ read_before reader.pieces reader.text.items (turned Turn.Text byte bs)) }
{
    let Reader {
        pieces,
        mut text,
        reading: _,
    } = reader;
    text.push(byte)?;
    Ok(Reader {
        pieces,
        text,
        reading: Reading::Outside,
    })
}

/// A byte that goes on with a conversion.
fn go_on(reader: Reader, reading: Reading) -> Reader
    ensures { (bs : List ℕ) → read_with result bs ≡ read_before reader.pieces reader.text.items (format_from reading bs) }
{
    let Reader {
        pieces,
        text,
        reading: _,
    } = reader;
    Reader {
        pieces,
        text,
        reading,
    }
}

/// What was read with a byte more that does this.
fn read_turn(alloc: Global, reader: Reader, turn: Turn, byte: u8) -> Result<Reader, NoMemory>
    ensures { IfOk result (λ r. (bs : List ℕ) → read_with r bs ≡ read_before reader.pieces reader.text.items (turned turn byte bs)) }
{
    match turn {
        Turn::Text => add_text(reader, byte),
        Turn::On(reading) => Ok(go_on(reader, reading)),
        Turn::Decimal(kind) => end_piece(alloc, reader, Some(kind)),
        Turn::Byte => end_piece(alloc, reader, None),
    }
}

/// What was read with a byte more.
fn read_byte(alloc: Global, reader: Reader, byte: u8) -> Result<Reader, NoMemory>
    ensures { IfOk result (λ r. (bs : List ℕ) → read_with r bs ≡ read_with reader (byte ∷ bs)) }
{
    let turn = turn_at(reader.reading, byte);
    read_turn(alloc, reader, turn, byte)
}

/// Whether a format may end where so much of a conversion has been read.
fn may_end(reading: Reading) -> bool
    ensures { result ≡ may_end reading }
{
    matches!(reading, Reading::Outside)
}

/// The format that was read.
fn finish(alloc: Global, reader: Reader) -> Result<Format, NoMemory>
    ensures { IfOk result (λ f. format_seen f ≡ read_with reader []) }
{
    let Reader {
        mut pieces,
        text,
        reading,
    } = reader;
    flush(alloc, &mut pieces, text.as_slice())?;
    Ok(Format {
        pieces,
        good: may_end(reading),
    })
}

/// Nothing that was read.
fn new_reader(alloc: Global) -> Reader
    ensures { (bs : List ℕ) → read_with result bs ≡ format_from Reading.Outside bs }
{
    let pieces = Items::new(alloc);
    let text = Vec::new(alloc);
    let reading = Reading::Outside;
    Reader {
        pieces,
        text,
        reading,
    }
}

/// The format that a text is, as far as it is one.
pub fn read_format(alloc: Global, text: &[u8]) -> Result<Format, NoMemory>
    ensures { IfOk result (λ f. format_seen f ≡ format_of (Some text.now)) }
{
    let mut reader = new_reader(alloc);
    for byte in text {
        reader = read_byte(alloc, reader, *byte)?;
    }
    finish(alloc, reader)
}
