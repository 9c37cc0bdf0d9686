//! Numbers.

ghost use Rattle.std.specs.Prelude.{◌≡◌, ◌≤◌, ◌^◌, MatchOption, length, map};
ghost use Rattle.std.specs.Map.{lookup};
ghost use Rattle.std.specs.Str.{bytes_eq};
ghost use Rattle.oc_source.specs.Literals.{holds};
ghost use Rattle.oc_lexer.specs.Numbers.{base_of, digit_class, digit_value, kinds_of, value_of};
ghost use Rattle.oc_lexer.specs.ScannedNumbers.{digits_of, first_holding, form_of, literal_of, literal_with, prefix_length, suffix_of, suffix_text};

use crate::bytes::{ByteClass, byte_at, split_run};
use oc_source::Literal;
use oc_values::IntKind;

/// How the digits of a number are read.
#[derive(Clone, Copy, Debug, PartialEq, Eq)]
pub enum Form {
    Decimal,
    /// After a leading 0.
    Octal,
    /// After `0x` or `0X`.
    Hexadecimal,
}

/// What follows the digits of a number: `u`, and `l` or `ll`.
#[derive(Clone, Copy, Debug, PartialEq, Eq)]
pub struct Suffix {
    pub unsigned: bool,
    pub long: bool,
}

const PLAIN: Suffix = Suffix {
    unsigned: false,
    long: false,
};

const UNSIGNED: Suffix = Suffix {
    unsigned: true,
    long: false,
};

const LONG: Suffix = Suffix {
    unsigned: false,
    long: true,
};

const UNSIGNED_LONG: Suffix = Suffix {
    unsigned: true,
    long: true,
};

/// The suffixes, each with what it says. `lL` and `Ll` are none.
const SUFFIXES: [(&[u8], Suffix); 23] = [
    (b"", PLAIN),
    (b"u", UNSIGNED),
    (b"U", UNSIGNED),
    (b"l", LONG),
    (b"L", LONG),
    (b"ll", LONG),
    (b"LL", LONG),
    (b"ul", UNSIGNED_LONG),
    (b"uL", UNSIGNED_LONG),
    (b"ull", UNSIGNED_LONG),
    (b"uLL", UNSIGNED_LONG),
    (b"Ul", UNSIGNED_LONG),
    (b"UL", UNSIGNED_LONG),
    (b"Ull", UNSIGNED_LONG),
    (b"ULL", UNSIGNED_LONG),
    (b"lu", UNSIGNED_LONG),
    (b"Lu", UNSIGNED_LONG),
    (b"llu", UNSIGNED_LONG),
    (b"LLu", UNSIGNED_LONG),
    (b"lU", UNSIGNED_LONG),
    (b"LU", UNSIGNED_LONG),
    (b"llU", UNSIGNED_LONG),
    (b"LLU", UNSIGNED_LONG),
];

impl Form {
    fn base(self) -> u64
        ensures { result ≡ base_of self }
    {
        match self {
            Form::Decimal => 10,
            Form::Octal => 8,
            Form::Hexadecimal => 16,
        }
    }

    fn prefix_length(self) -> usize
        ensures { result ≡ prefix_length self }
    {
        match self {
            Form::Decimal | Form::Octal => 0,
            Form::Hexadecimal => 2,
        }
    }

    fn digit_class(self) -> ByteClass
        ensures { result ≡ digit_class self }
    {
        match self {
            Form::Decimal => ByteClass::Decimal,
            Form::Octal => ByteClass::Octal,
            Form::Hexadecimal => ByteClass::Hexadecimal,
        }
    }

    /// The form of a number, as its first bytes tell.
    fn of(text: &[u8]) -> Form
        ensures value { result ≡ form_of text.now }
        ensures within { prefix_length result ≤ length text.now }
    {
        if byte_at(text, 0) != b'0' {
            return Form::Decimal;
        }
        let second = byte_at(text, 1);
        if second == b'x' || second == b'X' {
            Form::Hexadecimal
        } else {
            Form::Octal
        }
    }
}

/// The digits of a number, and what follows them.
fn split_number(form: Form, text: &[u8]) -> (&[u8], &[u8])
    requires { form ≡ form_of text.now }
    ensures digits { result.0.now ≡ digits_of text.now }
    ensures suffix { result.1.now ≡ suffix_text text.now }
{
    let (_, body) = text.split_at(form.prefix_length());
    split_run(form.digit_class(), body)
}

/// What the suffix among these says that a text is.
fn find_suffix(suffixes: &[(&[u8], Suffix)], text: &[u8]) -> Option<Suffix>
    ensures { result ≡ lookup (bytes_eq text.now) (map (λ s. (s.0.now, s.1)) suffixes.now) }
{
    for (spelling, suffix) in suffixes {
        if text == *spelling {
            return Some(*suffix);
        }
    }
    None
}

/// The suffix of a number, none where the text is no number.
#[tactic(auto, unfolding(crate::specs::ScannedNumbers::suffix_of))]
pub fn suffix_of(text: &[u8]) -> Option<Suffix>
    ensures { result ≡ suffix_of text.now }
{
    let (digits, suffix) = split_number(Form::of(text), text);
    if digits.is_empty() {
        None
    } else {
        find_suffix(&SUFFIXES, suffix)
    }
}

/// The value of a digit.
fn digit_value(byte: u8) -> u64
    ensures { result ≡ digit_value byte }
{
    if byte <= b'9' {
        u64::from(byte.saturating_sub(b'0'))
    } else if byte <= b'F' {
        u64::from(byte.saturating_sub(b'A' - 10))
    } else {
        u64::from(byte.saturating_sub(b'a' - 10))
    }
}

/// The value of some digits, none where it is over 2^64 - 1.
fn value_of(form: Form, digits: &[u8]) -> Option<u64>
    ensures { MatchOption result (2 ^ 64 ≤ value_of (base_of form) digits.now) (λ v. v ≡ value_of (base_of form) digits.now) }
{
    let mut value: u64 = 0;
    for byte in digits {
        value = value
            .checked_mul(form.base())?
            .checked_add(digit_value(*byte))?;
    }
    Some(value)
}

/// Whether a value is of the kind.
fn holds(kind: IntKind, value: u64) -> bool
    ensures { result ≡ holds kind value }
{
    match kind {
        IntKind::Bool => value <= 1,
        IntKind::I8 => value <= 0x7F,
        IntKind::U8 => value <= 0xFF,
        IntKind::I16 => value <= 0x7FFF,
        IntKind::U16 => value <= 0xFFFF,
        IntKind::I32 => value <= 0x7FFF_FFFF,
        IntKind::U32 => value <= 0xFFFF_FFFF,
        IntKind::I64 => value <= 0x7FFF_FFFF_FFFF_FFFF,
        IntKind::U64 => true,
    }
}

/// The kinds that a number may have, in the order in which they are tried.
fn kinds_of(form: Form, suffix: Suffix) -> &'static [IntKind]
    ensures { result.now ≡ kinds_of form suffix }
{
    match (suffix.unsigned, suffix.long, form) {
        (true, true, _) => &[IntKind::U64],
        (true, false, _) => &[IntKind::U32, IntKind::U64],
        (false, true, Form::Decimal) => &[IntKind::I64],
        (false, true, _) => &[IntKind::I64, IntKind::U64],
        (false, false, Form::Decimal) => &[IntKind::I32, IntKind::I64],
        (false, false, _) => &[IntKind::I32, IntKind::U32, IntKind::I64, IntKind::U64],
    }
}

/// The first of the kinds that holds a value.
fn first_holding(kinds: &[IntKind], value: u64) -> Option<IntKind>
    ensures { result ≡ first_holding kinds.now value }
{
    for kind in kinds {
        if holds(*kind, value) {
            return Some(*kind);
        }
    }
    None
}

/// The literal of a value that is written in this form and with this suffix.
fn literal_with(form: Form, suffix: Suffix, value: u64) -> Option<Literal>
    ensures { result ≡ literal_with (Some suffix) form value }
{
    let kind = first_holding(kinds_of(form, suffix), value)?;
    Some(Literal { kind, value })
}

/// The literal that a text spells, none where it is no number or no kind holds it.
#[tactic(auto, unfolding(crate::specs::ScannedNumbers::literal_of))]
pub fn literal_of(text: &[u8]) -> Option<Literal>
    ensures { result ≡ literal_of text.now }
{
    let suffix = suffix_of(text)?;
    let form = Form::of(text);
    let (digits, _) = split_number(form, text);
    literal_with(form, suffix, value_of(form, digits)?)
}
