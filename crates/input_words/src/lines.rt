//! Lines, and the word of one.

ghost use Rattle.std.specs.Prelude.{◌≡◌, ℤ, ◌≤◌, ◌<◌, ◌^◌, ◌∷◌, IfSome, IfNone, length};
ghost use Rattle.input_words.specs.Words.{IsWord, signed};
ghost use Rattle.input_words.specs.Parts.{is_minus, digits_of, decimal_of, fitting};
ghost use Rattle.input_words.specs.Lines.{lines_of};

/// The first line of a text that isn't empty, and the text after it.
pub fn split_line(text: &[u8]) -> (&[u8], &[u8])
    requires { 1 ≤ length text.now }
    ensures lines { lines_of text.now ≡ result.0.now ∷ lines_of result.1.now }
    ensures shorter { length result.1.now < length text.now }
{
    for (at, byte) in text.iter().enumerate() {
        if *byte == b'\n' {
            return (&text[..at], &text[at + 1..]);
        }
    }
    (text, &[])
}

/// Whether a minus stands in front.
fn has_minus(line: &[u8]) -> bool
    ensures { result ≡ is_minus line.now }
{
    !line.is_empty() && line[0] == b'-'
}

/// The bytes after a minus in front.
fn without_sign(line: &[u8]) -> &[u8]
    ensures { result.now ≡ digits_of line.now }
{
    if has_minus(line) { &line[1..] } else { line }
}

/// The number that decimal digits spell, where all are digits.
fn decimal(digits: &[u8]) -> Option<u128>
    requires { length digits.now ≤ 19 }
    ensures value { result ≡ decimal_of digits.now }
    ensures below { IfSome result (λ value. value < 2 ^ 127) }
{
    let mut value = 0u128;
    for digit in digits {
        if !digit.is_ascii_digit() {
            return None;
        }
        value = 10 * value + u128::from(*digit - b'0');
    }
    Some(value)
}

/// The word that a sign and a number make, where it has 64 bits.
fn word_of(minus: bool, value: u128) -> Option<i64>
    requires { value < 2 ^ 127 }
    ensures { result ≡ fitting (signed minus value) }
{
    let number = value as i128;
    let word = if minus { -number } else { number };
    i64::try_from(word).ok()
}

/// The word that a line spells, or none where it spells none.
pub fn read_word(line: &[u8]) -> Option<i64>
    ensures form { IfSome result (λ word. IsWord line.now word) }
    ensures none { IfNone result ((word : ℤ) → IsWord line.now word → ⊥) }
{
    let digits = without_sign(line);
    if digits.is_empty() || digits.len() > 19 {
        return None;
    }
    match decimal(digits) {
        Some(value) => word_of(has_minus(line), value),
        None => None,
    }
}
