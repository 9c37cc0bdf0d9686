//! The forms of words.

ghost use Rattle.std.specs.Prelude.{◌≡◌, length};
ghost use Rattle.std.specs.List.{list_all};
ghost use Rattle.command_grammar.specs.Forms.{fits, is_decimal_to, is_digit, is_hex_digit, is_key, is_integer_list, is_signed, has_minus, number_to, parts};

/// The most that an integer of a list can be.
const MOST: u64 = 9_223_372_036_854_775_807;

/// How many integers a list has at most.
const INTEGERS: usize = 65_536;

/// How many digits an integer of a list has at most.
const DIGITS: usize = 19;

/// The form of a word.
#[derive(Clone, Copy, Debug, PartialEq, Eq)]
pub enum WordForm {
    /// Any word.
    Any,
    /// Decimal digits, without a 0 in front of others, that spell a number of this range.
    Number { least: u64, most: u64 },
    /// 64 hexadecimal digits.
    Key,
    /// 1 to 65,536 integers with commas between them. Each is 1 to 19 decimal digits, with or without a minus in
    /// front, of a value from -2^63 to 2^63 - 1.
    IntegerList,
}

fn is_digit(b: u8) -> bool
    ensures { result ≡ is_digit b }
{
    b.is_ascii_digit()
}

fn is_hex_digit(b: u8) -> bool
    ensures { result ≡ is_hex_digit b }
{
    b.is_ascii_hexdigit()
}

/// The number that decimal digits spell, where all are digits and it is at most this.
pub fn number_to(most: u64, digits: &[u8]) -> Option<u64>
    ensures { result ≡ number_to most digits.now }
{
    let mut value = 0u64;
    for digit in digits {
        if !is_digit(*digit) {
            return None;
        }
        let next = 10 * u128::from(value) + u128::from(*digit - b'0');
        if next > u128::from(most) {
            return None;
        }
        value = next as u64;
    }
    Some(value)
}

/// Whether a word is digits without a 0 in front of others, of a number of this range.
fn is_number(least: u64, most: u64, word: &[u8]) -> bool
    ensures { result ≡ fits (WordForm.Number least most) word.now }
{
    if word.is_empty() || (word.len() >= 2 && word[0] == b'0') {
        return false;
    }
    match number_to(most, word) {
        Some(value) => least <= value,
        None => false,
    }
}

/// Whether a word is 1 to 19 digits, of a number that is at most this.
fn is_decimal_to(most: u64, word: &[u8]) -> bool
    ensures { result ≡ is_decimal_to most word.now }
{
    !word.is_empty() && word.len() <= DIGITS && number_to(most, word).is_some()
}

/// Whether a minus stands in front.
fn has_minus(word: &[u8]) -> bool
    ensures { result ≡ has_minus word.now }
{
    !word.is_empty() && word[0] == b'-'
}

/// Whether a word is 1 to 19 digits, with or without a minus in front, of a value of 64 bits.
pub fn is_signed(word: &[u8]) -> bool
    ensures { result ≡ is_signed word.now }
{
    if has_minus(word) {
        is_decimal_to(MOST + 1, &word[1..])
    } else {
        is_decimal_to(MOST, word)
    }
}

/// How many parts a word has between commas.
fn part_count(word: &[u8]) -> usize
    ensures { result ≡ length (parts word.now) }
{
    word.split(|b| *b == b',').count()
}

/// Whether each part of a word between commas is such an integer.
fn are_signed(word: &[u8]) -> bool
    ensures { result ≡ list_all is_signed (parts word.now) }
{
    word.split(|b| *b == b',').all(|part| is_signed(part))
}

/// Whether a word is a list of 1 to 65,536 such integers.
fn is_integer_list(word: &[u8]) -> bool
    ensures { result ≡ is_integer_list word.now }
{
    part_count(word) <= INTEGERS && are_signed(word)
}

/// Whether a word has no other bytes than hexadecimal digits.
fn are_hex_digits(word: &[u8]) -> bool
    ensures { result ≡ list_all is_hex_digit word.now }
{
    word.iter().all(|b| is_hex_digit(*b))
}

/// Whether a word is 64 hexadecimal digits.
fn is_key(word: &[u8]) -> bool
    ensures { result ≡ is_key word.now }
{
    word.len() == 64 && are_hex_digits(word)
}

/// Whether a word has a form.
pub fn fits(form: WordForm, word: &str) -> bool
    ensures { result ≡ fits form word.now }
{
    match form {
        WordForm::Any => true,
        WordForm::Number { least, most } => is_number(least, most, word.as_bytes()),
        WordForm::Key => is_key(word.as_bytes()),
        WordForm::IntegerList => is_integer_list(word.as_bytes()),
    }
}
