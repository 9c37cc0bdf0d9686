//! Bytes of a source.

ghost use Rattle.std.specs.Prelude.{◌≡◌, get_or, length};
ghost use Rattle.oc_lexer.specs.Bytes.{is_digit, is_in, is_name_byte, is_name_start, is_space, run, after};

/// A class of bytes.
#[derive(Clone, Copy, Debug)]
pub enum ByteClass {
    /// A blank within a line: a tab, a vertical tab, a form feed, a carriage return or a space.
    Space,
    /// A byte of a name: an ASCII letter, a digit or `_`.
    Name,
    /// A byte that goes on with a number: a letter, a digit, `_` or `.`.
    Number,
    Decimal,
    Octal,
    Hexadecimal,
    /// Any byte but a newline.
    Line,
}

impl ByteClass {
    /// Whether a byte is of the class.
    pub fn contains(self, byte: u8) -> bool
        ensures { result ≡ is_in self byte }
    {
        match self {
            ByteClass::Space => is_space(byte),
            ByteClass::Name => is_name_byte(byte),
            ByteClass::Number => is_name_byte(byte) || byte == b'.',
            ByteClass::Decimal => is_digit(byte),
            ByteClass::Octal => b'0' <= byte && byte <= b'7',
            ByteClass::Hexadecimal => {
                is_digit(byte) || (b'A' <= byte && byte <= b'F') || (b'a' <= byte && byte <= b'f')
            }
            ByteClass::Line => byte != b'\n',
        }
    }
}

/// Whether the byte is a blank within a line.
pub fn is_space(byte: u8) -> bool
    ensures { result ≡ is_space byte }
{
    byte == b'\t' || (0x0B <= byte && byte <= b'\r') || byte == b' '
}

/// Whether the byte is a decimal digit.
pub fn is_digit(byte: u8) -> bool
    ensures { result ≡ is_digit byte }
{
    b'0' <= byte && byte <= b'9'
}

/// Whether a name may begin with the byte: an ASCII letter or `_`.
pub fn is_name_start(byte: u8) -> bool
    ensures { result ≡ is_name_start byte }
{
    (b'A' <= byte && byte <= b'Z') || (b'a' <= byte && byte <= b'z') || byte == b'_'
}

/// Whether the byte may stand in a name.
pub fn is_name_byte(byte: u8) -> bool
    ensures { result ≡ is_name_byte byte }
{
    is_name_start(byte) || is_digit(byte)
}

/// The byte at an index, or 0 where the text is shorter.
pub fn byte_at(text: &[u8], index: usize) -> u8
    ensures { result ≡ get_or text.now index 0 }
{
    if index < text.len() { text[index] } else { 0 }
}

/// How many bytes of a class the text begins with.
fn run_length(class: ByteClass, text: &[u8]) -> usize
    ensures { result ≡ length (run (is_in class) text.now) }
{
    for (index, byte) in text.iter().enumerate() {
        if !class.contains(*byte) {
            return index;
        }
    }
    text.len()
}

/// The bytes of a class that the text begins with, and what follows them.
#[tactic(auto, using(crate::proofs::Runs::run_within, crate::proofs::Runs::take_run, crate::proofs::Runs::drop_run))]
pub fn split_run(class: ByteClass, text: &[u8]) -> (&[u8], &[u8])
    ensures run { result.0.now ≡ run (is_in class) text.now }
    ensures after { result.1.now ≡ after (is_in class) text.now }
{
    text.split_at(run_length(class, text))
}
