//! The operations, and how many ANDs each makes.

ghost use Rattle.std.specs.Prelude.{◌≡◌, ◌≤◌, IsTrue};
ghost use Rattle.gate_core.specs.Backends.{most_ands};
ghost use Rattle.word_circuits.specs.Fragments.{ands_of};
ghost use Rattle.word_circuits.specs.Widths.{is_width, log2};

/// An operation on words.
#[derive(Clone, Copy, Debug, PartialEq, Eq)]
pub enum WordOp {
    Add,
    Subtract,
    Negate,
    Multiply,
    Quotient,
    SignedQuotient,
    Remainder,
    SignedRemainder,
    Less,
    Equal,
    ToBool,
    Meet,
    Either,
    Differ,
    Flip,
    Select,
    ShiftKnown,
    ShiftWord,
    Resize,
}

/// How many ANDs an operation makes on words of this width, which is 1, 8, 16, 32 or 64.
pub fn ands(op: WordOp, width: u8) -> u32
    requires { IsTrue (is_width width) }
    ensures count { result ≡ ands_of op width }
    ensures most { result ≤ most_ands }
{
    let width = u32::from(width);
    match op {
        WordOp::Differ | WordOp::Flip | WordOp::ShiftKnown | WordOp::Resize => 0,
        WordOp::Add | WordOp::Subtract | WordOp::Negate | WordOp::Equal | WordOp::ToBool => {
            width - 1
        }
        WordOp::Less | WordOp::Meet | WordOp::Either | WordOp::Select => width,
        WordOp::Multiply => width * width - width + 1,
        WordOp::Quotient | WordOp::Remainder => width * (2 * width + 1),
        WordOp::SignedQuotient | WordOp::SignedRemainder => {
            width * (2 * width + 1) + 3 * (width - 1)
        }
        WordOp::ShiftWord => width * places(width as usize) as u32,
    }
}

// How many places of an amount choose among the shifts of a word of this width.
pub(crate) fn places(width: usize) -> usize
    ensures value { result ≡ log2 width }
    ensures small { result ≤ 6 }
{
    match width {
        64 => 6,
        32 => 5,
        16 => 4,
        8 => 3,
        _ => 0,
    }
}
