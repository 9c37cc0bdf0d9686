//! Laws of the operations' lists of gates, each the contract of a function that does nothing.

ghost use Rattle.std.specs.Prelude.{ℕ};
ghost use Rattle.word_circuits.specs.Fragments.{Operation};
ghost use Rattle.word_circuits.specs.Operators.{BinaryMeans, UnaryMeans, ConversionMeans, ChoiceMeans, KnownShiftMeans, HasAnds, HasWidth};

/// The truth of each operation's gates at the operands' bits is the language's integer.
pub fn fragments_compute()
    ensures binary { BinaryMeans }
    ensures unary { UnaryMeans }
    ensures conversion { ConversionMeans }
    ensures choice { ChoiceMeans }
    ensures known_shift { KnownShiftMeans }
{}

/// Each operation's gates have as many ANDs as the table says.
pub fn fragments_have_ands()
    ensures { (op : Operation) (w : ℕ) → HasAnds op w }
{}

/// Each operation's gates give as many wires as are said.
pub fn fragments_have_widths()
    ensures { (op : Operation) (w : ℕ) → HasWidth op w }
{}
