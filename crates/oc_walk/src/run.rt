//! What a run works on, and what it shows.

use oc_cells::{Address, TrapKind};
use oc_source::Spot;
use oc_values::{IntKind, Items, Name};

/// How a run ends.
#[derive(Clone, Copy, Debug, PartialEq, Eq)]
pub enum Outcome {
    /// The program's end was reached.
    Done,
    /// This trap was met at this spot.
    Trap { kind: TrapKind, spot: Spot },
    /// A step is needed, and none of the budget is left.
    StepsSpent,
    /// A word of the second party is fed, and too few dealt transfers are left.
    DealtSpent,
}

/// The value of an expression. `H` is what a hidden integer is to the run.
#[derive(Clone, Copy, Debug)]
pub enum Value<H> {
    /// A public integer, which is a value of its kind.
    Int(IntKind, i128),
    /// Where a pointer leads, or where a struct stands.
    Pointer(Address),
    /// A hidden integer of a kind.
    Hidden(IntKind, H),
    /// What a call without a value leaves.
    Nothing,
}

/// How a statement goes on.
#[derive(Clone, Copy, Debug)]
pub enum Flow<H> {
    /// With the statement after it.
    Next,
    /// Behind the loop.
    Break,
    /// With the loop's next round.
    Continue,
    /// The call ends with this value.
    Back(Value<H>),
}

/// What the argument of a feed is.
#[derive(Clone, Copy, Debug)]
pub enum Source {
    /// A private word, with the spot of its `ocPrivate`.
    Word(Spot),
    /// A public value, which both parties know.
    Public,
}

/// A slot that a call entered, with the number of its block.
#[derive(Clone, Copy, Debug, PartialEq, Eq)]
pub struct Named {
    pub slot: u64,
    pub block: u64,
}

/// What a run shows.
#[derive(Debug, Drop)]
pub enum ShownItem {
    /// The text of one `printf`.
    Print(Name),
    /// A value that is revealed to both parties.
    Reveal {
        kind: IntKind,
        value: i128,
    },
    /// A result for one party, 1 or 2.
    Give {
        party: u8,
        kind: IntKind,
        value: i128,
    },
}

/// What a run in the clear starts from: the public words, the private words of both parties, the number
/// of dealt transfers and the step budget.
#[derive(Debug, Drop)]
pub struct ClearSetup {
    pub public: Items<i64>,
    pub first: Items<i64>,
    pub second: Items<i64>,
    pub dealt: u32,
    pub budget: u64,
}
