//! Lowered code: instructions for a machine with a stack of values, an enable and open calls.

use oc_cells::{CType, SlotType};
use oc_source::Spot;
use oc_typed::PrintPiece;
use oc_values::{BinaryOp, IntKind, Items, Name, OneOp};

/// One instruction. A jump says where it goes.
#[derive(Debug, Drop)]
pub enum Instr {
    /// A public integer.
    Push {
        kind: IntKind,
        value: i128,
    },
    /// The null pointer.
    Null,
    /// The address of a slot's variable.
    Var(u64),
    /// An address so many cells further on.
    FieldAt(u32),
    /// A pointer and an amount: the pointer moved by so many elements of this size, forward or `back`.
    Move {
        size: u32,
        back: bool,
    },
    /// Traps where the top is null.
    Check,
    /// The value of the cell at an address.
    Load(CType),
    /// Writes under the enable, and leaves the value that is then in the cell.
    Store(CType),
    /// Writes whatever the enable is, a struct too, and leaves nothing.
    Init(CType),
    /// Copies the struct of this number, and leaves the address.
    Copy(u64),
    /// An operator with two operands, of which one is hidden or both are public.
    Op {
        op: BinaryOp,
        kind: IntKind,
        hidden: bool,
    },
    /// An operator with one operand.
    One {
        op: OneOp,
        kind: IntKind,
        hidden: bool,
    },
    /// Whether two pointers are the same, or where `negated` aren't.
    Same {
        negated: bool,
    },
    /// A conversion, which lifts a public value to a hidden one where `lift`.
    Turn {
        from: IntKind,
        to: IntKind,
        lift: bool,
    },
    /// The newest value once more.
    Dup,
    /// The two newest values in the other order.
    Swap,
    /// The newest value is gone.
    Discard,
    /// On at this place.
    Jump(u64),
    /// On at this place where the newest value is 0.
    JumpZero(u64),
    /// A step of the budget.
    Step,
    /// The variable of a slot begins.
    Enter(u64),
    /// The newest variable ends, which is this slot's.
    Leave(u64),
    /// A function, how many arguments it takes from the stack, and the call's reach.
    Invoke {
        function: u64,
        args: u64,
        reach: u64,
    },
    /// Returns without a value.
    Back,
    /// Returns with the newest value.
    BackValue,
    /// The first part of an `obliv if` begins, under the newest value as its condition.
    When,
    /// The second part begins.
    Otherwise,
    /// Both parts were walked.
    EndWhen,
    /// A `~obliv` block begins, whose name has this slot.
    Always(u64),
    /// It ends.
    EndAlways,
    /// The private word of this number, of a party.
    Feed {
        kind: IntKind,
        party: u8,
    },
    /// A hidden value is shown.
    Reveal {
        kind: IntKind,
    },
    /// A value is shown to one party.
    Give {
        kind: IntKind,
        party: u8,
    },
    /// How many private words a party has.
    Count {
        party: u8,
    },
    /// How many public words there are.
    PublicCount,
    /// The public word of this number.
    PublicWord,
    /// A new block of so many elements.
    Make(CType),
    /// The block of an address ends.
    Free,
    /// Prints, with one argument for each piece that isn't a text.
    Print {
        pieces: Items<PrintPiece>,
    },
}

/// An instruction, with the spot of what it was made of.
#[derive(Debug, Drop)]
pub struct Line {
    pub spot: Spot,
    pub instr: Instr,
}

/// The code of a function, whose first `params` slots are its parameters.
#[derive(Debug, Drop)]
pub struct CodeFunction {
    pub name: Name,
    pub slots: Items<SlotType>,
    pub params: u64,
    pub obliv: bool,
    pub code: Items<Line>,
}
