//! The stack of entries that counts what is open.

ghost use Rattle.std.specs.Prelude.{◌≡◌, ◌+◌, ◌≤◌};
ghost use Rattle.std.specs.List.{All};
ghost use Rattle.oc_parser.specs.Load.{total};

use oc_values::Items;

/// What a token does to the stack.
#[derive(Clone, Copy)]
pub enum Effect {
    /// `(` or `[`
    Open,
    /// `)` or `]`
    Close,
    /// `{`
    Enter,
    /// `}`
    Leave,
    /// `;`
    Finish,
    Nothing,
}

/// How many tokens an entry counts, and how many brackets are open in it.
#[derive(Clone, Copy)]
pub struct Entry {
    pub count: u32,
    pub opened: u32,
}

/// The stack: its top entry, those below it with the nearest one last, and the sum of all counts.
#[derive(Drop)]
pub struct Counts {
    pub top: Entry,
    pub below: Items<Entry>,
    pub sum: u32,
    ghost summed: { sum ≡ top.count + total below },
    ghost narrow: { top.opened ≤ top.count },
    ghost all_narrow: { All (λ e. e.opened ≤ e.count) below },
}
