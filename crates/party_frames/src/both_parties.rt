//! A run of both parties in one process: who moves, what comes of it, and why it stops early.

use oc_values::Items;

/// A move of a run of both parties.
#[derive(Clone, Copy, Debug, PartialEq, Eq)]
pub enum Move {
    /// The first party goes on.
    Advance1,
    /// The second party goes on.
    Advance2,
    /// At most so many bytes go from the first party's outbox to the second's inbox.
    Carry12(u32),
    /// At most so many bytes go from the second party's outbox to the first's inbox.
    Carry21(u32),
}

/// What a run of both parties comes to, where both end.
#[derive(Debug, Drop)]
pub struct Duet<O> {
    /// All bytes that the first party wrote.
    pub sent1: Items<u8>,
    /// All bytes that the second party wrote.
    pub sent2: Items<u8>,
    /// All bytes that the first party printed.
    pub printed1: Items<u8>,
    /// All bytes that the second party printed.
    pub printed2: Items<u8>,
    /// How the program ended, at both.
    pub outcome: O,
}

/// Why a run of both parties doesn't come to its end.
#[derive(Clone, Copy, Debug, PartialEq, Eq)]
pub enum DuetFault {
    /// All moves were made, and not both parties have ended.
    MovesSpent { ended1: bool, ended2: bool },
    /// The first 53 payload bytes of the two Hello frames differ: those of the second party, and those of the first.
    SetupDiffers { mine: [u8; 53], theirs: [u8; 53] },
    /// Want of memory, which no clause ties to a cause.
    NoMemory,
}
