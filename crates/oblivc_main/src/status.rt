//! How a call ends: its status, with what the line of that status says.

use crate::refusal::Refusal;
use oc_cells::TrapKind;
use oc_source::Spot;

/// The number of `Status::Done`.
pub const DONE: u8 = 0;

/// The number of `Status::Refused`.
pub const REFUSED: u8 = 1;

/// The number of `Status::NoCommand`.
pub const USAGE: u8 = 2;

/// The number of `Status::Trap`.
pub const TRAP: u8 = 3;

/// The number of `Status::Steps`.
pub const STEPS: u8 = 4;

/// The number of `Status::File`.
pub const FILE: u8 = 5;

/// The number of `Status::Dealt`.
pub const DEALT: u8 = 8;

/// The number of `Status::Input`.
pub const INPUT: u8 = 9;

/// The number of `Status::NoMemory`.
pub const NO_MEMORY: u8 = 10;

/// The number of `Status::Output`.
pub const OUTPUT: u8 = 11;

/// How a call ends.
#[derive(Clone, Copy)]
pub enum Status<'w> {
    /// All that was asked for was done.
    Done,
    /// The source is refused.
    Refused(Refusal),
    /// The words aren't a command. The first that begins none with those before it has this number, or there are so many
    /// words and more are wanted.
    NoCommand(usize),
    /// The run met this trap at this spot.
    Trap { kind: TrapKind, spot: Spot },
    /// The run spent its budget of so many steps.
    Steps(u64),
    /// The file of this name is absent, or reading or writing it failed.
    File(&'w str),
    /// The run needed more than the dealt transfers, which are so many.
    Dealt(u32),
    /// The first wrong line of an input file has this number.
    Input(u32),
    NoMemory,
    /// Writing to the output failed.
    Output,
}
