//! Why a half can't be read.

ghost use Rattle.std.specs.Prelude.{◌≡◌};
ghost use Rattle.dealt_transfer.specs.declared.fault.HalfFault.TheVariants.{NoMemory as NoMemoryFault};

use oc_values::NoMemory;

/// What is wrong with the form of a half's file.
#[derive(Clone, Copy, Debug, PartialEq, Eq)]
pub enum HalfRule {
    /// The magic is another.
    H1,
    /// The version is another.
    H2,
    /// The file is too short or too long, or counts more than 1,048,576 transfers.
    H3,
    /// A bit behind the last one, in the same byte, is 1.
    H4,
}

/// Why a half can't be read.
#[derive(Clone, Copy, Debug, PartialEq, Eq)]
pub enum HalfFault {
    /// The first fault of the file's form, and the byte at which it is.
    Form { rule: HalfRule, offset: u64 },
    /// Want of memory, which no clause ties to a cause.
    NoMemory,
}

impl From<NoMemory> for HalfFault {
    ghost from_gives = { λ _ fault. fault ≡ NoMemoryFault };

    fn from(_error: NoMemory) -> HalfFault {
        HalfFault::NoMemory
    }
}
