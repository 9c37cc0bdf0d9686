//! What a run holds, and why it stops.

use crate::entered::Entered;
use block_memory::Blocks;
use oc_cells::TrapKind;
use oc_source::Spot;
use oc_values::{Items, NoMemory};
use oc_walk::ShownItem;
use std::alloc::AllocError;

/// Why a run stops before its end.
#[derive(Clone, Copy, Debug, PartialEq, Eq)]
pub enum Halt {
    /// This trap was met at this spot.
    Trap { kind: TrapKind, spot: Spot },
    /// A step is needed, and none of the budget is left.
    StepsSpent,
    /// A word of the second party is fed, and too few dealt transfers are left.
    DealtSpent,
    /// A value of another form than the node at this spot wants; no typed program comes here.
    Odd(Spot),
}

/// Why a node of a run has no answer.
#[derive(Clone, Copy, Debug)]
pub enum Fault {
    Halted(Halt),
    NoMemory,
}

impl From<AllocError> for Fault {
    ghost use Rattle.std.specs.Prelude.{◌≡◌};
    ghost use Rattle.clear_actions.specs.declared.machine.Fault.TheVariants.{NoMemory};

    ghost from_gives = { λ _ e. e ≡ NoMemory };

    fn from(_error: AllocError) -> Fault {
        Fault::NoMemory
    }
}

impl From<NoMemory> for Fault {
    ghost use Rattle.std.specs.Prelude.{◌≡◌};
    ghost use Rattle.clear_actions.specs.declared.machine.Fault.TheVariants.{NoMemory as NoMemoryFault};

    ghost from_gives = { λ _ e. e ≡ NoMemoryFault };

    fn from(_error: NoMemory) -> Fault {
        Fault::NoMemory
    }
}

/// What the actions on memory work on: the blocks, the dealt transfers that are left, and what was shown.
#[derive(Drop)]
pub struct Store<'t> {
    pub blocks: Blocks<'t, i128>,
    pub dealt: u64,
    pub shown: Items<ShownItem>,
}

/// The state of a run: its store, the slots that the running call entered, the newest last, and the steps that are left.
#[derive(Drop)]
pub struct Machine<'t> {
    pub store: Store<'t>,
    pub entered: Entered,
    pub steps: u64,
}
