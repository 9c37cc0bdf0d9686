//! The run of a program in the clear.

ghost use Rattle.std.specs.Prelude.{◌≡◌, IfOk, Some, slice_get};
ghost use Rattle.oc_meanings.specs.Clear.{Clear};
ghost use Rattle.clear_walk.specs.Runs.{IsStart, outcome_of};
ghost use Rattle.oc_walk.specs.Walk.{nowhere as start_spot};

use crate::around::{At, Frame};
use crate::nodes::run_function;
use block_memory::Blocks;
use clear_actions::entered::Entered;
use clear_actions::{Fault, Halt, Machine, Store};
use oc_cells::TrapKind;
use oc_source::Spot;
use oc_typed::TypedFunction;
use oc_typing::Typed;
use oc_values::{Items, NoMemory};
use oc_walk::{ClearSetup, Outcome, ShownItem};
use std::alloc::Global;

/// How many cells may live.
const LIVE_LIMIT: u32 = 65_536;

/// How many nodes may hold one another in the function that a program starts with.
const ROOM: u64 = 1_000;

/// What a program shows in the clear, in order, and how it ends.
#[derive(Debug, Drop)]
pub struct ClearRun {
    pub shown: Items<ShownItem>,
    pub outcome: Outcome,
}

/// How a run ends that stops so.
fn outcome_of(halt: Halt) -> Outcome
    ensures { result ≡ outcome_of halt }
{
    match halt {
        Halt::Trap { kind, spot } => Outcome::Trap { kind, spot },
        Halt::StepsSpent => Outcome::StepsSpent,
        Halt::DealtSpent => Outcome::DealtSpent,
        Halt::Odd(spot) => Outcome::Trap {
            kind: TrapKind::M5,
            spot,
        },
    }
}

/// The spot of the call of the function that a program starts with, which is at no node.
fn nowhere() -> Spot
    ensures { result ≡ start_spot }
{
    Spot { line: 0, column: 0 }
}

/// A machine at the start of a run: no block, no slot, nothing shown.
fn start<'t>(
    alloc: Global,
    typed: &'t Typed,
    setup: &'t ClearSetup,
) -> Result<Machine<'t>, NoMemory>
    ensures { IfOk result (λ m. IsStart typed.now.structs setup.now m) }
{
    Ok(Machine {
        store: Store {
            blocks: Blocks::new(alloc, &typed.structs, LIVE_LIMIT)?,
            dealt: u64::from(setup.dealt),
            shown: Items::new(alloc),
        },
        entered: Entered::new(alloc),
        steps: setup.budget,
    })
}

/// Runs the function that a program starts with.
fn run_entry<'t>(
    alloc: Global,
    typed: &'t Typed,
    setup: &'t ClearSetup,
    f: &'t TypedFunction,
) -> Result<ClearRun, NoMemory>
    requires { Some f.now ≡ slice_get typed.now.functions typed.now.entry }
    ensures { IfOk result (λ run. Clear typed.now.structs typed.now.functions typed.now.entry setup.now run.shown run.outcome) }
{
    let frame = Frame {
        alloc,
        setup,
        functions: &typed.functions,
        slots: &f.slots,
    };
    let at = At {
        enabled: true,
        room: ROOM,
    };
    let mut m = start(alloc, typed, setup)?;
    let ended = run_function(&mut m, &frame, at, nowhere(), f, &[]);
    let Machine { store, .. } = m;
    let Store { shown, .. } = store;
    match ended {
        Ok(_) => Ok(ClearRun {
            shown,
            outcome: Outcome::Done,
        }),
        Err(fault) => match fault {
            Fault::Halted(halt) => Ok(ClearRun {
                shown,
                outcome: outcome_of(halt),
            }),
            Fault::NoMemory => Err(NoMemory),
        },
    }
}

/// Runs a program in the clear: on the public words and the words of both parties, with so many dealt transfers, within a
/// budget of steps.
pub fn run_clear<'t>(
    alloc: Global,
    typed: &'t Typed,
    setup: &'t ClearSetup,
) -> Result<ClearRun, NoMemory>
    ensures { IfOk result (λ run. Clear typed.now.structs typed.now.functions typed.now.entry setup.now run.shown run.outcome) }
{
    match typed.functions.get(typed.entry as usize) {
        Some(f) => run_entry(alloc, typed, setup, f),
        None => Ok(ClearRun {
            shown: Items::new(alloc),
            outcome: outcome_of(Halt::Odd(nowhere())),
        }),
    }
}
