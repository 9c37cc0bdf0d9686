//! What surrounds a node of a run.

ghost use Rattle.std.specs.Prelude.{◌≡◌};
ghost use Rattle.std.specs.Option.{option_copied};
ghost use Rattle.oc_typed.specs.Static.{same_spot};
ghost use Rattle.clear_walk.specs.Places.{below, beside, enabled_by};

use oc_cells::SlotType;
use oc_source::Spot;
use oc_typed::{TExpr, TypedFunction};
use oc_values::{Boxed, Items};
use oc_walk::ClearSetup;
use std::alloc::Global;

/// What the nodes of a call share: where memory comes from, the words and the functions of the run, and the call's slots.
#[derive(Drop)]
pub struct Frame<'t> {
    pub alloc: Global,
    pub setup: &'t ClearSetup,
    pub functions: &'t Items<TypedFunction>,
    pub slots: &'t Items<SlotType>,
}

/// Where a node stands: whether hidden writes are enabled, and how many nodes may still hold one another up to a call.
#[derive(Clone, Copy, Debug)]
pub struct At {
    pub enabled: bool,
    pub room: u64,
}

/// The same for a node's parts.
pub fn deeper(at: At) -> At
    ensures { result ≡ below at }
{
    At {
        enabled: at.enabled,
        room: at.room.saturating_sub(1),
    }
}

/// Whether two spots are the same.
fn same_spot(a: Spot, b: Spot) -> bool
    ensures { result ≡ same_spot a b }
{
    a.line == b.line && a.column == b.column
}

/// The same for the part of a conversion: one that the checker added, at its part's spot, counts for nothing.
pub fn lighter(at: At, spot: Spot, part: Spot) -> At
    ensures { result ≡ beside at spot part }
{
    if same_spot(spot, part) {
        at
    } else {
        deeper(at)
    }
}

/// The same under another enable.
pub fn under(at: At, enabled: bool) -> At
    ensures { result ≡ enabled_by at enabled }
{
    At {
        enabled,
        room: at.room,
    }
}

/// What the nodes of a function with these slots share.
pub fn called_in<'t>(frame: &Frame<'t>, slots: &'t Items<SlotType>) -> Frame<'t>
    ensures setup { result.setup.now ≡ frame.now.setup.now }
    ensures functions { result.functions.now ≡ frame.now.functions.now }
    ensures slots { result.slots.now ≡ slots.now }
{
    Frame {
        alloc: frame.alloc,
        setup: frame.setup,
        functions: frame.functions,
        slots,
    }
}

/// An expression that may be left out, lent.
pub fn lent(e: &Option<Boxed<TExpr>>) -> Option<&TExpr>
    ensures { option_copied result ≡ e.now }
{
    match e {
        Some(e) => Some(e.get()),
        None => None,
    }
}
