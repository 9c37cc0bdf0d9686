//! Steps, and the variables of the running call.

ghost use Rattle.std.specs.Prelude.{◌≡◌, ◌<◌, ◌-◌, ℕ, suc, [], length, reverse, IfOk};
ghost use Rattle.oc_cells.specs.Memory.{ended};
ghost use Rattle.oc_walk.specs.Walking.{step, close, finish};
ghost use Rattle.oc_walk.specs.Cells.{slot as slot_place, opens};
ghost use Rattle.clear_actions.specs.Acting.{bare, state_of, Gives, Moves, MovesWithin, SameBlocks};

use crate::cells::{make_cells, odd};
use crate::entered::Entered;
use crate::machine::{Fault, Halt, Machine, Store};
use oc_cells::{Address, CType};
use oc_source::Spot;
use oc_walk::Named;
use std::alloc::Global;
use std::mem;

/// One step of the budget.
pub fn spend(machine: &mut Machine<'_>) -> Result<(), Fault>
    ensures moves { Moves step result machine.old machine.new }
    ensures spends { IfOk result (λ _. machine.new.steps < machine.old.steps) }
{
    if machine.steps == 0 {
        return Err(Fault::Halted(Halt::StepsSpent));
    }
    machine.steps -= 1;
    Ok(())
}

/// Where the variable of a slot stands.
pub fn find_slot(machine: &Machine<'_>, spot: Spot, slot: u64) -> Result<Address, Fault>
    ensures { Gives (slot_place bare spot slot (state_of machine.now)) result (state_of machine.now) }
{
    match machine.entered.find(slot) {
        Some(block) => Ok(Address::At { block, offset: 0 }),
        None => Err(odd(spot)),
    }
}

/// A new variable of zero cells, whose slot's number stands for it from now on: its block.
pub fn make_variable<'t>(
    machine: &mut Machine<'t>,
    spot: Spot,
    ty: &'t CType,
    slot: u64,
) -> Result<u64, Fault>
    ensures { MovesWithin (opens bare spot machine.old.store.blocks.structs ty.now slot) result machine.old machine.new }
{
    if !machine.store.blocks.has_size(ty) {
        return Err(odd(spot));
    }
    let block = make_cells(&mut machine.store, spot, ty, 1, false)?;
    machine.entered.push(Named { slot, block })?;
    Ok(block)
}

/// The block of a variable is gone, also where it was before.
fn end_block(store: &mut Store<'_>, block: u64)
    ensures { store.new ≡ record store.old { blocks = record store.old.blocks { blocks = ended store.old.blocks.blocks block } } }
{
    if store.blocks.is_live(block) {
        store.blocks.end_block(block);
    }
}

/// The newest slot is left, if there is one, and the block of its variable is gone.
fn close_newest(machine: &mut Machine<'_>)
    ensures closes { (n : ℕ) → close (suc n) (state_of machine.old) ≡ close n (state_of machine.new) }
    ensures same { SameBlocks machine.old.store machine.new.store }
{
    if let Some(named) = machine.entered.pop() {
        end_block(&mut machine.store, named.block);
    }
}

/// The newest slots are left, so that this many stay, and the blocks of their variables are gone.
pub fn close_slots(machine: &mut Machine<'_>, count: u64)
    ensures closes { state_of machine.new ≡ close (length machine.old.entered - count) (state_of machine.old) }
    ensures same { SameBlocks machine.old.store machine.new.store }
{
    let excess = (machine.entered.len() as u64).saturating_sub(count);
    for _ in 0..excess {
        close_newest(machine);
    }
}

/// Begins a call, in which no slot is entered yet: the caller's slots, for `end_call`. Takes no memory.
pub fn begin_call(machine: &mut Machine<'_>, alloc: Global) -> Entered
    ensures slots { result ≡ machine.old.entered }
    ensures rest { machine.new ≡ record machine.old { entered = [] } }
{
    mem::replace(&mut machine.entered, Entered::new(alloc))
}

/// Ends a call: its variables' blocks are gone, and the caller's slots are entered again.
pub fn end_call(machine: &mut Machine<'_>, outer: Entered)
    ensures finishes { state_of machine.new ≡ finish (reverse outer) (state_of machine.old) }
    ensures same { SameBlocks machine.old.store machine.new.store }
{
    close_slots(machine, 0);
    machine.entered = outer;
}
