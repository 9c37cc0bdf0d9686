//! The slots that a call entered, which contracts see as their list, the newest last.
//!
//! A function's slots are numbered in the order of its text, so a call enters them in rising order, and a slot is found at once
//! or by halving. Of a tree whose slots aren't numbered so, each slot is looked at.

ghost use Rattle.std.specs.Prelude.{◌≡◌, true, [], ◌∷◌, ◌++◌, length, reverse, slice_get, ◌&&◌, MatchOption, OnOk, OnErr, None};
ghost use Rattle.oc_walk.specs.Walking.{block_of};
ghost use Rattle.clear_actions.specs.Rising.{rises, stands_over, has_slot, IsPlaceOf};

use oc_values::Items;
use oc_walk::Named;
use std::alloc::{AllocError, Global};
use std::marker::Model;

/// The slots that a call entered.
#[derive(Drop)]
pub struct Entered {
    slots: Items<Named>,
    /// Whether each slot's number is greater than the one before it.
    is_rising: bool,
}

impl Model for Entered {
    ghost use Rattle.std.specs.Prelude.{◌≡◌, List, true, None};
    ghost use Rattle.oc_walk.specs.declared.run.Named.{Named};
    ghost use Rattle.clear_actions.specs.Rising.{rises};

    ghost Value = { List Named };

    ghost view = { λ e. e.slots };

    ghost invariant = { λ e. e.is_rising ≡ true → rises None e.slots ≡ true };
}

/// Whether a slot's number is greater than the newest slot's, if there is one.
fn stands_over(slots: &[Named], slot: u64) -> bool
    ensures { result ≡ stands_over slots.now slot }
{
    match slots.last() {
        Some(newest) => newest.slot < slot,
        None => true,
    }
}

/// Whether numbers that rise still do with this one more.
fn stays_rising(is_rising: bool, slots: &Items<Named>, slot: u64) -> bool
    ensures { result ≡ (is_rising && stands_over slots.now slot) }
{
    is_rising && stands_over(slots.as_slice(), slot)
}

/// The block of the slot that was entered last under this number.
fn find_each(slots: &[Named], slot: u64) -> Option<u64>
    ensures { result ≡ block_of slot (reverse slots.now) }
{
    let mut found = None;
    for named in slots {
        if named.slot == slot {
            found = Some(named.block);
        }
    }
    found
}

/// Whether the slot of this number stands at a place.
fn is_at(slots: &[Named], place: usize, slot: u64) -> bool
    ensures { result ≡ has_slot slot (slice_get slots.now place) }
{
    match slots.get(place) {
        Some(named) => named.slot == slot,
        None => false,
    }
}

/// How many slots have a lower number, where numbers rise. Where each lower number is entered too, that is the number itself.
fn place_of(slots: &[Named], slot: u64) -> usize
    requires { rises None slots.now ≡ true }
    ensures { IsPlaceOf slot slots.now result }
{
    let place = slot as usize;
    if is_at(slots, place, slot) {
        return place;
    }
    slots.partition_point(|named| named.slot < slot)
}

/// The same where the slots' numbers rise.
fn find_rising(slots: &Items<Named>, slot: u64) -> Option<u64>
    requires { rises None slots.now ≡ true }
    ensures { result ≡ block_of slot (reverse slots.now) }
{
    let place = place_of(slots.as_slice(), slot);
    match slots.get(place) {
        Some(named) => {
            if named.slot == slot {
                Some(named.block)
            } else {
                None
            }
        }
        None => None,
    }
}

impl Entered {
    /// No slot. Takes no memory.
    pub fn new(alloc: Global) -> Entered
        ensures { result ≡ [] }
    {
        Entered {
            slots: Items::new(alloc),
            is_rising: true,
        }
    }

    /// How many slots there are.
    pub fn len(&self) -> usize
        ensures { result ≡ length self.now }
    {
        self.slots.len()
    }

    /// The block of the slot that was entered last under this number.
    pub fn find(&self, slot: u64) -> Option<u64>
        ensures { result ≡ block_of slot (reverse self.now) }
    {
        if self.is_rising {
            find_rising(&self.slots, slot)
        } else {
            find_each(self.slots.as_slice(), slot)
        }
    }

    /// Enters a slot. On an `Err` all is as it was.
    pub fn push(&mut self, named: Named) -> Result<(), AllocError>
        ensures ok { OnOk result (self.new ≡ self.old ++ named ∷ []) }
        ensures err { OnErr result (self.new ≡ self.old) }
    {
        let is_rising = stays_rising(self.is_rising, &self.slots, named.slot);
        self.slots.push(named)?;
        self.is_rising = is_rising;
        Ok(())
    }

    /// Leaves the newest slot.
    pub fn pop(&mut self) -> Option<Named>
        ensures { MatchOption result ((self.old ≡ []) × (self.new ≡ [])) (λ last. self.old ≡ self.new ++ last ∷ []) }
    {
        self.slots.pop()
    }
}
