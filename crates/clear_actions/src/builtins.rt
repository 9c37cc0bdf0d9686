//! The language's own calls, on the values of their arguments.

ghost use Rattle.std.specs.Prelude.{◌≡◌, ℕ, List, MatchOption};
ghost use Rattle.oc_cells.specs.declared.types.SlotType.{SlotType};
ghost use Rattle.oc_cells.specs.declared.types.CType.{Nothing as CNothing};
ghost use Rattle.oc_cells.specs.Types.{target};
ghost use Rattle.oc_walk.specs.Walking.{pure};
ghost use Rattle.oc_walk.specs.Cells.{allocates, frees};
ghost use Rattle.oc_walk.specs.Exchange.{feeds, formatted, gives, prints, public_word as word_of_all};
ghost use Rattle.oc_walk.specs.Builtins.{performs};
ghost use Rattle.oc_meanings.specs.Clear.{clear, known_of};
ghost use Rattle.clear_actions.specs.Acting.{bare, mem_of, Does, DoesWithin, MovesWithin};
ghost use Rattle.clear_actions.specs.Calls.{one, none, two, some, shows, count_value, public_count, called, site};

use crate::cells::{allocate, free, odd, put_cell};
use crate::exchange::{feed, format, give, print, public_word, reveal, words_of};
use crate::machine::{Fault, Machine, Store};
use crate::places::address;
use oc_cells::CType;
use oc_source::Spot;
use oc_typed::{Builtin, PrintPiece};
use oc_values::{IntKind, Items, wrap};
use oc_walk::{ClearSetup, Source, Value};
use std::alloc::Global;

/// The only argument.
fn hand_on(store: &Store<'_>, spot: Spot, values: &[Value<i128>]) -> Result<Value<i128>, Fault>
    ensures { Does (one spot values.now (λ v. pure v) (mem_of store.now)) result store.now store.now }
{
    match values {
        [value] => Ok(*value),
        _ => Err(odd(spot)),
    }
}

/// A feed of the only argument.
fn call_feed(
    store: &mut Store<'_>,
    setup: &ClearSetup,
    spot: Spot,
    source: Source,
    party: u8,
    kind: IntKind,
    values: &[Value<i128>],
) -> Result<Value<i128>, Fault>
    ensures { Does (one spot values.now (λ v. feeds (clear setup.now.first setup.now.second) (known_of setup.now) spot source party kind v) (mem_of store.old)) result store.old store.new }
{
    match values {
        [value] => feed(store, setup, source, party, kind, *value),
        _ => Err(odd(spot)),
    }
}

/// Shows a hidden value to both parties, and then writes it where the pointer leads.
fn reveal_to(
    store: &mut Store<'_>,
    spot: Spot,
    kind: IntKind,
    pointer: Value<i128>,
    value: Value<i128>,
) -> Result<Value<i128>, Fault>
    ensures { Does (shows spot kind pointer value (mem_of store.old)) result store.old store.new }
{
    let shown = reveal(store, spot, kind, value)?;
    let at = address(store, spot, pointer)?;
    let leaf = CType::Int { kind, obliv: false };
    put_cell(store, spot, &leaf, at, shown)
}

/// A reveal of the second argument to where the first one leads.
fn call_reveal(
    store: &mut Store<'_>,
    spot: Spot,
    kind: IntKind,
    values: &[Value<i128>],
) -> Result<Value<i128>, Fault>
    ensures { Does (two spot values.now (shows spot kind) (mem_of store.old)) result store.old store.new }
{
    match values {
        [pointer, value] => reveal_to(store, spot, kind, *pointer, *value),
        _ => Err(odd(spot)),
    }
}

/// The only argument as a result for a party.
fn call_give(
    store: &mut Store<'_>,
    spot: Spot,
    kind: IntKind,
    party: u8,
    values: &[Value<i128>],
) -> Result<Value<i128>, Fault>
    ensures { Does (one spot values.now (λ v. gives bare spot kind party v) (mem_of store.old)) result store.old store.new }
{
    match values {
        [value] => give(store, spot, kind, party, *value),
        _ => Err(odd(spot)),
    }
}

/// How many words a party has.
fn call_private_count(
    store: &Store<'_>,
    setup: &ClearSetup,
    spot: Spot,
    party: u8,
    values: &[Value<i128>],
) -> Result<Value<i128>, Fault>
    ensures { Does (none spot values.now (count_value (known_of setup.now) party) (mem_of store.now)) result store.now store.now }
{
    if !values.is_empty() {
        return Err(odd(spot));
    }
    let count = words_of(setup, party).len() as i128;
    Ok(Value::Int(IntKind::I32, wrap(IntKind::I32, count)))
}

/// How many public words there are.
fn call_public_count(
    store: &Store<'_>,
    setup: &ClearSetup,
    spot: Spot,
    values: &[Value<i128>],
) -> Result<Value<i128>, Fault>
    ensures { Does (none spot values.now (public_count (known_of setup.now)) (mem_of store.now)) result store.now store.now }
{
    if !values.is_empty() {
        return Err(odd(spot));
    }
    let count = setup.public.len() as i128;
    Ok(Value::Int(IntKind::I32, wrap(IntKind::I32, count)))
}

/// The public word whose number is the only argument.
fn call_public_word(
    store: &Store<'_>,
    setup: &ClearSetup,
    spot: Spot,
    values: &[Value<i128>],
) -> Result<Value<i128>, Fault>
    ensures { Does (one spot values.now (λ v. word_of_all bare (known_of setup.now) spot v) (mem_of store.now)) result store.now store.now }
{
    match values {
        [value] => public_word(store, setup, spot, *value),
        _ => Err(odd(spot)),
    }
}

/// A print of the arguments.
fn call_print(
    store: &mut Store<'_>,
    alloc: Global,
    spot: Spot,
    pieces: &Items<PrintPiece>,
    values: &[Value<i128>],
) -> Result<Value<i128>, Fault>
    ensures { Does (prints bare spot (formatted pieces.now values.now) (mem_of store.old)) result store.old store.new }
{
    let text = format(alloc, pieces.as_slice(), values)?;
    print(store, spot, text)
}

/// What a pointer leads to.
fn target_of<'t>(ty: &'t CType) -> Option<&'t CType>
    ensures { MatchOption result (target ty.now ≡ CNothing) (λ to. to.now ≡ target ty.now) }
{
    match ty {
        CType::Pointer { frozen: _, to } => Some(to.get()),
        _ => None,
    }
}

/// A new allocated block of so many elements of what a pointer of this type leads to.
fn allocate_target<'t>(
    store: &mut Store<'t>,
    spot: Spot,
    ty: &'t CType,
    count: Value<i128>,
) -> Result<Value<i128>, Fault>
    ensures { DoesWithin (allocates bare spot store.old.blocks.structs (target ty.now) count (mem_of store.old)) result store.old store.new }
{
    match target_of(ty) {
        Some(to) => allocate(store, spot, to, count),
        None => Err(odd(spot)),
    }
}

/// `calloc` of as many elements as the only argument says.
fn call_calloc<'t>(
    store: &mut Store<'t>,
    spot: Spot,
    ty: &'t CType,
    values: &[Value<i128>],
) -> Result<Value<i128>, Fault>
    ensures { DoesWithin (one spot values.now (λ v. allocates bare spot store.old.blocks.structs (target ty.now) v) (mem_of store.old)) result store.old store.new }
{
    match values {
        [count] => allocate_target(store, spot, ty, *count),
        _ => Err(odd(spot)),
    }
}

/// `malloc` of as many elements as the only argument says, or of one.
fn call_malloc<'t>(
    store: &mut Store<'t>,
    spot: Spot,
    ty: &'t CType,
    values: &[Value<i128>],
) -> Result<Value<i128>, Fault>
    ensures { DoesWithin (some spot values.now (λ v. allocates bare spot store.old.blocks.structs (target ty.now) v) (mem_of store.old)) result store.old store.new }
{
    match values {
        [] => allocate_target(store, spot, ty, Value::Int(IntKind::I32, 1)),
        [count] => allocate_target(store, spot, ty, *count),
        _ => Err(odd(spot)),
    }
}

/// `free` of the only argument.
fn call_free(
    store: &mut Store<'_>,
    spot: Spot,
    values: &[Value<i128>],
) -> Result<Value<i128>, Fault>
    ensures { Does (one spot values.now (λ v. frees bare spot v) (mem_of store.old)) result store.old store.new }
{
    match values {
        [value] => free(store, spot, *value),
        _ => Err(odd(spot)),
    }
}

/// A call of the language's own, on memory.
fn call<'t>(
    store: &mut Store<'t>,
    alloc: Global,
    setup: &ClearSetup,
    spot: Spot,
    ty: &'t CType,
    source: Source,
    which: &Builtin,
    values: &[Value<i128>],
) -> Result<Value<i128>, Fault>
    ensures { DoesWithin (called setup.now store.old.blocks.structs spot ty.now source which.now values.now (mem_of store.old)) result store.old store.new }
{
    match which {
        Builtin::Private => hand_on(store, spot, values),
        Builtin::Feed { kind, party } => call_feed(
            store, setup, spot, source, *party, *kind, values,
        ),
        Builtin::Reveal { kind } => call_reveal(store, spot, *kind, values),
        Builtin::Give { kind, party } => call_give(store, spot, *kind, *party, values),
        Builtin::PrivateCount { party } => call_private_count(store, setup, spot, *party, values),
        Builtin::PublicCount => call_public_count(store, setup, spot, values),
        Builtin::PublicWord => call_public_word(store, setup, spot, values),
        Builtin::Print { pieces } => call_print(store, alloc, spot, pieces, values),
        Builtin::Calloc => call_calloc(store, spot, ty, values),
        Builtin::Malloc => call_malloc(store, spot, ty, values),
        Builtin::Free => call_free(store, spot, values),
    }
}

/// A call of the language's own, whose node has this type; `source` is what a feed's argument is.
pub fn perform<'t>(
    machine: &mut Machine<'t>,
    alloc: Global,
    setup: &ClearSetup,
    spot: Spot,
    ty: &'t CType,
    source: Source,
    which: &Builtin,
    values: &[Value<i128>],
) -> Result<Value<i128>, Fault>
    ensures { (rounds room : ℕ) (slots : List SlotType) → MovesWithin (performs (clear setup.now.first setup.now.second) (site setup.now machine.old.store.blocks.structs rounds slots room) spot ty.now source which.now values.now) result machine.old machine.new }
{
    call(
        &mut machine.store,
        alloc,
        setup,
        spot,
        ty,
        source,
        which,
        values,
    )
}
