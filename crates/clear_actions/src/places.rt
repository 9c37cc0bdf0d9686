//! Pointers: where they lead, how they move, whether two are the same.

ghost use Rattle.std.specs.Prelude.{◌≡◌, Some, None, if◌then◌else◌};
ghost use Rattle.oc_walk.specs.Cells.{is_of_kind as fits_kind, follows, addressed, moves, same_places, same_address, signed_by};
ghost use Rattle.clear_actions.specs.Acting.{bare, mem_of, Gives};

use crate::cells::{odd, trap};
use crate::kinds::number_of;
use crate::machine::{Fault, Store};
use oc_cells::{Address, TrapKind};
use oc_source::Spot;
use oc_values::{IntKind, is_of_kind};
use oc_walk::Value;

/// Where a pointer leads, or trap M3.
pub fn follow(store: &Store<'_>, spot: Spot, value: Value<i128>) -> Result<Address, Fault>
    ensures { Gives (follows bare spot value (mem_of store.now)) result (mem_of store.now) }
{
    match value {
        Value::Pointer(Address::At { block, offset }) => Ok(Address::At { block, offset }),
        Value::Pointer(Address::Null) => Err(trap(TrapKind::M3, spot)),
        _ => Err(odd(spot)),
    }
}

/// The address that a pointer is, null too.
pub fn address(store: &Store<'_>, spot: Spot, value: Value<i128>) -> Result<Address, Fault>
    ensures { Gives (addressed bare spot value (mem_of store.now)) result (mem_of store.now) }
{
    match value {
        Value::Pointer(at) => Ok(at),
        _ => Err(odd(spot)),
    }
}

/// An amount of elements, forward or back.
fn sign_by(kind: IntKind, back: bool, n: i128) -> Option<i128>
    ensures { result ≡ (if fits_kind kind n then Some (signed_by back n) else None) }
{
    if !is_of_kind(kind, n) {
        return None;
    }
    Some(if back { -n } else { n })
}

/// A pointer moved by so many elements of this size, forward or back.
pub fn move_address(
    store: &Store<'_>,
    spot: Spot,
    size: u32,
    back: bool,
    pointer: Value<i128>,
    amount: Value<i128>,
) -> Result<Address, Fault>
    ensures { Gives (moves bare spot size back pointer amount (mem_of store.now)) result (mem_of store.now) }
{
    let (Value::Pointer(at), Value::Int(kind, n)) = (pointer, amount) else {
        return Err(odd(spot));
    };
    let Some(way) = sign_by(kind, back, n) else {
        return Err(odd(spot));
    };
    match store.blocks.offset(at, way, size) {
        Ok(moved) => Ok(moved),
        Err(reason) => Err(trap(reason, spot)),
    }
}

/// Whether two addresses are the same.
fn is_same(a: Address, b: Address) -> bool
    ensures { result ≡ same_address a b }
{
    match (a, b) {
        (Address::Null, Address::Null) => true,
        (
            Address::At {
                block: b,
                offset: i,
            },
            Address::At {
                block: c,
                offset: j,
            },
        ) => b == c && i == j,
        _ => false,
    }
}

/// Whether two pointers are the same, or where `negated` aren't.
pub fn compare_places(
    store: &Store<'_>,
    spot: Spot,
    negated: bool,
    left: Value<i128>,
    right: Value<i128>,
) -> Result<Value<i128>, Fault>
    ensures { Gives (same_places bare spot negated left right (mem_of store.now)) result (mem_of store.now) }
{
    match (left, right) {
        (Value::Pointer(a), Value::Pointer(b)) => {
            let same = is_same(a, b);
            let holds = if negated { !same } else { same };
            Ok(Value::Int(IntKind::I32, number_of(holds)))
        }
        _ => Err(odd(spot)),
    }
}
