//! Which places and values are frozen in a scope, and what may not be done with them.

ghost use Rattle.std.specs.Prelude.{◌≡◌, ◌&&◌, ◌||◌, slice_get};
ghost use Rattle.oc_cells.specs.Types.{is_frozen_pointer};
ghost use Rattle.scope_rules.specs.Frozen.{type_here, declared_frozen, is_frozen, from_frozen, loses, is_kept};
ghost use Rattle.scope_rules.specs.InScope.{unfrozen};
ghost use Rattle.numbered_scopes.specs.Numbered.{up_to};
ghost use Rattle.oc_cells.specs.Types.{public_structs};
ghost use Rattle.frozen_rules.specs.Scopes.{facts_of, around};

use crate::scopes::Scope;
use crate::types::{has_public, is_frozen_here, struct_has_loose, unfreezes_to};
use oc_cells::CType;
use oc_typed::{TExpr, TExprNode, TPlace, TPlaceNode, TypedFunction};
use oc_typing::Typed;

/// Whether a slot is the last one or before it.
fn is_up_to(last: Option<u64>, slot: u64) -> bool
    ensures { result ≡ up_to last slot }
{
    match last {
        Some(last) => slot <= last,
        None => false,
    }
}

/// Whether a variable was declared frozen.
fn is_declared_frozen(f: &TypedFunction, slot: u64) -> bool
    ensures { result ≡ declared_frozen (slice_get f.now.slots slot) }
{
    match f.slots.get(slot as usize) {
        Some(variable) => variable.frozen,
        None => false,
    }
}

/// Whether a place is frozen in a scope.
#[cycle(places)]
fn is_frozen_place(typed: &Typed, f: &TypedFunction, w: Scope, place: &TPlace) -> bool
    ensures { result ≡ is_frozen (around typed.now f.now) (facts_of w) place.now.node }
{
    match &place.node {
        TPlaceNode::Slot(slot) => {
            (w.hidden && is_up_to(w.last_outside, *slot)) || is_declared_frozen(f, *slot)
        }
        TPlaceNode::Deref(pointer) => leads_to_frozen(typed, f, w, pointer.get()),
        TPlaceNode::Index { pointer, amount: _ } => leads_to_frozen(typed, f, w, pointer.get()),
        TPlaceNode::Field { base, offset: _ } => is_frozen_place(typed, f, w, base.get()),
    }
}

/// Whether a value comes from a frozen place.
#[cycle(places)]
fn comes_from_frozen(typed: &Typed, f: &TypedFunction, w: Scope, e: &TExpr) -> bool
    ensures { result ≡ from_frozen (around typed.now f.now) (facts_of w) e.now.node }
{
    match &e.node {
        TExprNode::Read(place) => is_frozen_place(typed, f, w, place),
        TExprNode::AddressOf(place) => is_frozen_place(typed, f, w, place),
        TExprNode::Decay(place) => is_frozen_place(typed, f, w, place),
        TExprNode::PointerStep {
            pointer,
            amount: _,
            back: _,
            amount_first: _,
        } => comes_from_frozen(typed, f, w, pointer.get()),
        _ => false,
    }
}

/// Whether a value is a frozen pointer in a scope.
#[cycle(places)]
fn leads_to_frozen(typed: &Typed, f: &TypedFunction, w: Scope, e: &TExpr) -> bool
    ensures { result ≡ is_frozen_pointer (type_here (public_structs typed.now.structs) (from_frozen (around typed.now f.now) (facts_of w) e.now.node) e.now.ty) }
{
    let frozen = comes_from_frozen(typed, f, w, e);
    is_frozen_here(typed.structs.as_slice(), frozen, &e.ty)
}

/// Whether a place is frozen and holds public data.
pub fn keeps_public(typed: &Typed, f: &TypedFunction, w: Scope, place: &TPlace) -> bool
    ensures { result ≡ is_kept (around typed.now f.now) (facts_of w) place.now.ty place.now.node }
{
    is_frozen_place(typed, f, w, place) && has_public(typed.structs.as_slice(), &place.ty)
}

/// Whether a value loses its freezing where it comes to a type.
pub fn loses_at(typed: &Typed, f: &TypedFunction, w: Scope, e: &TExpr, to: &CType) -> bool
    ensures { result ≡ loses (around typed.now f.now) (from_frozen (around typed.now f.now) (facts_of w) e.now.node) e.now.ty to.now }
{
    let structs = typed.structs.as_slice();
    let frozen = comes_from_frozen(typed, f, w, e);
    match to {
        CType::Pointer { frozen: mark, to } => {
            !*mark && unfreezes_to(structs, frozen, &e.ty, to.get())
        }
        CType::Struct(number) => frozen && struct_has_loose(structs, *number),
        _ => false,
    }
}

/// Whether a value loses its freezing where it comes to its own type, which is unfrozen if it is a pointer.
pub fn loses_unfrozen(typed: &Typed, f: &TypedFunction, w: Scope, e: &TExpr) -> bool
    ensures { result ≡ loses (around typed.now f.now) (from_frozen (around typed.now f.now) (facts_of w) e.now.node) e.now.ty (unfrozen e.now.ty) }
{
    let structs = typed.structs.as_slice();
    let frozen = comes_from_frozen(typed, f, w, e);
    match &e.ty {
        CType::Pointer { frozen: _, to } => unfreezes_to(structs, frozen, &e.ty, to.get()),
        CType::Struct(number) => frozen && struct_has_loose(structs, *number),
        _ => false,
    }
}
