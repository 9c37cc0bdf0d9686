//! Tests of types.

ghost use Rattle.std.specs.Prelude.{◌≡◌, IfOk, false, ◌||◌};
ghost use Rattle.oc_cells.specs.Types.{same, is_integer, is_hidden, is_pointer, is_struct, target, kind_of};
ghost use Rattle.type_rules.specs.Judging.{is_nothing, is_null, is_array, leads, bare, converts, is_public, both_integers, steps, alike_pointers, takes, takes_update, element, is_add, is_minus, is_comparison};

use crate::kinds::{is_add, is_comparison, is_equality, is_minus};
use oc_cells::{CType, same_type};
use oc_values::{BinaryOp, IntKind, NoMemory};

/// Whether a type is an integer.
pub fn is_integer(ty: &CType) -> bool
    ensures { result ≡ is_integer ty.now }
{
    matches!(ty, CType::Int { .. })
}

/// Whether a type is a hidden integer.
pub fn is_hidden(ty: &CType) -> bool
    ensures { result ≡ is_hidden ty.now }
{
    match ty {
        CType::Int { obliv, .. } => *obliv,
        _ => false,
    }
}

/// The kind of an integer, and `I32` of any other type.
pub fn kind_of(ty: &CType) -> IntKind
    ensures { result ≡ kind_of ty.now }
{
    match ty {
        CType::Int { kind, .. } => *kind,
        _ => IntKind::I32,
    }
}

/// Whether a type is that of no value.
pub fn is_nothing(ty: &CType) -> bool
    ensures { result ≡ is_nothing ty.now }
{
    matches!(ty, CType::Nothing)
}

/// Whether a type is an array.
pub fn is_array(ty: &CType) -> bool
    ensures { result ≡ is_array ty.now }
{
    matches!(ty, CType::Array { .. })
}

/// Whether a type is a pointer.
pub fn is_pointer(ty: &CType) -> bool
    ensures { result ≡ is_pointer ty.now }
{
    matches!(ty, CType::Pointer { .. })
}

/// Whether a type is a struct.
pub fn is_struct(ty: &CType) -> bool
    ensures { result ≡ is_struct ty.now }
{
    matches!(ty, CType::Struct(_))
}

/// Whether a type is that of `NULL`, which is a pointer to nothing.
pub fn is_null(ty: &CType) -> bool
    ensures { result ≡ is_null ty.now }
{
    match ty {
        CType::Pointer { frozen: _, to } => is_nothing(to.get()),
        _ => false,
    }
}

/// Whether a type is a pointer to something.
pub fn leads(ty: &CType) -> bool
    ensures { result ≡ leads ty.now }
{
    match ty {
        CType::Pointer { frozen: _, to } => !is_nothing(to.get()),
        _ => false,
    }
}

/// Whether a type is a public integer.
pub fn is_public(ty: &CType) -> bool
    ensures { result ≡ is_public ty.now }
{
    is_integer(ty) && !is_hidden(ty)
}

/// Whether both types are integers.
pub fn both_integers(a: &CType, b: &CType) -> bool
    ensures { result ≡ both_integers a.now b.now }
{
    is_integer(a) && is_integer(b)
}

/// The same type again; what it leads to is shared.
pub fn share_type(ty: &CType) -> Result<CType, NoMemory>
    ensures { IfOk result (λ t. t ≡ ty.now) }
{
    match ty {
        CType::Int { kind, obliv } => Ok(CType::Int {
            kind: *kind,
            obliv: *obliv,
        }),
        CType::Pointer { frozen, to } => Ok(CType::Pointer {
            frozen: *frozen,
            to: to.share()?,
        }),
        CType::Array { len, of } => Ok(CType::Array {
            len: *len,
            of: of.share()?,
        }),
        CType::Struct(number) => Ok(CType::Struct(*number)),
        CType::Nothing => Ok(CType::Nothing),
    }
}

/// What a pointer leads to.
pub fn target_of(ty: &CType) -> Result<CType, NoMemory>
    ensures { IfOk result (λ t. t ≡ target ty.now) }
{
    match ty {
        CType::Pointer { frozen: _, to } => share_type(to.get()),
        _ => Ok(CType::Nothing),
    }
}

/// The type of an array's elements.
pub fn element_of(ty: &CType) -> Result<CType, NoMemory>
    ensures { IfOk result (λ t. t ≡ element ty.now) }
{
    match ty {
        CType::Array { len: _, of } => share_type(of.get()),
        _ => Ok(CType::Nothing),
    }
}

/// Whether two types are equal but for their marks.
pub fn same_bare(a: &CType, b: &CType) -> bool
    ensures { result ≡ same false (bare a.now) (bare b.now) }
{
    match (a, b) {
        (
            CType::Int { kind, obliv: _ },
            CType::Int {
                kind: other,
                obliv: _,
            },
        ) => *kind as u8 == *other as u8,
        (
            CType::Pointer { frozen: _, to },
            CType::Pointer {
                frozen: _,
                to: other,
            },
        ) => same_bare(to.get(), other.get()),
        (
            CType::Array { len, of },
            CType::Array {
                len: size,
                of: other,
            },
        ) => { *len == *size && same_bare(of.get(), other.get()) }
        (CType::Struct(n), CType::Struct(m)) => *n == *m,
        (CType::Nothing, CType::Nothing) => true,
        _ => false,
    }
}

/// Whether a value of the first type converts to the second.
pub fn converts(from: &CType, to: &CType) -> bool
    ensures { result ≡ converts from.now to.now }
{
    if is_integer(from) && is_integer(to) {
        return !is_hidden(from) || is_hidden(to);
    }
    if leads(to) {
        return is_null(from) || same_type(false, from, to);
    }
    is_struct(to) && same_type(true, from, to)
}

/// Whether the first type would convert to the second without the marks `obliv`.
#[tactic(auto, using(crate::proofs::Bare::bare_converts))]
pub fn converts_bare(from: &CType, to: &CType) -> bool
    ensures { result ≡ converts (bare from.now) (bare to.now) }
{
    if is_integer(from) && is_integer(to) {
        return true;
    }
    if leads(to) {
        return is_null(from) || same_bare(from, to);
    }
    is_struct(to) && same_type(true, from, to)
}

/// Whether these are a pointer and the amount of a step.
pub fn steps(a: &CType, b: &CType) -> bool
    ensures { result ≡ steps a.now b.now }
{
    leads(a) && is_public(b)
}

/// Whether these are two pointers that may be compared.
pub fn alike_pointers(a: &CType, b: &CType) -> bool
    ensures { result ≡ alike_pointers a.now b.now }
{
    is_pointer(a) && is_pointer(b) && (is_null(a) || is_null(b) || same_type(false, a, b))
}

/// Whether the types without their marks `obliv` are a pointer and the amount of a step.
#[tactic(auto, using(crate::proofs::Bare::bare_steps))]
fn steps_bare(a: &CType, b: &CType) -> bool
    ensures { result ≡ steps (bare a.now) (bare b.now) }
{
    leads(a) && is_integer(b)
}

/// Whether the types without their marks `obliv` are two pointers that may be compared.
#[tactic(auto, using(crate::proofs::Bare::bare_alike))]
fn alike_bare(a: &CType, b: &CType) -> bool
    ensures { result ≡ alike_pointers (bare a.now) (bare b.now) }
{
    is_pointer(a) && is_pointer(b) && (is_null(a) || is_null(b) || same_bare(a, b))
}

/// Whether an operator adds an amount to a pointer or takes it away.
fn is_step(op: BinaryOp) -> bool
    ensures { result ≡ (is_add op || is_minus op) }
{
    is_add(op) || is_minus(op)
}

/// Whether an operator takes operands of these types.
pub fn takes(op: BinaryOp, a: &CType, b: &CType) -> bool
    ensures { result ≡ takes op a.now b.now }
{
    both_integers(a, b)
        || (is_step(op) && steps(a, b))
        || (is_add(op) && steps(b, a))
        || (is_equality(op) && alike_pointers(a, b))
}

/// Whether an operator takes operands of these types without their marks `obliv`.
#[tactic(auto, using(crate::proofs::Bare::bare_both))]
pub fn takes_bare(op: BinaryOp, a: &CType, b: &CType) -> bool
    ensures { result ≡ takes op (bare a.now) (bare b.now) }
{
    both_integers(a, b)
        || (is_step(op) && steps_bare(a, b))
        || (is_add(op) && steps_bare(b, a))
        || (is_equality(op) && alike_bare(a, b))
}

/// Whether a compound assignment takes a place and a value of these types.
pub fn takes_update(op: BinaryOp, place: &CType, value: &CType) -> bool
    ensures { result ≡ takes_update op place.now value.now }
{
    (both_integers(place, value) && !is_comparison(op) && (!is_hidden(value) || is_hidden(place)))
        || (is_step(op) && steps(place, value))
}

/// Whether a compound assignment takes a place and a value of these types without their marks `obliv`.
#[tactic(auto, using(crate::proofs::Bare::bare_fits))]
pub fn takes_update_bare(op: BinaryOp, place: &CType, value: &CType) -> bool
    ensures { result ≡ takes_update op (bare place.now) (bare value.now) }
{
    (both_integers(place, value) && !is_comparison(op)) || (is_step(op) && steps_bare(place, value))
}
