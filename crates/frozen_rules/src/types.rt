//! What the rules of frozen places ask of types. No type is made: they are compared and searched as they stand.

ghost use Rattle.std.specs.Prelude.{◌≡◌, ◌&&◌, not, take, true, false, slice_index_or, slice_get};
ghost use Rattle.oc_cells.specs.declared.types.CType.{Pointer};
ghost use Rattle.oc_cells.specs.Types.{holds_public, public_structs, alike, same, freeze, is_frozen_pointer};
ghost use Rattle.oc_typing.specs.Rules.{is_nothing};
ghost use Rattle.oc_cells.specs.Layout.{leaves, struct_leaves, or_none};
ghost use Rattle.scope_rules.specs.Frozen.{some_loose, type_here, unfreezes};
ghost use Rattle.frozen_rules.specs.Types.{stripped, has_elements};

use oc_cells::{CType, StructType, same_type};
use sqlite_items::at;

/// What an array is of in the end; any other type itself.
fn strip(ty: &CType) -> &CType
    ensures { result.now ≡ stripped ty.now }
{
    match ty {
        CType::Array { len: _, of } => strip(of.get()),
        _ => ty,
    }
}

/// Whether no array that a type is made of is empty.
fn is_filled(ty: &CType) -> bool
    ensures { result ≡ has_elements ty.now }
{
    match ty {
        CType::Array { len, of } => *len != 0 && is_filled(of.get()),
        _ => true,
    }
}

/// Whether the struct of this number holds public data.
#[cycle(public)]
fn struct_has_public(structs: &[StructType], number: u64) -> bool
    ensures { result ≡ slice_index_or (public_structs structs.now) number false }
{
    match at(structs, number as usize) {
        Some(each) => {
            for field in each.fields.as_slice() {
                if field_has_public(structs, number, &field.ty) {
                    return true;
                }
            }
            false
        }
        None => false,
    }
}

/// Whether a field of the struct of this number holds public data, which has only earlier structs inside.
#[cycle(public)]
fn field_has_public(structs: &[StructType], number: u64, ty: &CType) -> bool
    ensures { result ≡ holds_public (take number (public_structs structs.now)) ty.now }
{
    match strip(ty) {
        CType::Int { kind: _, obliv } => !*obliv,
        CType::Pointer { .. } => true,
        CType::Struct(inner) => *inner < number && struct_has_public(structs, *inner),
        _ => false,
    }
}

/// Whether a type is or contains a public integer or a pointer.
pub fn has_public(structs: &[StructType], ty: &CType) -> bool
    ensures { result ≡ holds_public (public_structs structs.now) ty.now }
{
    match strip(ty) {
        CType::Int { kind: _, obliv } => !*obliv,
        CType::Pointer { .. } => true,
        CType::Struct(number) => struct_has_public(structs, *number),
        _ => false,
    }
}

/// Whether the struct of this number contains an unfrozen pointer to public data.
#[cycle(loose)]
pub fn struct_has_loose(structs: &[StructType], number: u64) -> bool
    ensures { result ≡ some_loose (public_structs structs.now) (or_none (slice_get (struct_leaves structs.now) number)) }
{
    match at(structs, number as usize) {
        Some(each) => {
            for field in each.fields.as_slice() {
                if field_has_loose(structs, number, &field.ty) {
                    return true;
                }
            }
            false
        }
        None => false,
    }
}

/// Whether a field of the struct of this number contains such a pointer.
#[cycle(loose)]
fn field_has_loose(structs: &[StructType], number: u64, ty: &CType) -> bool
    ensures { result ≡ some_loose (public_structs structs.now) (leaves (take number (struct_leaves structs.now)) ty.now) }
{
    if !is_filled(ty) {
        return false;
    }
    match strip(ty) {
        CType::Pointer { frozen, to } => !*frozen && has_public(structs, to.get()),
        CType::Struct(inner) => *inner < number && struct_has_loose(structs, *inner),
        _ => false,
    }
}

/// Whether two marks are the same.
fn are_alike(a: bool, b: bool) -> bool
    ensures { result ≡ alike a b }
{
    a == b
}

/// Whether the frozen form of the first type is the second.
fn is_frozen_form(structs: &[StructType], a: &CType, b: &CType) -> bool
    ensures { result ≡ same true (freeze (public_structs structs.now) a.now) b.now }
{
    match (a, b) {
        (CType::Pointer { frozen: _, to }, CType::Pointer { frozen, to: other }) => {
            are_alike(has_public(structs, to.get()), *frozen)
                && is_frozen_form(structs, to.get(), other.get())
        }
        (
            CType::Array { len, of },
            CType::Array {
                len: size,
                of: other,
            },
        ) => { *len == *size && is_frozen_form(structs, of.get(), other.get()) }
        (CType::Pointer { .. } | CType::Array { .. }, _) => false,
        _ => same_type(true, a, b),
    }
}

/// Whether the type of a value is the second type, where the value comes from a frozen place or not.
fn is_type_here(structs: &[StructType], frozen: bool, a: &CType, b: &CType) -> bool
    ensures { result ≡ same true (type_here (public_structs structs.now) frozen a.now) b.now }
{
    if frozen {
        return is_frozen_form(structs, a, b);
    }
    same_type(true, a, b)
}

/// Whether a value of the first type is a frozen pointer, where it comes from a frozen place or not.
pub fn is_frozen_here(structs: &[StructType], frozen: bool, ty: &CType) -> bool
    ensures { result ≡ is_frozen_pointer (type_here (public_structs structs.now) frozen ty.now) }
{
    match ty {
        CType::Pointer { frozen: mark, to } => {
            if frozen {
                has_public(structs, to.get())
            } else {
                *mark
            }
        }
        _ => false,
    }
}

/// Whether a type is that of a call without a value.
fn is_nothing(ty: &CType) -> bool
    ensures { result ≡ is_nothing ty.now }
{
    match ty {
        CType::Nothing => true,
        _ => false,
    }
}

/// Whether a value of the first type becomes an unfrozen pointer to the second, while it is a frozen pointer or one to another
/// type.
pub fn unfreezes_to(structs: &[StructType], frozen: bool, from: &CType, target: &CType) -> bool
    ensures { result ≡ unfreezes (type_here (public_structs structs.now) frozen from.now) (Pointer false target.now) }
{
    match from {
        CType::Pointer { frozen: _, to } => {
            if is_frozen_here(structs, frozen, from) {
                return true;
            }
            !is_nothing(to.get()) && !is_type_here(structs, frozen, to.get(), target)
        }
        _ => false,
    }
}
