//! The types that a source writes.

ghost use Rattle.std.specs.Prelude.{◌≡◌, ℕ, Bool, IfOk, OnOk, IsTrue, ◌&&◌, nat_eq, nat_le, nat_lt, not, ◌||◌, min, Some, slice_index_or, false};
ghost use Rattle.oc_cells.specs.Types.{holds_public, normal};
ghost use Rattle.oc_cells.specs.Layout.{cells, struct_cells};
ghost use Rattle.type_rules.specs.Judging.{needs};
ghost use Rattle.type_rules.specs.Written.{struct_names, number_from, struct_named, base_type, starred, arrays, is_length, are_lengths, cells_of, type_name, field_type};
ghost use Rattle.type_steps.specs.Answering.{Answers};
ghost use Rattle.written_types.specs.Known.{lookup};
ghost use Rattle.written_types.specs.Shapes.{types};
ghost use Rattle.written_types.specs.Forms.{IsBase, marked, times};

use crate::known::Known;
use crate::names::Names;
use crate::numbers::number_of;
use crate::sizes::type_cells;
use oc_cells::CType;
use oc_source::{BaseKind, BaseName, FieldDef, Spot, TypeName};
use oc_values::{NoMemory, Shared};
use std::alloc::Global;
use type_rules::TypeRule;
use type_steps::TypeFault;
use type_steps::needs::needs;

/// The number of the struct of a name.
fn struct_number(names: &Names<'_>, name: &[u8]) -> Option<u64>
    ensures { result ≡ number_from 0 (struct_names names.now.defs.now) name.now }
{
    number_of(&names.numbers, name)
}

/// A struct that is used by value is defined above.
fn need_defined(known: &Known<'_, '_>, stars: u64, spot: Spot, number: u64) -> Result<(), TypeFault>
    ensures { Answers (needs spot TypeRule.T1 (not (nat_eq stars 0) || nat_lt number known.now.above)) result }
{
    if stars != 0 || number < known.above {
        Ok(())
    } else {
        Err(TypeFault::Refused {
            rule: TypeRule::T1,
            spot,
        })
    }
}

/// The struct of a number, which by value is defined above.
fn struct_at(known: &Known<'_, '_>, stars: u64, spot: Spot, number: u64) -> Result<CType, TypeFault>
    ensures typed { Answers (struct_named (lookup known.now) (nat_eq stars 0) spot (Some number)) result }
    ensures base { IfOk result IsBase }
{
    need_defined(known, stars, spot, number)?;
    Ok(CType::Struct(number))
}

/// The struct of a number, if it has one.
fn struct_named(
    known: &Known<'_, '_>,
    stars: u64,
    spot: Spot,
    number: Option<u64>,
) -> Result<CType, TypeFault>
    ensures typed { Answers (struct_named (lookup known.now) (nat_eq stars 0) spot number) result }
    ensures base { IfOk result IsBase }
{
    match number {
        None => Err(TypeFault::Refused {
            rule: TypeRule::T1,
            spot,
        }),
        Some(number) => struct_at(known, stars, spot, number),
    }
}

/// What a written type with so many stars begins with.
pub fn base_type(known: &Known<'_, '_>, stars: u64, base: &BaseName) -> Result<CType, TypeFault>
    ensures typed { Answers (base_type (lookup known.now) (nat_eq stars 0) base.now) result }
    ensures base { IfOk result IsBase }
{
    match &base.kind {
        BaseKind::Int(kind) => Ok(CType::Int {
            kind: *kind,
            obliv: base.obliv,
        }),
        BaseKind::Struct(name) => {
            let number = struct_number(known.names, name.as_bytes());
            struct_named(known, stars, base.spot, number)
        }
    }
}

/// Whether the struct of a number holds public data.
fn is_public_struct(names: &Names<'_>, number: u64) -> bool
    ensures { result ≡ slice_index_or names.now.public number false }
{
    match names.public.get(number as usize) {
        Some(public) => *public,
        None => false,
    }
}

/// Whether a type holds public data.
fn holds_public(names: &Names<'_>, ty: &CType) -> bool
    ensures { result ≡ holds_public names.now.public ty.now }
{
    match ty {
        CType::Int { kind: _, obliv } => !*obliv,
        CType::Pointer { .. } => true,
        CType::Array { len: _, of } => holds_public(names, of.get()),
        CType::Struct(number) => is_public_struct(names, *number),
        CType::Nothing => false,
    }
}

/// The mark of a pointer to what a written type begins with.
fn base_mark(names: &Names<'_>, frozen: bool, base: &CType) -> bool
    ensures { result ≡ (holds_public names.now.public base.now && frozen) }
{
    holds_public(names, base) && frozen
}

/// So many pointers to what a written type begins with, in normal form.
pub fn starred(
    alloc: Global,
    names: &Names<'_>,
    frozen: bool,
    stars: u64,
    base: CType,
) -> Result<CType, NoMemory>
    requires { IsBase base }
    ensures { IfOk result (λ ty. ty ≡ normal names.now.public false (starred frozen stars base)) }
{
    let mut mark = base_mark(names, frozen, &base);
    let mut ty = base;
    for _ in 0..stars {
        let to = Shared::new(alloc, ty)?;
        ty = CType::Pointer { frozen: mark, to };
        mark = frozen;
    }
    Ok(ty)
}

/// Arrays of these lengths, the first one outermost.
fn arrays(alloc: Global, dims: &[u64], ty: CType) -> Result<CType, NoMemory>
    requires { IsTrue (are_lengths dims.now) }
    ensures { IfOk result (λ new. new ≡ arrays dims.now ty) }
{
    let mut ty = ty;
    let mut at = dims.len();
    'outward: while at > 0 {
        at -= 1;
        let len = dims[at] as u32;
        let of = Shared::new(alloc, ty)?;
        ty = CType::Array { len, of };
    }
    Ok(ty)
}

/// Whether a number is the length of an array.
pub fn is_length(length: u64) -> bool
    ensures { result ≡ is_length length }
{
    1 <= length && length <= 65536
}

/// Whether so many cells may be taken so many times, as far as that can be told before.
fn may_grow(total: u64, length: u64) -> bool
    ensures { result ≡ (nat_le total 65536 && is_length length) }
{
    total <= 65536 && is_length(length)
}

/// Whether arrays of these lengths, whose elements take so many cells, may be.
fn have_room(dims: &[u64], each: u64) -> bool
    ensures { result ≡ (are_lengths dims.now && nat_le (times each dims.now) 65536) }
{
    let mut total = each;
    for n in dims {
        if may_grow(total, *n) {
            total = *n * total;
        } else {
            return false;
        }
    }
    total <= 65536
}

/// The cells of an element of a declarator's arrays, up to one more than a type may have.
fn element_cells(known: &Known<'_, '_>, field: &FieldDef, base: &CType) -> u64
    ensures { result ≡ min (cells (struct_cells (types known.now.shapes.now.list)) (starred field.now.base.frozen field.now.stars base.now)) 65537 }
{
    if field.stars == 0 {
        type_cells(known.shapes, base)
    } else {
        1
    }
}

/// What a declarator's arrays ask for.
fn need_room(known: &Known<'_, '_>, field: &FieldDef, base: &CType) -> Result<(), TypeFault>
    ensures room { Answers (needs field.now.base.spot TypeRule.T11 (are_lengths field.now.dims && nat_le (cells_of (lookup known.now) (arrays field.now.dims (starred field.now.base.frozen field.now.stars base.now))) 65536)) result }
    ensures lengths { OnOk result (IsTrue (are_lengths field.now.dims)) }
{
    let each = element_cells(known, field, base);
    let room = have_room(field.dims.as_slice(), each);
    needs(field.base.spot, TypeRule::T11, room)
}

/// The type that a written type without a name is.
pub fn type_name(
    alloc: Global,
    known: &Known<'_, '_>,
    written: &TypeName,
) -> Result<CType, TypeFault>
    ensures { Answers (type_name (lookup known.now) written.now) result }
{
    let base = base_type(known, written.stars as u64, &written.base)?;
    Ok(starred(
        alloc,
        known.names,
        written.base.frozen,
        written.stars as u64,
        base,
    )?)
}

/// A declarator's type, where its arrays have room.
fn declared(
    alloc: Global,
    known: &Known<'_, '_>,
    field: &FieldDef,
    base: CType,
) -> Result<CType, NoMemory>
    requires base { IsBase base }
    requires lengths { IsTrue (are_lengths field.now.dims) }
    ensures { IfOk result (λ ty. ty ≡ normal known.now.names.now.public false (arrays field.now.dims (starred field.now.base.frozen field.now.stars base))) }
{
    let pointer = starred(
        alloc,
        known.names,
        field.base.frozen,
        field.stars as u64,
        base,
    )?;
    arrays(alloc, field.dims.as_slice(), pointer)
}

/// The type of a declarator.
pub fn field_type(
    alloc: Global,
    known: &Known<'_, '_>,
    field: &FieldDef,
) -> Result<CType, TypeFault>
    ensures { Answers (field_type (lookup known.now) field.now) result }
{
    let base = base_type(known, field.stars as u64, &field.base)?;
    need_room(known, field, &base)?;
    Ok(declared(alloc, known, field, base)?)
}
