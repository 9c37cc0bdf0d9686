//! The names of a program's structs, and which of them hold public data.

ghost use Rattle.std.specs.Prelude.{◌≡◌, IfOk, [], length, slice_index_or, false};
ghost use Rattle.type_rules.specs.Written.{struct_names, public_from, some_public_field, field_public, base_public, number_or, number_from};

use oc_source::{BaseKind, FieldDef, StructDef};
use oc_values::{Items, NoMemory};
use std::alloc::Global;
use std::collections::BTreeMap;
use written_types::{Names, add_name, number_of};

/// The structs with the number of the first of each name, where it isn't known yet which hold public data.
fn numbered<'p>(alloc: Global, defs: &'p [StructDef]) -> Result<Names<'p>, NoMemory>
    ensures { IfOk result (λ n. n.defs.now ≡ defs.now) }
{
    let mut numbers = BTreeMap::new(alloc);
    for (number, def) in defs.iter().enumerate() {
        add_name(&mut numbers, def.name.as_bytes(), number as u64)?;
    }
    let public = Items::new(alloc);
    Ok(Names {
        defs,
        numbers,
        public,
    })
}

/// Whether the struct of a number is known to hold public data.
fn is_known(known: &Items<bool>, number: u64) -> bool
    ensures { result ≡ slice_index_or known.now number false }
{
    match known.get(number as usize) {
        Some(public) => *public,
        None => false,
    }
}

/// Whether the struct of a name is known to hold public data.
fn is_public_struct(names: &Names<'_>, known: &Items<bool>, name: &[u8]) -> bool
    ensures { result ≡ slice_index_or known.now (number_or (length known.now) (number_from 0 (struct_names names.now.defs.now) name.now)) false }
{
    match number_of(&names.numbers, name) {
        Some(number) => is_known(known, number),
        None => false,
    }
}

/// Whether an integer, or a struct of which it is known, holds public data.
fn base_public(names: &Names<'_>, known: &Items<bool>, obliv: bool, kind: &BaseKind) -> bool
    ensures { result ≡ base_public (struct_names names.now.defs.now) known.now obliv kind.now }
{
    match kind {
        BaseKind::Int(_) => !obliv,
        BaseKind::Struct(name) => is_public_struct(names, known, name.as_bytes()),
    }
}

/// Whether a field holds public data.
fn field_public(names: &Names<'_>, known: &Items<bool>, field: &FieldDef) -> bool
    ensures { result ≡ field_public (struct_names names.now.defs.now) known.now field.now }
{
    if field.stars == 0 {
        base_public(names, known, field.base.obliv, &field.base.kind)
    } else {
        true
    }
}

/// Whether one of these fields holds public data.
fn some_public_field(names: &Names<'_>, known: &Items<bool>, fields: &[FieldDef]) -> bool
    ensures { result ≡ some_public_field (struct_names names.now.defs.now) known.now fields.now }
{
    for field in fields {
        if field_public(names, known, field) {
            return true;
        }
    }
    false
}

/// Which of the structs hold public data.
fn public_structs(alloc: Global, names: &Names<'_>) -> Result<Items<bool>, NoMemory>
    ensures { IfOk result (λ public. public ≡ public_from (struct_names names.now.defs.now) [] names.now.defs.now) }
{
    let mut public = Items::new(alloc);
    for def in names.defs {
        let held = some_public_field(names, &public, def.fields.as_slice());
        public.push(held)?;
    }
    Ok(public)
}

/// The structs of a program by their names, and which of them hold public data.
pub fn names_of<'p>(alloc: Global, defs: &'p [StructDef]) -> Result<Names<'p>, NoMemory>
    ensures defs { IfOk result (λ n. n.defs.now ≡ defs.now) }
    ensures public { IfOk result (λ n. n.public ≡ public_from (struct_names defs.now) [] defs.now) }
{
    let mut names = numbered(alloc, defs)?;
    names.public = public_structs(alloc, &names)?;
    Ok(names)
}
