//! The headings of functions.

ghost use Rattle.std.specs.Prelude.{◌≡◌, ℕ, ◌+◌, List, [], nat_eq, not, ◌&&◌, Ok};
ghost use Rattle.oc_cells.specs.Types.{is_struct};
ghost use Rattle.type_rules.specs.Judging.{needs, next};
ghost use Rattle.type_rules.specs.Written.{array_fits, more_stars, is_frozen_place, param_of, params, result_type, heading, starred, has_name, type_name};
ghost use Rattle.type_steps.specs.Answering.{Answers};
ghost use Rattle.written_types.specs.Known.{lookup};
ghost use Rattle.written_types.specs.Numbers.{Has};
ghost use Rattle.written_types.specs.Params.{param_judged};

use crate::known::Known;
use crate::numbers::{add_name, number_of};
use crate::written::{base_type, is_length, starred, type_name};
use oc_cells::{CType, SlotType};
use oc_source::{BaseName, Function, Param, ParamArray, Spot, TypeName};
use oc_values::{Items, Name};
use std::alloc::Global;
use std::collections::BTreeMap;
use type_rules::{Heading, TypeRule};
use type_steps::TypeFault;
use type_steps::needs::needs;
use type_steps::types::is_struct;

/// Whether the length of a parameter that is written as an array may be one.
fn array_fits(array: ParamArray) -> bool
    ensures { result ≡ array_fits array }
{
    match array {
        ParamArray::Plain | ParamArray::Open => true,
        ParamArray::Sized(length) => is_length(length),
    }
}

/// The pointers of a parameter, of which an array is one more.
fn more_stars(array: ParamArray, stars: u32) -> u64
    ensures { result ≡ more_stars array stars }
{
    match array {
        ParamArray::Plain => stars as u64,
        ParamArray::Open | ParamArray::Sized(_) => stars as u64 + 1,
    }
}

/// Whether a declarator makes a frozen place.
pub fn is_frozen_place(base: &BaseName, stars: u64) -> bool
    ensures { result ≡ is_frozen_place base.now stars }
{
    base.frozen && stars == 0
}

/// Whether a type with so many stars is a struct.
fn is_struct_value(frozen: bool, stars: u64, ty: &CType) -> bool
    ensures { result ≡ is_struct (starred frozen stars ty.now) }
{
    if stars == 0 { is_struct(ty) } else { false }
}

/// A name that isn't among these.
pub fn need_new(numbers: &BTreeMap<&[u8], u64>, spot: Spot, name: &Name) -> Result<(), TypeFault>
    ensures { (xs : List (List ℕ)) → Has numbers.now xs → Answers (needs spot TypeRule.T2 (not (has_name xs name.now))) result }
{
    match number_of(numbers, name.as_bytes()) {
        None => Ok(()),
        Some(_) => Err(TypeFault::Refused {
            rule: TypeRule::T2,
            spot,
        }),
    }
}

/// A parameter that is no struct, and whose length may be one.
fn need_param(base: &BaseName, stars: u64, array: ParamArray, ty: &CType) -> Result<(), TypeFault>
    ensures { Answers (needs base.now.spot TypeRule.T11 (not (is_struct (starred base.now.frozen stars ty.now)) && array_fits array)) result }
{
    let structure = is_struct_value(base.frozen, stars, ty);
    let fits = array_fits(array);
    needs(base.spot, TypeRule::T11, !structure && fits)
}

/// The variable of a parameter with so many pointers.
fn param_of(
    alloc: Global,
    known: &Known<'_, '_>,
    base: &BaseName,
    stars: u64,
    array: ParamArray,
) -> Result<SlotType, TypeFault>
    ensures { Answers (param_of (lookup known.now) base.now stars array) result }
{
    let ty = base_type(known, stars, base)?;
    need_param(base, stars, array, &ty)?;
    let frozen = is_frozen_place(base, stars);
    let ty = starred(alloc, known.names, base.frozen, stars, ty)?;
    Ok(SlotType { ty, frozen })
}

/// The variable of a parameter.
fn param_slot(alloc: Global, known: &Known<'_, '_>, param: &Param) -> Result<SlotType, TypeFault>
    ensures { Answers (param_of (lookup known.now) param.now.base (more_stars param.now.array param.now.stars) param.now.array) result }
{
    let stars = more_stars(param.array, param.stars);
    param_of(alloc, known, &param.base, stars, param.array)
}

/// A parameter, after those whose names are numbered.
fn judged_param(
    alloc: Global,
    known: &Known<'_, '_>,
    numbers: &BTreeMap<&[u8], u64>,
    param: &Param,
) -> Result<SlotType, TypeFault>
    ensures { (xs : List (List ℕ)) → Has numbers.now xs → Answers (param_judged (lookup known.now) xs param.now) result }
{
    let slot = param_slot(alloc, known, param)?;
    need_new(numbers, param.spot, &param.name)?;
    Ok(slot)
}

/// The variables of parameters.
pub fn params(
    alloc: Global,
    known: &Known<'_, '_>,
    list: &Items<Param>,
) -> Result<Items<SlotType>, TypeFault>
    ensures { Answers (params (lookup known.now) [] list.now) result }
{
    let mut slots = Items::new(alloc);
    let mut numbers = BTreeMap::new(alloc);
    for param in list.as_slice() {
        let slot = judged_param(alloc, known, &numbers, param)?;
        add_name(&mut numbers, param.name.as_bytes(), slots.len() as u64)?;
        slots.push(slot)?;
    }
    Ok(slots)
}

/// A result that is no struct.
fn need_result(spot: Spot, ty: &CType) -> Result<(), TypeFault>
    ensures { Answers (needs spot TypeRule.T11 (not (is_struct ty.now))) result }
{
    needs(spot, TypeRule::T11, !is_struct(ty))
}

/// A result that is written.
fn written_result(
    alloc: Global,
    known: &Known<'_, '_>,
    written: &TypeName,
) -> Result<CType, TypeFault>
    ensures { Answers (next (type_name (lookup known.now) written.now) (λ ty. next (needs written.now.base.spot TypeRule.T11 (not (is_struct ty))) (λ _. Ok ty))) result }
{
    let ty = type_name(alloc, known, written)?;
    need_result(written.base.spot, &ty)?;
    Ok(ty)
}

/// The type of a result.
fn result_type(
    alloc: Global,
    known: &Known<'_, '_>,
    written: &Option<TypeName>,
) -> Result<CType, TypeFault>
    ensures { Answers (result_type (lookup known.now) written.now) result }
{
    match written {
        None => Ok(CType::Nothing),
        Some(written) => written_result(alloc, known, written),
    }
}

/// The heading of a function.
pub fn heading(
    alloc: Global,
    known: &Known<'_, '_>,
    function: &Function,
) -> Result<Heading, TypeFault>
    ensures { Answers (heading (lookup known.now) function.now) result }
{
    let result = result_type(alloc, known, &function.result)?;
    let params = params(alloc, known, &function.params)?;
    Ok(Heading {
        name: function.name.share()?,
        result,
        params,
        obliv: function.obliv,
        has_body: function.body.is_some(),
    })
}
