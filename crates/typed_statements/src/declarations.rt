//! Declarations: each adds its variables to the scope.

ghost use Rattle.std.specs.Prelude.{◌≡◌, OnOk, not};
ghost use Rattle.type_rules.specs.Judging.{needs};
ghost use Rattle.type_rules.specs.StatementRules.{is_taken, add, declare, declare_all, header};
ghost use Rattle.type_rules.specs.Written.{is_frozen_place};
ghost use Rattle.type_steps.specs.Answering.{Answers};
ghost use Rattle.written_types.specs.Known.{lookup};
ghost use Rattle.visible_variables.specs.Scopes.{scope_of, Sound};
ghost use Rattle.typed_statements.specs.Walking.{Does, Kept};

use crate::values::{initial, value_in};
use oc_cells::CType;
use oc_source::{Declared, FieldDef, ForInit};
use oc_typed::{TDeclared, TForInit};
use oc_values::{Items, NoMemory};
use std::alloc::Global;
use type_rules::TypeRule;
use type_steps::TypeFault;
use type_steps::needs::needs;
use type_steps::types::share_type;
use visible_variables::Scope;
use written_types::{Known, field_type, is_frozen_place};

/// A name that isn't declared in the innermost scope.
fn need_free(scope: &Scope<'_>, field: &FieldDef) -> Result<(), TypeFault>
    requires { Sound scope.now }
    ensures { Answers (needs field.now.spot TypeRule.T2 (not (is_taken (scope_of scope.now) field.now.name))) result }
{
    needs(
        field.spot,
        TypeRule::T2,
        !scope.is_taken(field.name.as_bytes()),
    )
}

/// Adds the variable of a declarator.
fn add_field<'p>(scope: &mut Scope<'p>, field: &'p FieldDef, ty: &CType) -> Result<(), NoMemory>
    requires { Sound scope.old }
    ensures added { OnOk result (scope_of scope.new ≡ add field.now.name ty.now (is_frozen_place field.now.base field.now.stars) (scope_of scope.old)) }
    ensures kept { OnOk result (Kept scope.old scope.new) }
{
    let frozen = is_frozen_place(&field.base, field.stars as u64);
    scope.add(field.name.as_bytes(), share_type(ty)?, frozen)
}

/// A variable with its initialiser, in which its own name is visible.
fn type_declared<'p>(
    alloc: Global,
    known: &Known<'_, 'p>,
    scope: &mut Scope<'p>,
    declared: &'p Declared,
) -> Result<TDeclared, TypeFault>
    requires { Sound scope.old }
    ensures { Does (declare (lookup known.now) declared.now) scope.old result scope.new }
{
    let ty = field_type(alloc, known, &declared.field)?;
    need_free(scope, &declared.field)?;
    let slot = scope.slots.len() as u64;
    add_field(scope, &declared.field, &ty)?;
    let init = initial(alloc, known, scope, &ty, &declared.init)?;
    Ok(TDeclared {
        spot: declared.field.spot,
        slot,
        init,
    })
}

/// The variables of a declaration, in order.
pub fn type_declares<'p>(
    alloc: Global,
    known: &Known<'_, 'p>,
    scope: &mut Scope<'p>,
    list: &'p Items<Declared>,
) -> Result<Items<TDeclared>, TypeFault>
    requires { Sound scope.old }
    ensures { Does (declare_all (lookup known.now) list.now) scope.old result scope.new }
{
    let mut typed = Items::new(alloc);
    for declared in list.as_slice() {
        let each = type_declared(alloc, known, scope, declared)?;
        typed.push(each)?;
    }
    Ok(typed)
}

/// What the header of a `for` begins with.
pub fn type_header<'p>(
    alloc: Global,
    known: &Known<'_, 'p>,
    scope: &mut Scope<'p>,
    init: &'p ForInit,
) -> Result<TForInit, TypeFault>
    requires { Sound scope.old }
    ensures { Does (header (lookup known.now) init.now) scope.old result scope.new }
{
    match init {
        ForInit::Nothing => Ok(TForInit::Nothing),
        ForInit::Declare(list) => {
            let list = type_declares(alloc, known, scope, list)?;
            Ok(TForInit::Declare(list))
        }
        ForInit::Express(e) => {
            let value = value_in(alloc, known, scope, e.get())?;
            Ok(TForInit::Express(value))
        }
    }
}
