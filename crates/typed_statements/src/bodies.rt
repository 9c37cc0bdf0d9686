//! The bodies of functions.

ghost use Rattle.std.specs.Prelude.{◌≡◌, OnOk};
ghost use Rattle.type_rules.specs.ProgramRules.{body, with_params};
ghost use Rattle.type_steps.specs.Answering.{Answers};
ghost use Rattle.visible_variables.specs.Scopes.{scope_of, Sound};
ghost use Rattle.written_types.specs.Known.{lookup};

use crate::statements::type_stmts;
use oc_cells::SlotType;
use oc_source::{Function, Param, Stmt};
use oc_typed::TypedFunction;
use oc_values::{Items, NoMemory};
use std::alloc::Global;
use type_rules::Heading;
use type_steps::TypeFault;
use type_steps::types::share_type;
use visible_variables::Scope;
use written_types::Known;

/// Adds the parameters, which have these slots.
fn add_params<'p>(
    scope: &mut Scope<'p>,
    params: &'p Items<Param>,
    slots: &Items<SlotType>,
) -> Result<(), NoMemory>
    requires { Sound scope.old }
    ensures sound { OnOk result (Sound scope.new) }
    ensures added { OnOk result (scope_of scope.new ≡ with_params params.now slots.now (scope_of scope.old)) }
{
    let mut at = 0;
    for param in params.as_slice() {
        match slots.get(at) {
            None => return Ok(()),
            Some(slot) => {
                scope.add(param.name.as_bytes(), share_type(&slot.ty)?, slot.frozen)?;
                at += 1;
            }
        }
    }
    Ok(())
}

/// A function with its body, in whose scope its parameters are. `known.result` is the result of the heading.
pub fn type_body<'p>(
    alloc: Global,
    known: &Known<'_, 'p>,
    function: &'p Function,
    heading: &Heading,
    stmts: &'p Items<Stmt>,
) -> Result<TypedFunction, TypeFault>
    ensures { Answers (body (lookup known.now) function.now heading.now stmts.now) result }
{
    let mut scope = Scope::new(alloc);
    add_params(&mut scope, &function.params, &heading.params)?;
    let body = type_stmts(alloc, known, &mut scope, false, stmts)?;
    Ok(TypedFunction {
        name: function.name.share()?,
        result: share_type(&heading.result)?,
        params: heading.params.len() as u64,
        slots: scope.slots,
        obliv: function.obliv,
        body,
    })
}
