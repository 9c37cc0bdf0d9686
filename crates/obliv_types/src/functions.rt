//! The functions with a body.

ghost use Rattle.std.specs.Prelude.{◌≡◌, [], length, slice_get};
ghost use Rattle.type_rules.specs.ProgramRules.{body};
ghost use Rattle.type_steps.specs.Answering.{Answers};
ghost use Rattle.typed_headings.specs.InTurn.{in_turn};
ghost use Rattle.obliv_types.specs.Functions.{body_lookup, in_body, body_added, function_added};

use oc_source::{Function, Stmt};
use oc_typed::TypedFunction;
use oc_values::Items;
use std::alloc::Global;
use type_rules::Heading;
use type_steps::TypeFault;
use typed_headings::Structs;
use typed_statements::type_body;
use written_types::{Bodies, Known};

/// A function with its body.
fn type_function<'p>(
    alloc: Global,
    structs: &Structs<'_, 'p>,
    bodies: &Bodies<'p>,
    function: &'p Function,
    heading: &Heading,
    stmts: &'p Items<Stmt>,
) -> Result<TypedFunction, TypeFault>
    ensures { Answers (body (in_body (body_lookup structs.now bodies.now.headings) structs.now.names.now.defs.now function.now heading.now) function.now heading.now stmts.now) result }
{
    let known = Known {
        names: structs.names,
        shapes: structs.shapes,
        above: structs.count_before(function.spot),
        bodies,
        result: &heading.result,
    };
    type_body(alloc, &known, function, heading, stmts)
}

/// Typed functions with a further one, where its heading is there.
fn add_body<'p>(
    alloc: Global,
    structs: &Structs<'_, 'p>,
    bodies: &Bodies<'p>,
    typed: Items<TypedFunction>,
    function: &'p Function,
    stmts: &'p Items<Stmt>,
) -> Result<Items<TypedFunction>, TypeFault>
    ensures { Answers (body_added (body_lookup structs.now bodies.now.headings) structs.now.names.now.defs.now typed function.now (slice_get bodies.now.headings (length typed)) stmts.now) result }
{
    match bodies.headings.get(typed.len()) {
        None => Ok(typed),
        Some(heading) => {
            let mut typed = typed;
            typed.push(type_function(alloc, structs, bodies, function, heading, stmts)?)?;
            Ok(typed)
        }
    }
}

/// Typed functions with a further one, if it has a body.
fn add_function<'p>(
    alloc: Global,
    structs: &Structs<'_, 'p>,
    bodies: &Bodies<'p>,
    typed: Items<TypedFunction>,
    function: &'p Function,
) -> Result<Items<TypedFunction>, TypeFault>
    ensures { Answers (function_added (body_lookup structs.now bodies.now.headings) structs.now.names.now.defs.now bodies.now.headings typed function.now) result }
{
    match &function.body {
        None => Ok(typed),
        Some(stmts) => add_body(alloc, structs, bodies, typed, function, stmts),
    }
}

/// The functions with a body, in order.
pub fn type_functions<'p>(
    alloc: Global,
    structs: &Structs<'_, 'p>,
    bodies: &Bodies<'p>,
    functions: &'p Items<Function>,
) -> Result<Items<TypedFunction>, TypeFault>
    ensures { Answers (in_turn (function_added (body_lookup structs.now bodies.now.headings) structs.now.names.now.defs.now bodies.now.headings) [] functions.now) result }
{
    let mut typed = Items::new(alloc);
    for function in functions.as_slice() {
        typed = add_function(alloc, structs, bodies, typed, function)?;
    }
    Ok(typed)
}
