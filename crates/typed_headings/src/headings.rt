//! The headings of a program's functions.

ghost use Rattle.std.specs.Prelude.{◌≡◌, [], ◌&&◌, is_none};
ghost use Rattle.type_rules.specs.Calls.{own_call};
ghost use Rattle.type_rules.specs.Judging.{needs};
ghost use Rattle.type_rules.specs.Written.{heading, may_stand, at_function, headings_from};
ghost use Rattle.type_steps.specs.Answering.{Answers};
ghost use Rattle.written_types.specs.Each.{mapped};
ghost use Rattle.typed_headings.specs.Judging.{heading_lookup, heading_judged, heading_added, listed};

use crate::list::Headings;
use crate::structs::Structs;
use call_steps::own_call;
use oc_cells::CType;
use oc_source::Function;
use oc_values::Items;
use std::alloc::Global;
use std::collections::BTreeMap;
use type_rules::{Heading, TypeRule};
use type_steps::TypeFault;
use type_steps::needs::needs;
use written_types::{Bodies, Known, heading};

/// A heading has no name of the language's own, and may stand beside earlier ones.
fn need_standing(
    headings: &Headings<'_>,
    function: &Function,
    heading: &Heading,
) -> Result<(), TypeFault>
    ensures { Answers (needs function.now.spot TypeRule.T2 (is_none (own_call function.now.name) && may_stand headings.now.list.items heading.now)) result }
{
    let free = own_call(function.name.as_bytes()).is_none();
    needs(
        function.spot,
        TypeRule::T2,
        free && headings.may_stand(heading),
    )
}

/// No function with a body.
fn no_bodies<'p>(alloc: Global) -> Bodies<'p>
    ensures { result.headings ≡ [] }
{
    Bodies {
        headings: Items::new(alloc),
        numbers: BTreeMap::new(alloc),
    }
}

/// A function's heading, where no function with a body is known.
fn own_heading<'p>(
    alloc: Global,
    structs: &Structs<'_, 'p>,
    bodies: &Bodies<'p>,
    function: &Function,
) -> Result<Heading, TypeFault>
    requires { bodies.now.headings ≡ [] }
    ensures { Answers (heading (at_function (heading_lookup structs.now) structs.now.names.now.defs.now function.now) function.now) result }
{
    let known = Known {
        names: structs.names,
        shapes: structs.shapes,
        above: structs.count_before(function.spot),
        bodies,
        result: &CType::Nothing,
    };
    heading(alloc, &known, function)
}

/// A function's heading, after earlier ones.
fn judged_heading<'p>(
    alloc: Global,
    structs: &Structs<'_, 'p>,
    bodies: &Bodies<'p>,
    headings: &Headings<'p>,
    function: &Function,
) -> Result<Heading, TypeFault>
    requires { bodies.now.headings ≡ [] }
    ensures { Answers (heading_judged (heading_lookup structs.now) structs.now.names.now.defs.now headings.now.list.items function.now) result }
{
    let heading = own_heading(alloc, structs, bodies, function)?;
    need_standing(headings, function, &heading)?;
    Ok(heading)
}

/// Earlier headings with that of a function.
fn add_heading<'p>(
    alloc: Global,
    structs: &Structs<'_, 'p>,
    bodies: &Bodies<'p>,
    headings: Headings<'p>,
    function: &'p Function,
) -> Result<Headings<'p>, TypeFault>
    requires { bodies.now.headings ≡ [] }
    ensures { Answers (heading_added (heading_lookup structs.now) structs.now.names.now.defs.now headings.entry.list.items function.now) (mapped listed result) }
{
    let heading = judged_heading(alloc, structs, bodies, &headings, function)?;
    Ok(headings.with(heading, function.name.as_bytes())?)
}

/// The headings of functions, each judged where those before it are known.
pub fn type_headings<'p>(
    alloc: Global,
    structs: &Structs<'_, 'p>,
    functions: &'p Items<Function>,
) -> Result<Headings<'p>, TypeFault>
    ensures { Answers (headings_from (heading_lookup structs.now) structs.now.names.now.defs.now [] functions.now) (mapped listed result) }
{
    let none = no_bodies(alloc);
    let mut headings = Headings::new(alloc);
    for function in functions.as_slice() {
        headings = add_heading(alloc, structs, &none, headings, function)?;
    }
    Ok(headings)
}
