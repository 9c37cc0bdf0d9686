//! Calls of functions.

ghost use Rattle.std.specs.Prelude.{length, nat_eq, not, ◌||◌};
ghost use Rattle.type_rules.specs.Judging.{needs, is_nothing};
ghost use Rattle.type_rules.specs.Lookup.{is};
ghost use Rattle.type_rules.specs.Calls.{function_called};
ghost use Rattle.oc_typed.specs.declared.typed.TExprNode as node;
ghost use Rattle.type_steps.specs.Answering.{Answers};

use oc_source::Spot;
use oc_typed::{TExpr, TExprNode};
use oc_values::{Boxed, Items};
use std::alloc::Global;
use type_rules::{Found, Heading, TypeRule};
use type_steps::TypeFault;
use type_steps::needs::needs;
use type_steps::types::{is_nothing, share_type};
use type_steps::values::new_value;

/// A result, unless the call stands alone.
fn need_result(alone: bool, spot: Spot, heading: &Heading) -> Result<(), TypeFault>
    ensures { Answers (needs spot TypeRule.T3 (alone || not (is_nothing heading.now.result))) result }
{
    needs(spot, TypeRule::T3, alone || !is_nothing(&heading.result))
}

/// As many arguments as there are parameters.
fn need_count(spot: Spot, heading: &Heading, args: &Items<TExpr>) -> Result<(), TypeFault>
    ensures { Answers (needs spot TypeRule.T7 (nat_eq (length args.now) (length heading.now.params))) result }
{
    needs(spot, TypeRule::T7, args.len() == heading.params.len())
}

/// A call with as many arguments as there are parameters.
fn call_value(
    alloc: Global,
    spot: Spot,
    function: u64,
    heading: &Heading,
    args: Items<TExpr>,
) -> Result<Boxed<Found>, TypeFault>
    ensures { Answers (is spot heading.now.result (node.Call function args)) result }
{
    let ty = share_type(&heading.result)?;
    Ok(new_value(alloc, spot, ty, TExprNode::Call { function, args })?)
}

/// A call of the function of a number; one without a value stands alone.
pub fn function_called(
    alloc: Global,
    alone: bool,
    spot: Spot,
    number: u64,
    heading: &Heading,
    args: Items<TExpr>,
) -> Result<Boxed<Found>, TypeFault>
    ensures { Answers (function_called alone spot number heading.now args) result }
{
    need_result(alone, spot, heading)?;
    need_count(spot, heading, &args)?;
    call_value(alloc, spot, number, heading, args)
}
