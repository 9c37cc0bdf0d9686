//! New variables of the running call.

ghost use Rattle.clear_walk.specs.Runs.{around, RunsOpened, RunsFilled, RunsParams};

use crate::around::{At, Frame};
use crate::writes::fill;
use clear_actions::cells::odd;
use clear_actions::variables::make_variable;
use clear_actions::{Fault, Machine};
use oc_cells::CType;
use oc_source::Spot;
use oc_walk::Value;

/// A variable: its type, and the block that it has.
#[derive(Clone, Copy)]
pub struct Opened<'t> {
    pub ty: &'t CType,
    pub block: u64,
}

/// A new variable of zero cells under the number of its slot.
pub fn open<'t>(
    m: &mut Machine<'t>,
    frame: &Frame<'t>,
    at: At,
    spot: Spot,
    number: u64,
) -> Result<Opened<'t>, Fault>
    ensures { RunsOpened (around frame.now at) spot number m.old result m.new }
{
    let Some(slot) = frame.slots.get(number as usize) else {
        return Err(odd(spot));
    };
    let ty = &slot.ty;
    let block = make_variable(m, spot, ty, number)?;
    Ok(Opened { ty, block })
}

/// The variable of a parameter, with the value of its argument.
fn make_parameter<'t>(
    m: &mut Machine<'t>,
    frame: &Frame<'t>,
    at: At,
    spot: Spot,
    number: u64,
    value: Value<i128>,
) -> Result<(), Fault>
    ensures { RunsFilled (around frame.now at) spot number value m.old result m.new }
{
    let variable = open(m, frame, at, spot, number)?;
    fill(m, spot, variable.ty, variable.block, value)
}

/// The variables of a call's parameters, each with the value of its argument.
pub fn make_parameters<'t>(
    m: &mut Machine<'t>,
    frame: &Frame<'t>,
    at: At,
    spot: Spot,
    values: &[Value<i128>],
) -> Result<(), Fault>
    ensures { RunsParams (around frame.now at) spot values.now m.old result m.new }
{
    for number in 0..values.len() {
        make_parameter(m, frame, at, spot, number as u64, values[number])?;
    }
    Ok(())
}
