//! The ways out of a statement, of which the newest is the last.

ghost use Rattle.std.specs.Prelude.{◌≡◌, ◌≤◌, ◌<◌, true, false, OnOk, length, take, drop};
ghost use Rattle.oc_cells.specs.declared.types.CType.{Int as CInt, Nothing as CNothing};
ghost use Rattle.oc_code.specs.Lower.{end_code};
ghost use Rattle.cond_lowering.specs.Pieces.{Adds, fixed, one};
ghost use Rattle.cond_lowering.specs.Ways.{exit_of, is_loop as loop_in, way, outs, null_end, LeavesLast};

use crate::writing::put;
use oc_cells::CType;
use oc_code::{Instr, Line};
use oc_source::Spot;
use oc_values::{IntKind, Items, NoMemory};

/// What is left on a way out.
#[derive(Clone, Copy, Debug)]
pub enum ExitKind {
    /// A slot's variable.
    Slot(u64),
    /// A part of an `obliv if`.
    Part,
    /// A `~obliv` block.
    Lift,
    /// A loop, which ends the way: where its end stands, and where its next turn begins.
    Loop { end: u64, next: u64 },
}

/// What is left on a way out, with the spot of what it is left at.
#[derive(Clone, Copy, Debug)]
pub struct Exit {
    pub spot: Spot,
    pub kind: ExitKind,
}

/// Whether this is a loop.
fn is_loop(kind: ExitKind) -> bool
    ensures { result ≡ loop_in kind }
{
    matches!(kind, ExitKind::Loop { end: _, next: _ })
}

/// How a `break` leaves this, or a `continue`, which goes on with the next turn.
fn emit_exit(code: &mut Items<Line>, again: bool, e: Exit) -> Result<(), NoMemory>
    ensures { OnOk result (Adds code.old (one e.spot (exit_of again e.kind)) code.new) }
{
    match e.kind {
        ExitKind::Slot(slot) => put(code, e.spot, Instr::Leave(slot)),
        ExitKind::Part => put(code, e.spot, Instr::EndWhen),
        ExitKind::Lift => put(code, e.spot, Instr::EndAlways),
        ExitKind::Loop { end, next } => {
            if again {
                put(code, e.spot, Instr::Jump(next))
            } else {
                put(code, e.spot, Instr::Jump(end))
            }
        }
    }
}

/// The value 0 of a kind, public, as what a call gives.
fn emit_zero(code: &mut Items<Line>, kind: IntKind) -> Result<(), NoMemory>
    ensures { OnOk result (Adds code.old (fixed (end_code (CInt kind false))) code.new) }
{
    let spot = Spot { line: 0, column: 0 };
    put(code, spot, Instr::Push { kind, value: 0 })?;
    put(code, spot, Instr::BackValue)
}

/// The same, hidden.
fn emit_hidden_zero(code: &mut Items<Line>, kind: IntKind) -> Result<(), NoMemory>
    ensures { OnOk result (Adds code.old (fixed (end_code (CInt kind true))) code.new) }
{
    let spot = Spot { line: 0, column: 0 };
    put(code, spot, Instr::Push { kind, value: 0 })?;
    put(
        code,
        spot,
        Instr::Turn {
            from: kind,
            to: kind,
            lift: true,
        },
    )?;
    put(code, spot, Instr::BackValue)
}

/// The value 0 of a kind, public or hidden, as what a call gives.
fn emit_none(code: &mut Items<Line>, kind: IntKind, obliv: bool) -> Result<(), NoMemory>
    ensures { OnOk result (Adds code.old (fixed (end_code (CInt kind obliv))) code.new) }
{
    if obliv {
        return emit_hidden_zero(code, kind);
    }
    emit_zero(code, kind)
}

/// The null pointer, as what a call gives.
fn emit_null(code: &mut Items<Line>) -> Result<(), NoMemory>
    ensures { OnOk result (Adds code.old (fixed null_end) code.new) }
{
    let spot = Spot { line: 0, column: 0 };
    put(code, spot, Instr::Null)?;
    put(code, spot, Instr::BackValue)
}

/// A call gives nothing.
fn emit_leave(code: &mut Items<Line>) -> Result<(), NoMemory>
    ensures { OnOk result (Adds code.old (fixed (end_code CNothing)) code.new) }
{
    let spot = Spot { line: 0, column: 0 };
    put(code, spot, Instr::Back)
}

/// The end of a call that gives the zero value of its result.
pub fn emit_end(code: &mut Items<Line>, gives: &CType) -> Result<(), NoMemory>
    ensures { OnOk result (Adds code.old (fixed (end_code gives.now)) code.new) }
{
    match gives {
        CType::Int { kind, obliv } => emit_none(code, *kind, *obliv),
        CType::Pointer { frozen: _, to: _ } => emit_null(code),
        CType::Array { len: _, of: _ } => emit_leave(code),
        CType::Struct(_) => emit_leave(code),
        CType::Nothing => emit_leave(code),
    }
}

/// The way out of all of these up to a loop, or else to the end of the call.
pub fn emit_way(
    code: &mut Items<Line>,
    again: bool,
    exits: &Items<Exit>,
    gives: &CType,
) -> Result<(), NoMemory>
    ensures { OnOk result (Adds code.old (fixed (way again exits.now (end_code gives.now))) code.new) }
{
    let list = exits.as_slice();
    let mut at = list.len();
    'outward: while at > 0 {
        at -= 1;
        let e = list[at];
        emit_exit(code, again, e)?;
        if is_loop(e.kind) {
            return Ok(());
        }
    }
    emit_end(code, gives)
}

/// Leaves what was entered last.
fn leave_last(code: &mut Items<Line>, exits: &mut Items<Exit>) -> Result<(), NoMemory>
    requires { 0 < length exits.old }
    ensures { OnOk result (LeavesLast exits.old exits.new code.old code.new) }
{
    match exits.pop() {
        Some(e) => emit_exit(code, false, e),
        None => Ok(()),
    }
}

/// Leaves what was entered since there were this many ways out.
pub fn close(code: &mut Items<Line>, exits: &mut Items<Exit>, mark: usize) -> Result<(), NoMemory>
    requires { mark ≤ length exits.old }
    ensures code { OnOk result (Adds code.old (fixed (outs (drop mark exits.old))) code.new) }
    ensures exits { OnOk result (exits.new ≡ take mark exits.old) }
{
    'leaving: while exits.len() > mark {
        leave_last(code, exits)?;
    }
    Ok(())
}
