//! Lines at the end of a list of lines.

ghost use Rattle.std.specs.Prelude.{◌≡◌, [], ◌∷◌, ◌++◌, ◌+◌, ◌≤◌, ◌<◌, OnOk, IfOk, length, slice_set, if◌then◌else◌};
ghost use Rattle.oc_code.specs.Lower.{line as line_of, below as below_of};
ghost use Rattle.oc_code.specs.declared.code.Instr.TheVariants.{Jump, JumpZero};
ghost use Rattle.oc_typed.specs.Static.{same_spot as same_in};
ghost use Rattle.cond_lowering.specs.Pieces.{Adds, fixed, one};
ghost use Rattle.cond_lowering.specs.Statements.{head_of};

use oc_code::{Instr, Line};
use oc_source::Spot;
use oc_values::{Items, NoMemory};

/// One more instruction.
pub fn put(code: &mut Items<Line>, spot: Spot, instr: Instr) -> Result<(), NoMemory>
    ensures { OnOk result (Adds code.old (one spot instr) code.new) }
{
    code.push(Line { spot, instr })?;
    Ok(())
}

/// Writes where the two jumps of a choice lead: that of its test behind the other one, and that one to the end.
pub fn land(code: &mut Items<Line>, spot: Spot, test: usize, jump: usize)
    requires { (test < length code.old) × (jump < length code.old) }
    ensures { code.new ≡ slice_set (slice_set code.old test (line_of spot (JumpZero (jump + 1)))) jump (line_of spot (Jump (length code.old))) }
{
    let end = code.len() as u64;
    code.set(
        test,
        Line {
            spot,
            instr: Instr::JumpZero(jump as u64 + 1),
        },
    );
    code.set(
        jump,
        Line {
            spot,
            instr: Instr::Jump(end),
        },
    );
}

/// How many nodes hold a part of a node that this many hold, as far as a call's reach tells them apart.
pub fn below(depth: u64) -> u64
    ensures value { result ≡ below_of depth }
    ensures bound { result ≤ 1000 }
{
    if depth < 1000 { depth + 1 } else { 1000 }
}

/// Whether two spots are the same.
fn same_spot(a: Spot, b: Spot) -> bool
    ensures { result ≡ same_in a b }
{
    a.line == b.line && a.column == b.column
}

/// How many nodes hold the part of a conversion: one that the checker added, at its part's spot, counts for nothing.
pub fn lighter(spot: Spot, part: Spot, depth: u64) -> u64
    requires { depth ≤ 1000 }
    ensures value { result ≡ (if same_in spot part then depth else below_of depth) }
    ensures bound { result ≤ 1000 }
{
    if same_spot(spot, part) {
        depth
    } else {
        below(depth)
    }
}

/// The head of a loop: three jumps, whose places come later, and its step, which stands at the place that is returned.
pub fn open_loop(code: &mut Items<Line>, spot: Spot) -> Result<u64, NoMemory>
    ensures code { OnOk result (Adds code.old (fixed (head_of spot)) code.new) }
    ensures step { IfOk result (λ step. step ≡ length code.old + 3) }
{
    put(code, spot, Instr::Jump(0))?;
    put(code, spot, Instr::Jump(0))?;
    put(code, spot, Instr::Jump(0))?;
    let step = code.len() as u64;
    put(code, spot, Instr::Step)?;
    Ok(step)
}

/// Writes where the three jumps at the head of a loop lead: to its test, to its end, and to its advance.
pub fn land_loop(code: &mut Items<Line>, spot: Spot, top: usize, after: usize, test: usize)
    requires { top + 3 < length code.old }
    ensures { code.new ≡ slice_set (slice_set (slice_set code.old top (line_of spot (Jump test))) (top + 1) (line_of spot (Jump (length code.old)))) (top + 1 + 1) (line_of spot (Jump after)) }
{
    let end = code.len() as u64;
    code.set(
        top,
        Line {
            spot,
            instr: Instr::Jump(test as u64),
        },
    );
    code.set(
        top + 1,
        Line {
            spot,
            instr: Instr::Jump(end),
        },
    );
    code.set(
        top + 2,
        Line {
            spot,
            instr: Instr::Jump(after as u64),
        },
    );
}
