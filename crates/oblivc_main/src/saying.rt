//! The line on the error stream.

ghost use Rattle.std.specs.Prelude.{◌≡◌, ℕ, List, IfOk, string_bytes};
ghost use Rattle.oblivc_main.specs.Lines.{usage_line, refused_line, trap_line, steps_line, file_line, dealt_line, input_line, memory_line};
ghost use Rattle.oblivc_main.specs.Saying.{Says, Said};

use crate::names::{source_name, trap_name};
use crate::refusal::Refusal;
use crate::status::{
    DEALT, DONE, FILE, INPUT, NO_MEMORY, OUTPUT, REFUSED, STEPS, Status, TRAP, USAGE,
};
use oc_cells::TrapKind;
use oc_outside::{PutEnd, Sink, write_all};
use oc_source::Spot;
use std::alloc::{AllocError, Global};

/// The line for words that aren't a command.
fn line_for_usage(alloc: Global, k: usize) -> Result<String, AllocError>
    ensures { IfOk result (λ line. string_bytes line ≡ usage_line k) }
{
    format!(in alloc; "usage {k}\n")
}

/// The line for a source that is refused.
fn line_for_refusal(alloc: Global, refusal: Refusal) -> Result<String, AllocError>
    ensures { IfOk result (λ line. string_bytes line ≡ refused_line refusal) }
{
    let rule = source_name(refusal.rule);
    let line = refusal.spot.line;
    let column = refusal.spot.column;
    format!(in alloc; "refused {rule} {line}:{column}\n")
}

/// The line for a trap.
fn line_for_trap(alloc: Global, kind: TrapKind, spot: Spot) -> Result<String, AllocError>
    ensures { IfOk result (λ line. string_bytes line ≡ trap_line kind spot) }
{
    let name = trap_name(kind);
    let line = spot.line;
    let column = spot.column;
    format!(in alloc; "trap {name} {line}:{column}\n")
}

/// The line for a budget of steps that was spent.
fn line_for_steps(alloc: Global, n: u64) -> Result<String, AllocError>
    ensures { IfOk result (λ line. string_bytes line ≡ steps_line n) }
{
    format!(in alloc; "steps {n}\n")
}

/// The line for too few dealt transfers.
fn line_for_dealt(alloc: Global, n: u32) -> Result<String, AllocError>
    ensures { IfOk result (λ line. string_bytes line ≡ dealt_line n) }
{
    format!(in alloc; "dealt {n}\n")
}

/// The line for an input file with a wrong line.
fn line_for_input(alloc: Global, n: u32) -> Result<String, AllocError>
    ensures { IfOk result (λ line. string_bytes line ≡ input_line n) }
{
    format!(in alloc; "input {n}\n")
}

/// The line for a file that can't be read or written.
fn line_for_file(alloc: Global, name: &str) -> Result<String, AllocError>
    ensures { IfOk result (λ line. string_bytes line ≡ file_line name.now) }
{
    format!(in alloc; "file {name}\n")
}

/// Writes the line, and answers the number. Where that fails the number stays, and where it finds no
/// memory it is that of want of memory.
fn say<E: Sink>(err: &mut E, line: &str, number: u8) -> u8
    ensures { Says (record {
      faults_before = E.faults err.old;
      faults_after = E.faults err.new;
      before = E.written err.old;
      after = E.written err.new;
    }) line.now number result }
{
    match write_all(err, line.as_bytes()) {
        PutEnd::Done | PutEnd::Failed => number,
        PutEnd::NoMemory => NO_MEMORY,
    }
}

/// Writes a line that may have found no memory; then `memory` is written in its place.
fn say_line<E: Sink>(err: &mut E, line: Result<String, AllocError>, number: u8) -> u8
    ensures { (wanted : List ℕ) → IfOk line (λ text. string_bytes text ≡ wanted) → Says (record {
      faults_before = E.faults err.old;
      faults_after = E.faults err.new;
      before = E.written err.old;
      after = E.written err.new;
    }) wanted number result }
{
    match line {
        Ok(text) => say(err, text.as_str(), number),
        Err(_) => say(err, "memory\n", NO_MEMORY),
    }
}

/// Says how the call ended, and answers the number of that status. Nothing is said where all was done.
pub fn report<E: Sink>(alloc: Global, status: Status<'_>, err: &mut E) -> u8
    ensures { Said (record {
      faults_before = E.faults err.old;
      faults_after = E.faults err.new;
      before = E.written err.old;
      after = E.written err.new;
    }) status.entry result }
{
    match status {
        Status::Done => DONE,
        Status::Refused(refusal) => say_line(err, line_for_refusal(alloc, refusal), REFUSED),
        Status::NoCommand(k) => say_line(err, line_for_usage(alloc, k), USAGE),
        Status::Trap { kind, spot } => say_line(err, line_for_trap(alloc, kind, spot), TRAP),
        Status::Steps(n) => say_line(err, line_for_steps(alloc, n), STEPS),
        Status::File(name) => say_line(err, line_for_file(alloc, name), FILE),
        Status::Dealt(n) => say_line(err, line_for_dealt(alloc, n), DEALT),
        Status::Input(line) => say_line(err, line_for_input(alloc, line), INPUT),
        Status::NoMemory => say(err, "memory\n", NO_MEMORY),
        Status::Output => say(err, "output\n", OUTPUT),
    }
}
