//! The command `clear`.

ghost use Rattle.std.specs.Prelude.{◌≡◌, ◌≤◌, IfOk};
ghost use Rattle.oc_meanings.specs.Clear.{Clear};
ghost use Rattle.oblivcc_commands.specs.Views.{clear_of};
ghost use Rattle.oblivcc_commands.specs.declared.asked.Asked.TheVariants as commands;
ghost use Rattle.oblivc_main.specs.Clearing.{Runs, setup_of, end_of};
ghost use Rattle.oblivc_main.specs.Endings.{Ends};

use crate::printing::print_all;
use crate::reading::{read_given, read_source};
use crate::status::Status;
use clear_walk::{ClearRun, run_clear};
use command_grammar::list_or_none;
use oblivcc_commands::ClearWords;
use oc_outside::{PutEnd, Sink, Vault};
use oc_typing::Typed;
use oc_values::{Items, NoMemory};
use oc_walk::{ClearSetup, Outcome};
use std::alloc::Global;

/// What a run starts from, on these words of both parties.
fn setup_of(
    alloc: Global,
    asked: &ClearWords<'_>,
    first: Items<i64>,
    second: Items<i64>,
) -> Result<ClearSetup, NoMemory>
    ensures { IfOk result (λ setup. setup ≡ setup_of (clear_of asked.now) first second) }
{
    let public = list_or_none(alloc, asked.public)?;
    Ok(ClearSetup {
        public: Items::from_vec(public),
        first,
        second,
        dealt: asked.dealt,
        budget: asked.steps,
    })
}

/// Runs a program on these words of both parties.
fn run_words(
    alloc: Global,
    asked: &ClearWords<'_>,
    typed: &Typed,
    first: Items<i64>,
    second: Items<i64>,
) -> Result<ClearRun, NoMemory>
    ensures { IfOk result (λ run. Clear typed.now.structs typed.now.functions typed.now.entry (setup_of (clear_of asked.now) first second) run.shown run.outcome) }
{
    let setup = setup_of(alloc, asked, first, second)?;
    run_clear(alloc, typed, &setup)
}

/// Reads the source and the inputs that are named, in this order, and runs the program.
fn run_files<'w, V: Vault>(
    alloc: Global,
    asked: &ClearWords<'w>,
    files: &mut V,
) -> Result<ClearRun, Status<'w>>
    ensures end { Runs (record {
      told = V.contents files.old;
      faults_before = V.faults files.old;
      faults_after = V.faults files.new;
      failed = V.failed files.new;
    }) (clear_of asked.now) result }
    ensures never_falls { V.faults files.old ≤ V.faults files.new }
    ensures unchanged { V.contents files.new ≡ V.contents files.old }
{
    let source = read_source(alloc, files, asked.file)?;
    let first_words = read_given(alloc, files, asked.first)?;
    let second_words = read_given(alloc, files, asked.second)?;
    match run_words(alloc, asked, &source.typed, first_words, second_words) {
        Ok(run) => Ok(run),
        Err(_) => Err(Status::NoMemory),
    }
}

/// How the command ends where all that the program shows was printed.
fn end_of(asked: &ClearWords<'_>, outcome: Outcome) -> Status<'static>
    ensures { result ≡ end_of (clear_of asked.now) outcome }
{
    match outcome {
        Outcome::Done => Status::Done,
        Outcome::Trap { kind, spot } => Status::Trap { kind, spot },
        Outcome::StepsSpent => Status::Steps(asked.steps),
        Outcome::DealtSpent => Status::Dealt(asked.dealt),
    }
}

/// Reads the files of a command, runs its program and prints what it shows, also where it ends in a trap, or for want of
/// steps or transfers.
pub fn clear<'w, V: Vault, S: Sink>(
    alloc: Global,
    asked: &ClearWords<'w>,
    files: &mut V,
    out: &mut S,
) -> Status<'w>
    ensures end { Ends (record {
      told = V.contents files.old;
      told_after = V.contents files.new;
      faults_before = V.faults files.old;
      faults_after = V.faults files.new;
      failed = V.failed files.new;
      out = record { faults_before = S.faults out.old; faults_after = S.faults out.new; before = S.written out.old; after = S.written out.new };
    }) (commands.Clear asked.now) result }
    ensures unchanged { V.contents files.new ≡ V.contents files.old }
{
    let run = match run_files(alloc, asked, files) {
        Ok(run) => run,
        Err(status) => return status,
    };
    match print_all(alloc, out, run.shown.as_slice()) {
        PutEnd::Done => end_of(asked, run.outcome),
        PutEnd::Failed => Status::Output,
        PutEnd::NoMemory => Status::NoMemory,
    }
}
