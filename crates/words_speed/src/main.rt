//! Work for a stopwatch: command lines with a list of integers, whose words are scanned and whose list is read.
#![tactic(auto)]

ghost use Rattle.std.specs.Prelude.{IsTrue};
ghost use Rattle.command_grammar.specs.Sound.{is_sound};
ghost use Rattle.command_grammar.specs.Views.{commands_of};

use command_grammar::{Command, CommandOption, WordForm, list_or_none, scan, value, words_from};
use std::alloc::{AllocError, Global};
use std::env;
use std::process::ExitCode;

const COMMANDS: [Command<()>; 1] = [Command {
    kind: (),
    name: "clear",
    operands: &[WordForm::Any],
    options: &[
        CommandOption {
            name: "--public",
            form: WordForm::IntegerList,
            slots: &[0],
        },
        CommandOption {
            name: "--input1",
            form: WordForm::Any,
            slots: &[1],
        },
        CommandOption {
            name: "--input2",
            form: WordForm::Any,
            slots: &[2],
        },
        CommandOption {
            name: "--steps",
            form: WordForm::Number {
                least: 1,
                most: 1_000_000_000,
            },
            slots: &[3],
        },
    ],
    required: &[],
}];

fn commands() -> &'static [Command<()>]
    ensures { IsTrue (is_sound (commands_of result.now)) }
{
    &COMMANDS
}

/// The work that the words of the command line ask for: lists of so many integers, each of so many digits, read so
/// many times.
#[derive(Clone, Copy)]
struct Work {
    count: u32,
    digits: u32,
    times: u32,
}

fn read_work(rt: &HostRuntime) -> Option<Work> {
    let mut words = env::args(rt).ok()?;
    words.next()?;
    let count = words.next()?.parse::<u32>().ok()?;
    let digits = words.next()?.parse::<u32>().ok()?;
    let times = words.next()?.parse::<u32>().ok()?;
    Some(Work {
        count,
        digits,
        times,
    })
}

/// A list of integers.
fn listed(alloc: Global, work: Work) -> Result<String, AllocError> {
    let mut list = String::new(alloc);
    for at in 0..work.count {
        if at > 0 {
            list.push_str(",")?;
        }
        for _ in 0..work.digits {
            list.push_str("7")?;
        }
    }
    Ok(list)
}

/// The words of a command with that list.
fn words_of(alloc: Global, work: Work) -> Result<Vec<String>, AllocError> {
    let mut words = Vec::new(alloc);
    for word in ["clear", "a.oc", "--public"] {
        words.push(String::from_str(alloc, word)?)?;
    }
    words.push(listed(alloc, work)?)?;
    for word in ["--input1", "a", "--input2", "b", "--steps", "9"] {
        words.push(String::from_str(alloc, word)?)?;
    }
    Ok(words)
}

/// How many integers were read in all.
fn perform(alloc: Global, work: Work) -> Result<u64, AllocError> {
    let words = words_of(alloc, work)?;
    let mut found = 0;
    for _ in 0..work.times {
        if scan(commands(), words.as_slice()).is_ok() {
            let list = list_or_none(alloc, value(words_from(words.as_slice(), 2), "--public"))?;
            found = u64::wrapping_add(found, list.len() as u64);
        }
    }
    Ok(found)
}

fn main(rt: HostRuntime) -> ExitCode {
    let Some(asked) = read_work(&rt) else {
        return match println!(rt; "words_speed COUNT DIGITS TIMES") {
            Ok(()) => ExitCode::SUCCESS,
            Err(_) => ExitCode::FAILURE,
        };
    };
    match perform(rt.alloc(), asked) {
        Ok(done) => match println!(rt; "{done}") {
            Ok(()) => ExitCode::SUCCESS,
            Err(_) => ExitCode::FAILURE,
        },
        Err(_) => ExitCode::FAILURE,
    }
}
