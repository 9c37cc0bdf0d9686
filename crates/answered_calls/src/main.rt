//! Calls of the program over objects in memory, with what they have to answer and write.
//!
//! It prints how many rows of each table came out as they stand there, and the number of each other row. Memory is
//! ample, so that no row may answer want of it.
#![tactic(auto)]

mod call;
mod tables;

use crate::call::{Answer, Found, NoRoom, Stored, answers};
use crate::tables::{
    ABSENT, COMMAND, DEAL, DEALT, FAILING, INPUTS, REPEATED, Repeated, SOURCES, SUM, WORDS,
};
use oc_outside::MemoryArguments;
use oc_values::NoMemory;
use std::alloc::{AllocError, Global};
use std::io;
use std::process::ExitCode;

/// How many rows of a table were tried, and how many of them came out.
#[derive(Clone, Copy)]
struct Tally {
    tried: u32,
    came_out: u32,
}

impl Tally {
    const NONE: Tally = Tally {
        tried: 0,
        came_out: 0,
    };

    /// Counts a row, and says its number where it didn't come out.
    fn count(self, rt: &HostRuntime, name: &str, row: Result<bool, NoMemory>) -> io::Result<Tally> {
        let tried = self.tried.saturating_add(1);
        match row {
            Ok(true) => Ok(Tally {
                tried,
                came_out: self.came_out.saturating_add(1),
            }),
            _ => {
                println!(rt; "not {name} {}", self.tried)?;
                Ok(Tally {
                    tried,
                    came_out: self.came_out,
                })
            }
        }
    }

    fn show(self, rt: &HostRuntime, name: &str) -> io::Result<()> {
        println!(rt; "{name}: {} of {}", self.came_out, self.tried)
    }
}

/// A call on files that never fail, with streams that take all at once.
fn surely<'c>(files: &'c [Stored<'c>]) -> Found<'c> {
    Found {
        files,
        failing: [&[], &[], &[]],
        most: 100,
    }
}

fn answer<'c>(status: u8, out: &'c [u8], err: &'c [u8]) -> Answer<'c> {
    Answer {
        status,
        out,
        err,
        has_sizes: false,
        first: None,
        second: None,
    }
}

/// The sum and both inputs.
const FILES: [Stored<'static>; 3] = [("sum.oc", SUM), ("one", b"5\n"), ("two", b"7\n")];

fn show_words(rt: &HostRuntime) -> io::Result<()> {
    let mut tally = Tally::NONE;
    for (words, line) in &WORDS {
        let row = answers(
            rt.alloc(),
            &MemoryArguments::new(words),
            &surely(&FILES),
            &answer(2, b"", line),
        );
        tally = tally.count(rt, "words", row)?;
    }
    tally.show(rt, "words")
}

fn show_absent(rt: &HostRuntime) -> io::Result<()> {
    let mut tally = Tally::NONE;
    for (words, line) in &ABSENT {
        let row = answers(
            rt.alloc(),
            &MemoryArguments::new(words),
            &surely(&FILES),
            &answer(5, b"", line),
        );
        tally = tally.count(rt, "absent files", row)?;
    }
    tally.show(rt, "absent files")
}

fn show_inputs(rt: &HostRuntime) -> io::Result<()> {
    let mut tally = Tally::NONE;
    for (first, second, status, out, err) in &INPUTS {
        let files = [("sum.oc", SUM), ("one", *first), ("two", *second)];
        let row = answers(
            rt.alloc(),
            &MemoryArguments::new(&COMMAND),
            &surely(&files),
            &answer(*status, out, err),
        );
        tally = tally.count(rt, "inputs", row)?;
    }
    tally.show(rt, "inputs")
}

/// The call on this source answers so.
fn source_answers(
    alloc: Global,
    source: &[u8],
    status: u8,
    out: &[u8],
    err: &[u8],
) -> Result<bool, NoMemory> {
    let files = [
        ("sum.oc", source),
        ("one", b"5".as_slice()),
        ("two", b"7".as_slice()),
    ];
    answers(
        alloc,
        &MemoryArguments::new(&COMMAND),
        &surely(&files),
        &answer(status, out, err),
    )
}

fn show_sources(rt: &HostRuntime) -> io::Result<()> {
    let mut tally = Tally::NONE;
    for (source, status, out, err) in &SOURCES {
        let row = source_answers(rt.alloc(), source, *status, out, err);
        tally = tally.count(rt, "sources", row)?;
    }
    tally.show(rt, "sources")
}

/// The text of these parts.
fn text_of(alloc: Global, parts: &Repeated) -> Result<Vec<u8>, AllocError> {
    let [front, repeated, back] = parts.text;
    let mut text = Vec::new(alloc);
    text.extend_from_slice(front)?;
    for _ in 0..parts.times {
        text.extend_from_slice(repeated)?;
    }
    text.extend_from_slice(back)?;
    Ok(text)
}

fn repeated_answers(alloc: Global, parts: &Repeated) -> Result<bool, NoMemory> {
    let Ok(source) = text_of(alloc, parts) else {
        return Err(NoMemory);
    };
    source_answers(alloc, source.as_slice(), parts.status, parts.out, parts.err)
}

fn show_repeated(rt: &HostRuntime) -> io::Result<()> {
    let mut tally = Tally::NONE;
    for parts in &REPEATED {
        tally = tally.count(rt, "long sources", repeated_answers(rt.alloc(), parts))?;
    }
    tally.show(rt, "long sources")
}

fn show_failing(rt: &HostRuntime) -> io::Result<()> {
    let mut tally = Tally::NONE;
    for (words, failing, status, out, err) in &FAILING {
        let found = Found {
            files: &FILES,
            failing: *failing,
            most: 1,
        };
        let row = answers(
            rt.alloc(),
            &MemoryArguments::new(words),
            &found,
            &answer(*status, out, err),
        );
        tally = tally.count(rt, "faults", row)?;
    }
    tally.show(rt, "faults")
}

fn show_dealt(rt: &HostRuntime) -> io::Result<()> {
    let mut tally = Tally::NONE;
    for (words, first, second) in &DEALT {
        let wanted = Answer {
            has_sizes: true,
            first: *first,
            second: *second,
            ..answer(0, b"", b"")
        };
        let row = answers(
            rt.alloc(),
            &MemoryArguments::new(words),
            &surely(&[]),
            &wanted,
        );
        tally = tally.count(rt, "dealt files", row)?;
    }
    tally.show(rt, "dealt files")
}

/// A `deal` that finds this answers so, and leaves the first file as long as this, and no second one.
fn failed_deal_answers(
    alloc: Global,
    found: &Found<'_>,
    err: &[u8],
    first: Option<usize>,
) -> Result<bool, NoMemory> {
    let wanted = Answer {
        has_sizes: true,
        first,
        ..answer(5, b"", err)
    };
    answers(alloc, &MemoryArguments::new(&DEAL), found, &wanted)
}

fn show_failed_deals(rt: &HostRuntime) -> io::Result<()> {
    let first_fails = Found {
        files: &[],
        failing: [&[0], &[], &[]],
        most: 100,
    };
    let second_fails = Found {
        files: &[],
        failing: [&[1], &[], &[]],
        most: 100,
    };
    let none = failed_deal_answers(rt.alloc(), &first_fails, b"file one\n", None);
    let one = failed_deal_answers(rt.alloc(), &second_fails, b"file two\n", Some(153));
    Tally::NONE
        .count(rt, "failed deals", none)?
        .count(rt, "failed deals", one)?
        .show(rt, "failed deals")
}

fn show_no_room(rt: &HostRuntime) -> io::Result<()> {
    let row = answers(
        rt.alloc(),
        &NoRoom,
        &surely(&FILES),
        &answer(10, b"", b"memory\n"),
    );
    Tally::NONE
        .count(rt, "no room for words", row)?
        .show(rt, "no room for words")
}

fn show_all(rt: &HostRuntime) -> io::Result<()> {
    show_words(rt)?;
    show_no_room(rt)?;
    show_absent(rt)?;
    show_inputs(rt)?;
    show_sources(rt)?;
    show_repeated(rt)?;
    show_failing(rt)?;
    show_dealt(rt)?;
    show_failed_deals(rt)
}

fn main(rt: HostRuntime) -> ExitCode {
    match show_all(&rt) {
        Ok(()) => ExitCode::SUCCESS,
        Err(_) => ExitCode::FAILURE,
    }
}
