//! What the calls of the lower crates give on examples, beside what it should be.
//!
//! It prints for each subject how many rows came out and how many there are. The wanted values stand beside the rows;
//! they come from standards, from worked examples and from an independent model.
#![tactic(auto)]

mod blocks;
mod integers;
mod outside;
mod tally;
mod transfers;

use crate::tally::Tally;
use std::io;
use std::process::ExitCode;

/// Prints a subject's rows. Where memory was wanting the rows are fewer.
fn show(rt: &HostRuntime, name: &str, tally: &Tally, whole: bool) -> io::Result<()> {
    let end = if whole { "" } else { ", and then no memory" };
    println!(rt; "{name}: {} of {}{end}", tally.right, tally.rows)
}

fn show_all(rt: &HostRuntime) -> io::Result<()> {
    let alloc = rt.alloc();
    let mut integers = Tally::new();
    let whole = integers::compare(alloc, &mut integers).is_ok();
    show(rt, "integers", &integers, whole)?;
    let mut blocks = Tally::new();
    let whole = blocks::compare(alloc, &mut blocks).is_ok();
    show(rt, "blocks", &blocks, whole)?;
    let mut transfers = Tally::new();
    let whole = transfers::compare(alloc, &mut transfers).is_ok();
    show(rt, "transfers", &transfers, whole)?;
    let mut outside = Tally::new();
    let whole = outside::compare_in_memory(alloc, &mut outside).is_ok();
    show(rt, "outside", &outside, whole)?;
    let mut files = Tally::new();
    outside::files_of_the_host(rt, &mut files)?;
    show(rt, "files of the host", &files, true)
}

fn main(rt: HostRuntime) -> ExitCode {
    match show_all(&rt) {
        Ok(()) => ExitCode::SUCCESS,
        Err(_) => ExitCode::FAILURE,
    }
}
