//! Makes gates: each operation on examples, and many gates for the times in docs/PERFORMANCE.md.
//!
//! Its words are a backend, `plain` or `blank`, an operation on words of 64 wires with a sign, `multiply` or
//! `quotient`, and how often the operation is made. It prints how many ANDs were made. Without words it
//! prints what each gate gives of each two bits, what each operation gives of the numbers of `ROWS` with the
//! ANDs that it makes, and the ANDs of a product and a quotient over each backend. The lines come from plain
//! arithmetic and the table of ANDs, so that they show the definitions of the contracts right.
#![tactic(auto)]

mod rows;

use gate_core::{Blank, Gates, PlainBits};
use rows::{print_gates, print_row};
use std::{env, io};
use word_circuits::{Word, multiply, quotient, resize};

/// Rows: a width, whether the words have a sign, and two numbers, of which the lowest bits count.
const ROWS: [(u8, bool, u64, u64); 14] = [
    (32, true, 0xFFFF_FFF9, 2),
    (32, true, 7, 0xFFFF_FFFE),
    (32, true, 0xFFFF_FFF9, 0),
    (32, true, 7, 0),
    (32, true, 0x8000_0000, 0xFFFF_FFFF),
    (32, false, 7, 0),
    (32, false, 0x5555_5555, 3),
    (8, true, 0xFF, 1),
    (8, false, 0xFF, 1),
    (8, true, 0, 0x80),
    (16, true, 0xAAAA, 7),
    (64, true, 0xFFFF_FFFF_FFFF_FFFF, 3),
    (64, false, 0xFFFF_FFFF_FFFF_FFFF, 10),
    (1, false, 1, 1),
];

/// An operation whose gates are made.
#[derive(Clone, Copy)]
enum Work {
    Multiply,
    Quotient,
}

/// How many ANDs `rounds` operations make over bits.
fn plain_ands(work: Work, rounds: u32) -> u64 {
    let mut gates = PlainBits::new();
    let bit = gates.known(true);
    let ones = resize(&mut gates, &Word::of_wire(bit), 64, false);
    let mut word = resize(&mut gates, &Word::of_wire(bit), 64, true);
    'rounds: for _ in 0..rounds {
        word = match work {
            Work::Multiply => multiply(&mut gates, &word, &ones),
            Work::Quotient => quotient(&mut gates, &word, &ones, true),
        };
    }
    gates.made()
}

/// How many ANDs `rounds` operations make where wires carry nothing.
fn blank_ands(work: Work, rounds: u32) -> u64 {
    let mut gates = Blank::new();
    let bit = gates.known(true);
    let ones = resize(&mut gates, &Word::of_wire(bit), 64, false);
    let mut word = resize(&mut gates, &Word::of_wire(bit), 64, true);
    'rounds: for _ in 0..rounds {
        word = match work {
            Work::Multiply => multiply(&mut gates, &word, &ones),
            Work::Quotient => quotient(&mut gates, &word, &ones, true),
        };
    }
    gates.made()
}

// All that is printed where there are no words.
fn print_all(rt: &impl Print) -> io::Result<()> {
    for (left, right) in [(false, false), (false, true), (true, false), (true, true)] {
        print_gates(rt, left, right)?;
    }
    for (width, signed, left, right) in ROWS {
        match width {
            1 | 8 | 16 | 32 | 64 => print_row(rt, width, signed, left, right)?,
            _ => {}
        }
    }
    for work in [Work::Multiply, Work::Quotient] {
        println!(rt; "{} {}", plain_ands(work, 1), blank_ands(work, 1))?;
    }
    Ok(())
}

fn main(rt: HostRuntime) -> io::Result<()> {
    let mut words = env::args(&rt)?.skip(1);
    let (Some(backend), Some(operation), Some(count)) = (words.next(), words.next(), words.next())
    else {
        return print_all(&rt);
    };
    let work = if operation.as_str() == "multiply" {
        Work::Multiply
    } else {
        Work::Quotient
    };
    let rounds = count.parse().unwrap_or(0);
    let made = if backend.as_str() == "plain" {
        plain_ands(work, rounds)
    } else {
        blank_ands(work, rounds)
    };
    println!(rt; "{made}")
}
