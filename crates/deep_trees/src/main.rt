//! Sources with their trees and their refusals, and the deepest sources that the load allows.
//!
//! It prints how many rows of each table came out as they stand there, and each other row with what came instead.
//! No contract speaks of the call stack: the deepest trees, which are built and dropped here, show that it is deep
//! enough.
#![tactic(auto)]

mod tables;
mod texts;

use crate::tables::{
    CASTS, DEEPEST, EXPRESSIONS, HEADINGS, LEVELS, LOADS, REFUSED, Repeated, Row, STATEMENTS,
};
use crate::texts::{Text, put_fault, put_program};
use oc_lexer::lex;
use oc_parser::parse;
use std::alloc::{AllocError, Global};
use std::io;
use std::process::ExitCode;

/// The tree of a source, or its refusal.
fn shown(alloc: Global, source: &[u8]) -> Text {
    let mut out = Text::new(alloc);
    let Ok(lexed) = lex(alloc, source) else {
        return out;
    };
    match parse(alloc, &lexed) {
        Ok(program) => put_program(&mut out, &program),
        Err(fault) => put_fault(&mut out, &fault),
    }
    out
}

/// Whether a source has a tree, or its refusal.
fn outcome(alloc: Global, source: &[u8]) -> Text {
    let mut out = Text::new(alloc);
    let Ok(lexed) = lex(alloc, source) else {
        return out;
    };
    if let Err(fault) = parse(alloc, &lexed) {
        put_fault(&mut out, &fault);
    }
    out
}

/// The source of these parts.
fn source_of(alloc: Global, parts: &Repeated, count: u32) -> Result<String, AllocError> {
    let [front, left, middle, right, back] = parts;
    let mut source = String::new(alloc);
    source.push_str(front)?;
    for _ in 0..count {
        source.push_str(left)?;
    }
    source.push_str(middle)?;
    for _ in 0..count {
        source.push_str(right)?;
    }
    source.push_str(back)?;
    Ok(source)
}

/// Whether the text is the wanted one; prints it if not.
fn is_wanted(rt: &HostRuntime, found: &Text, wanted: &str) -> io::Result<bool> {
    let same = !found.full && found.text.as_str() == wanted;
    if !same {
        println!(rt; "not {wanted}")?;
        println!(rt; "but {}", found.text)?;
    }
    Ok(same)
}

fn show_rows(rt: &HostRuntime, name: &str, rows: &[Row]) -> io::Result<()> {
    let mut count: u32 = 0;
    for (source, wanted) in rows {
        let found = shown(rt.alloc(), source);
        if is_wanted(rt, &found, wanted)? {
            count = count.saturating_add(1);
        }
    }
    println!(rt; "{name}: {count} of {}", rows.len())
}

/// Whether the source of these parts has the wanted outcome, which is empty for a tree.
fn comes_out(rt: &HostRuntime, parts: &Repeated, count: u32, wanted: &str) -> io::Result<bool> {
    match source_of(rt.alloc(), parts, count) {
        Ok(source) => is_wanted(rt, &outcome(rt.alloc(), source.as_bytes()), wanted),
        Err(_) => Ok(false),
    }
}

fn show_loads(rt: &HostRuntime) -> io::Result<()> {
    let mut count: u32 = 0;
    for (parts, times, wanted) in &LOADS {
        if comes_out(rt, parts, *times, wanted)? {
            count = count.saturating_add(1);
        }
    }
    println!(rt; "loads: {count} of {}", LOADS.len())
}

fn show_deepest(rt: &HostRuntime) -> io::Result<()> {
    for (name, parts, times, wanted) in &DEEPEST {
        let deepest = comes_out(rt, parts, *times, "")?;
        let deeper = comes_out(rt, parts, times.saturating_add(1), wanted)?;
        println!(rt; "{name} {times}: {deepest}, {deeper}")?;
    }
    Ok(())
}

fn show_all(rt: &HostRuntime) -> io::Result<()> {
    show_rows(rt, "expressions", &EXPRESSIONS)?;
    show_rows(rt, "levels", &LEVELS)?;
    show_rows(rt, "casts", &CASTS)?;
    show_rows(rt, "statements", &STATEMENTS)?;
    show_rows(rt, "headings", &HEADINGS)?;
    show_rows(rt, "refusals", &REFUSED)?;
    show_loads(rt)?;
    show_deepest(rt)
}

fn main(rt: HostRuntime) -> ExitCode {
    match show_all(&rt) {
        Ok(()) => ExitCode::SUCCESS,
        Err(_) => ExitCode::FAILURE,
    }
}
