//! The words that a program is started with.

ghost use Rattle.std.specs.Prelude.{◌≡◌, IfOk};

use std::alloc::{AllocError, Global};
use std::env::{Env, FillError};

/// What asking for a word answers: its bytes, that there is none, or want of memory.
#[derive(Debug, Drop)]
pub enum WordAnswer {
    Word(Vec<u8>),
    End,
    NoMemory,
}

/// The words that a program is started with, without its name, as far as the outside tells them.
pub trait Arguments {
    ghost use Rattle.std.specs.Prelude.{◌≡◌, ◌<◌, ◌≤◌, ℕ, List, [], length, get_or, Option, IfSome};
    ghost use Rattle.oc_outside.specs.Arguments.{IfWord, OnEnd};

    // The bytes of each word, where they are told.
    ghost words: { Self → Option (List (List ℕ)) };

    /// The bytes of the word of this index.
    fn word(&self, alloc: Global, index: usize) -> WordAnswer
        ensures word { IfWord result (λ bytes. IfSome (words self.now) (λ all. (index < length all) × (get_or all index [] ≡ bytes))) }
        ensures end { OnEnd result (IfSome (words self.now) (λ all. length all ≤ index)) };
}

/// Words in memory, which tell all.
#[derive(Clone, Copy)]
pub struct MemoryArguments<'w> {
    words: &'w [&'w [u8]],
}

impl<'w> MemoryArguments<'w> {
    ghost use Rattle.std.specs.Prelude.{◌≡◌, map};
    ghost use Rattle.oc_outside.specs.MemoryArguments.{words_of};

    /// These words.
    pub fn new(words: &'w [&'w [u8]]) -> MemoryArguments<'w>
        ensures { words_of result ≡ map (λ word. word.now) words.now }
    {
        MemoryArguments { words }
    }
}

// A copy of the bytes.
fn copied(alloc: Global, bytes: &[u8]) -> Result<Vec<u8>, AllocError>
    ensures { IfOk result (λ copy. copy.items ≡ bytes.now) }
{
    let mut copy = Vec::new(alloc);
    copy.extend_from_slice(bytes)?;
    Ok(copy)
}

impl Arguments for MemoryArguments<'_> {
    ghost use Rattle.std.specs.Prelude.{Some};
    ghost use Rattle.oc_outside.specs.MemoryArguments.{words_of};

    ghost words = { λ a. Some (words_of a) };

    fn word(&self, alloc: Global, index: usize) -> WordAnswer {
        match self.words.get(index) {
            Some(bytes) => match copied(alloc, bytes) {
                Ok(copy) => WordAnswer::Word(copy),
                Err(_) => WordAnswer::NoMemory,
            },
            None => WordAnswer::End,
        }
    }
}

/// The words of the process in whose surroundings it runs. It tells nothing.
#[derive(Drop)]
pub struct HostArguments<R> {
    env: R,
}

impl<R: Env> HostArguments<R> {
    /// The words that these surroundings hold.
    pub fn new(env: R) -> HostArguments<R> {
        HostArguments { env }
    }
}

/// How many bytes of a word there is room for at first.
const FIRST_ROOM: usize = 256;

// The word at this place, the program's name being at 0, which is read again with twice the room until it fits.
fn read_word<R: Env>(alloc: Global, env: &R, at: usize) -> WordAnswer {
    let mut room = FIRST_ROOM;
    for _ in 0..usize::BITS {
        let mut bytes = Vec::new(alloc);
        if bytes.resize(room, 0).is_err() {
            return WordAnswer::NoMemory;
        }
        match env.arg(at, bytes.as_mut_slice()) {
            Ok(n) => {
                bytes.truncate(n);
                return WordAnswer::Word(bytes);
            }
            Err(FillError::NotPresent) => return WordAnswer::End,
            Err(FillError::TooLong) => room = room.saturating_add(room),
        }
    }
    WordAnswer::NoMemory
}

impl<R: Env> Arguments for HostArguments<R> {
    ghost use Rattle.std.specs.Prelude.{None};

    ghost words = { λ _. None };

    fn word(&self, alloc: Global, index: usize) -> WordAnswer {
        match index.checked_add(1) {
            Some(at) => read_word(alloc, &self.env, at),
            None => WordAnswer::End,
        }
    }
}
