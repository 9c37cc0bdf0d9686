//! The words of a whole file.

ghost use Rattle.input_words.specs.Telling.{Tells};

use crate::lines::{read_word, split_line};
use oc_values::Items;
use std::alloc::{AllocError, Global};

/// How many words a file has at most.
const MAX_WORDS: u32 = 65_536;

/// How many bytes of a file say all of it: those of one line too many, at 21 bytes a line.
pub const MAX_BYTES: u64 = 1_376_277;

/// Why a file gives no words.
#[derive(Clone, Copy, Debug, PartialEq, Eq)]
pub enum WordsFault {
    /// The first wrong line, from 1: write one word on it, of 64 bits, in decimal. Line 65,537 is one too many.
    Wrong(u32),
    NoMemory,
}

impl From<AllocError> for WordsFault {
    ghost use Rattle.std.specs.Prelude.{◌≡◌};
    ghost use Rattle.input_words.specs.declared.words.WordsFault.{WordsFault};

    ghost from_gives = { λ _ e. e ≡ WordsFault.NoMemory };

    fn from(_error: AllocError) -> WordsFault {
        WordsFault::NoMemory
    }
}

/// The words of a file, or its first wrong line.
pub fn read_words(alloc: Global, bytes: &[u8]) -> Result<Items<i64>, WordsFault>
    ensures { Tells bytes.now result }
{
    let mut words = Items::new(alloc);
    let mut rest = bytes;
    while !rest.is_empty() {
        let (line, after) = split_line(rest);
        let number = words.len() as u32 + 1;
        if number > MAX_WORDS {
            return Err(WordsFault::Wrong(number));
        }
        let Some(word) = read_word(line) else {
            return Err(WordsFault::Wrong(number));
        };
        words.push(word)?;
        rest = after;
    }
    Ok(words)
}
