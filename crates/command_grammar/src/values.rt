//! The values of options.

ghost use Rattle.std.specs.Prelude.{◌≡◌, ◌≤◌, map, IfOk, drop, get_or, []};
ghost use Rattle.std.specs.Option.{option_map, unwrap_or};
ghost use Rattle.command_grammar.specs.Forms.{parts};
ghost use Rattle.command_grammar.specs.Grammar.{texts};
ghost use Rattle.command_grammar.specs.Reading.{value_after, read_key, read_list, read_number, read_signed};

use crate::form::{is_signed, number_to};
use hex::FromHex;
use std::alloc::{AllocError, Global};

/// The value of the option of this name, among pairs of a name and a value.
pub fn value<'w>(pairs: &'w [String], name: &str) -> Option<&'w str>
    ensures { option_map (λ v. v.now) result ≡ value_after (texts pairs.now) name.now }
{
    let count = pairs.len();
    let mut at = 0;
    while at + 1 < count {
        if pairs[at].as_str() == name {
            return Some(pairs[at + 1].as_str());
        }
        at += 2;
    }
    None
}

/// The number that a value spells, or another one where none is given.
pub fn number_or(value: Option<&str>, most: u64, other: u64) -> u64
    requires { other ≤ most }
    ensures value { result ≡ read_number most other (option_map (λ v. v.now) value.entry) }
    ensures within { result ≤ most }
{
    match value {
        Some(word) => number_to(most, word.as_bytes()).unwrap_or(other),
        None => other,
    }
}

/// The integer that a word spells, or 0.
fn signed(word: &[u8]) -> i64
    ensures { result ≡ read_signed word.now }
{
    if !is_signed(word) {
        return 0;
    }
    if word[0] == b'-' {
        let value = number_to(9_223_372_036_854_775_808, &word[1..]).unwrap_or(0);
        return -(value as i128) as i64;
    }
    number_to(9_223_372_036_854_775_807, word).unwrap_or(0) as i64
}

/// The integers of a list, with commas between them.
fn list(alloc: Global, word: &[u8]) -> Result<Vec<i64>, AllocError>
    ensures { IfOk result (λ words. words.items ≡ map read_signed (parts word.now)) }
{
    word.split(|b| *b == b',')
        .map(|part| signed(part))
        .collect(alloc)
}

/// The integers of a list, or none where no value is given.
pub fn list_or_none(alloc: Global, value: Option<&str>) -> Result<Vec<i64>, AllocError>
    ensures { IfOk result (λ words. words.items ≡ read_list (option_map (λ v. v.now) value.entry)) }
{
    match value {
        Some(word) => list(alloc, word.as_bytes()),
        None => Ok(Vec::new(alloc)),
    }
}

/// The words from this one on.
pub fn words_from(words: &[String], start: usize) -> &[String]
    ensures { texts result.now ≡ drop start (texts words.now) }
{
    if start < words.len() {
        &words[start..]
    } else {
        &[]
    }
}

/// A word, or an empty text where there are fewer.
pub fn word_at(words: &[String], at: usize) -> &str
    ensures { result.now ≡ get_or (texts words.now) at [] }
{
    if at < words.len() {
        words[at].as_str()
    } else {
        ""
    }
}

/// A value, or an empty text where none is given.
pub fn text_or_empty<'w>(value: Option<&'w str>) -> &'w str
    ensures { result.now ≡ unwrap_or (option_map (λ v. v.now) value.entry) [] }
{
    match value {
        Some(text) => text,
        None => "",
    }
}

/// The bytes of a key, or zeros.
pub fn key_or_zeros(value: Option<&str>) -> [u8; 32]
    ensures { result ≡ read_key (option_map (λ v. v.now) value.entry) }
{
    match value {
        Some(word) => <[u8; 32] as FromHex>::from_hex(word).unwrap_or([0; 32]),
        None => [0; 32],
    }
}
