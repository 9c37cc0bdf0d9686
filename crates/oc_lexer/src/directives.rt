//! Directives.

ghost use Rattle.std.specs.Prelude.{◌≡◌, ◌≤◌, IfSome, length, map, option_map};
ghost use Rattle.oc_lexer.specs.Scanned.{define_at, find_header, header_at, include_length, is_definition, is_free_name};

use crate::bytes::{ByteClass, byte_at, is_name_start, split_run};
use crate::comments::ends_line;
use crate::numbers::literal_of;
use crate::words::keyword_of;
use oc_source::Literal;

/// What an `#include` may name.
const HEADERS: [&[u8]; 4] = [b"<obliv.oh>", b"<stdio.h>", b"<stdlib.h>", b"<stdbool.h>"];

/// How many bytes of the text one of these headers has.
fn find_header(headers: &[&[u8]], text: &[u8]) -> Option<usize>
    ensures value { result ≡ find_header (map (λ h. h.now) headers.now) text.now }
    ensures within { IfSome result (λ n. n ≤ length text.now) }
{
    for header in headers {
        if text.starts_with(header) {
            return Some(header.len());
        }
    }
    None
}

/// How many bytes of the text name a header, after which the line ends.
fn header_at(text: &[u8]) -> Option<usize>
    ensures value { result ≡ header_at text.now }
    ensures within { IfSome result (λ n. n ≤ length text.now) }
{
    let length = find_header(&HEADERS, text)?;
    let (_, rest) = text.split_at(length);
    if ends_line(rest) { Some(length) } else { None }
}

/// How many bytes an accepted `#include` has that begins here.
#[tactic(auto, unfolding(crate::specs::Scanned::include_length))]
pub fn include_length(text: &[u8]) -> Option<usize>
    ensures value { result ≡ include_length text.now }
{
    if !text.starts_with(b"#include") {
        return None;
    }
    let (_, rest) = text.split_at(8);
    let (_, rest) = split_run(ByteClass::Space, rest);
    let length = header_at(rest)?;
    Some(text.len() - rest.len() + length)
}

/// Whether a `#define` may take the name.
fn is_free_name(name: &[u8]) -> bool
    ensures { result ≡ is_free_name name.now }
{
    is_name_start(byte_at(name, 0)) && keyword_of(name).is_none()
}

/// Whether these parts and this rest of the source make a `#define`.
fn is_definition(gap: &[u8], name: &[u8], second: &[u8], rest: &[u8]) -> bool
    ensures { result ≡ is_definition gap.now name.now second.now rest.now }
{
    !gap.is_empty() && !second.is_empty() && is_free_name(name) && ends_line(rest)
}

/// The name and the literal of an accepted `#define` that begins here, but for whether the name is new, and
/// how many bytes it has.
#[tactic(auto, unfolding(crate::specs::Scanned::define_at))]
pub fn define_at(text: &[u8]) -> Option<(&[u8], Literal, usize)>
    ensures value { option_map (λ d. (d.0.now, d.1, d.2)) result ≡ define_at text.now }
{
    if !text.starts_with(b"#define") {
        return None;
    }
    let (_, rest) = text.split_at(7);
    let (gap, rest) = split_run(ByteClass::Space, rest);
    let (name, rest) = split_run(ByteClass::Name, rest);
    let (second, rest) = split_run(ByteClass::Space, rest);
    let (number, rest) = split_run(ByteClass::Number, rest);
    if !is_definition(gap, name, second, rest) {
        return None;
    }
    let literal = literal_of(number)?;
    Some((name, literal, text.len() - rest.len()))
}
