//! Comments.

ghost use Rattle.std.specs.Prelude.{◌≡◌, ◌≤◌, ◌<◌, ◌+◌, ◌&&◌, nat_eq, get_or, IfSome, length, false};
ghost use Rattle.oc_lexer.specs.Comments.{ends_line};
ghost use Rattle.oc_lexer.specs.Scanned.{body_length, comment_length, is_line_end, starts_comment};

use crate::bytes::{ByteClass, byte_at, split_run};

/// Whether the end of a comment stands at an index.
fn ends_comment(text: &[u8], at: usize) -> bool
    requires { at < length text.now }
    ensures { result ≡ (nat_eq (get_or text.now at 0) 42 && nat_eq (get_or text.now (at + 1) 0) 47) }
{
    byte_at(text, at) == b'*' && byte_at(text, at + 1) == b'/'
}

/// How many bytes stand before the first end of a comment, none where there is no end.
fn body_length(text: &[u8]) -> Option<usize>
    ensures value { result ≡ body_length text.now }
    ensures within { IfSome result (λ n. n + 2 ≤ length text.now) }
{
    let mut at = 0;
    while at < text.len() {
        if ends_comment(text, at) {
            return Some(at);
        }
        at += 1;
    }
    None
}

/// How many bytes the comment has that begins here with its two bytes, none where it isn't closed.
#[tactic(auto, unfolding(crate::specs::Scanned::comment_length))]
pub fn comment_length(text: &[u8]) -> Option<usize>
    ensures value { result ≡ comment_length text.now }
    ensures within { IfSome result (λ n. n ≤ length text.now) }
    ensures some { IfSome result (λ n. 4 ≤ n) }
{
    if text.len() < 2 {
        return None;
    }
    let (_, body) = text.split_at(2);
    let length = body_length(body)?;
    Some(length + 4)
}

/// Whether a line ends here, or a comment begins that goes up to its end.
fn is_line_end(text: &[u8]) -> bool
    ensures { result ≡ is_line_end text.now }
{
    text.is_empty()
        || byte_at(text, 0) == b'\n'
        || (byte_at(text, 0) == b'/' && byte_at(text, 1) == b'/')
}

/// Whether a comment begins here that is closed by its two bytes.
fn starts_comment(text: &[u8]) -> bool
    ensures { result ≡ starts_comment text.now }
{
    byte_at(text, 0) == b'/' && byte_at(text, 1) == b'*'
}

/// Whether only blanks and comments stand up to the end of the line. A comment that goes on over further
/// lines, or isn't closed, ends the line too.
pub fn ends_line(text: &[u8]) -> bool
    ensures { result ≡ ends_line false text.now }
{
    let mut rest = text;
    loop {
        let (_, after) = split_run(ByteClass::Space, rest);
        if is_line_end(after) {
            return true;
        }
        if !starts_comment(after) {
            return false;
        }
        let Some(length) = comment_length(after) else {
            return true;
        };
        let (comment, next) = after.split_at(length);
        if comment.contains(&b'\n') {
            return true;
        }
        rest = next;
    }
}
