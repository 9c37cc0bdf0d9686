//! The loads of tokens.

ghost use Rattle.std.specs.Prelude.{◌≡◌, ◌+◌, ◌-◌, ◌<◌, ◌≤◌, ℕ, IfOk, MatchOption};
ghost use Rattle.oc_source.specs.declared.spot.Spot.{Spot};
ghost use Rattle.oc_parser.specs.Load.{stack, effect_of, with_token, entered, popped, emptied, passed, is_else_next, IsLight, HeavyAt};
ghost use Rattle.oc_parser.specs.Places.{place_spot};
ghost use Rattle.oc_parser.specs.Stacks.{stack_of};

use crate::entries::{Counts, Effect, Entry};
use oc_grammar::taking::{is_word, next};
use oc_lexer::{Keyword, Sign, Token, TokenKind};
use oc_source::Spot;
use oc_values::{Items, NoMemory};
use std::alloc::Global;

/// How large the load of a token may be.
const MAX_LOAD: u32 = 1_000;

/// The entry that counts nothing.
const EMPTY: Entry = Entry {
    count: 0,
    opened: 0,
};

// What a token does to the stack.
fn effect_of(kind: &TokenKind) -> Effect
    ensures { result ≡ effect_of kind.now }
{
    match kind {
        TokenKind::Sign(sign) => match sign {
            Sign::LeftParen | Sign::LeftBracket => Effect::Open,
            Sign::RightParen | Sign::RightBracket => Effect::Close,
            Sign::LeftBrace => Effect::Enter,
            Sign::RightBrace => Effect::Leave,
            Sign::Semicolon => Effect::Finish,
            _ => Effect::Nothing,
        },
        TokenKind::Name(_)
        | TokenKind::Keyword(_)
        | TokenKind::Number(_)
        | TokenKind::Character(_)
        | TokenKind::Text(_) => Effect::Nothing,
    }
}

// Whether `else` comes next.
fn is_else_next(tokens: &[Token]) -> bool
    ensures { result ≡ is_else_next tokens.now }
{
    match next(tokens) {
        Some((token, _rest)) => is_word(token, Keyword::Else),
        None => false,
    }
}

// With another top entry.
fn with_top(counts: Counts, top: Entry) -> Counts
    requires narrow { top.opened ≤ top.count }
    requires small { top.count ≤ counts.top.count + 1 }
    requires light { counts.sum ≤ 1000 }
    ensures stack { stack_of result ≡ stack top (stack_of counts).below }
    ensures sum { result.sum + counts.top.count ≡ counts.sum + top.count }
{
    Counts {
        top,
        sum: counts.sum - counts.top.count + top.count,
        below: counts.below,
    }
}

// With one token more.
fn with_token(counts: Counts) -> Counts
    requires { counts.sum ≤ 1000 }
    ensures stack { stack_of result ≡ with_token (stack_of counts) }
    ensures sum { result.sum ≡ counts.sum + 1 }
    ensures narrow { result.top.opened < result.top.count }
{
    let top = Entry {
        count: counts.top.count + 1,
        opened: counts.top.opened,
    };
    with_top(counts, top)
}

// With an empty entry on top.
fn entered(counts: Counts) -> Result<Counts, NoMemory>
    ensures stack { IfOk result (λ after. stack_of after ≡ entered (stack_of counts)) }
    ensures sum { IfOk result (λ after. after.sum ≡ counts.sum) }
{
    let Counts {
        top,
        mut below,
        sum,
    } = counts;
    below.push(top)?;
    Ok(Counts {
        top: EMPTY,
        below,
        sum,
    })
}

// Without the top entry, if it isn't the only one.
fn popped(counts: Counts) -> Counts
    ensures stack { stack_of result ≡ popped (stack_of counts) }
    ensures sum { result.sum ≤ counts.sum }
{
    let Counts {
        top,
        mut below,
        sum,
    } = counts;
    let Some(next) = below.pop() else {
        return Counts { top, below, sum };
    };
    Counts {
        top: next,
        below,
        sum: sum - top.count,
    }
}

// With an empty top entry, unless it stays.
fn emptied(counts: Counts, stays: bool) -> Counts
    requires { counts.sum ≤ 1000 }
    ensures stack { stack_of result ≡ emptied stays (stack_of counts) }
    ensures sum { result.sum ≤ counts.sum }
{
    if stays {
        counts
    } else {
        with_top(counts, EMPTY)
    }
}

// After a token with this effect, where an `else` comes next or not.
fn passed(counts: Counts, effect: Effect, else_next: bool) -> Result<Counts, NoMemory>
    requires light { counts.sum ≤ 1000 }
    requires narrow { counts.top.opened < counts.top.count }
    ensures stack { IfOk result (λ after. stack_of after ≡ passed effect else_next (stack_of counts)) }
    ensures sum { IfOk result (λ after. after.sum ≤ counts.sum) }
{
    let Entry { count, opened } = counts.top;
    match effect {
        Effect::Open => Ok(with_top(
            counts,
            Entry {
                count,
                opened: opened + 1,
            },
        )),
        Effect::Close => Ok(with_top(
            counts,
            Entry {
                count,
                opened: opened.saturating_sub(1),
            },
        )),
        Effect::Enter => entered(counts),
        Effect::Leave => Ok(emptied(popped(counts), else_next)),
        Effect::Finish => Ok(emptied(counts, else_next || opened > 0)),
        Effect::Nothing => Ok(counts),
    }
}

/// The spot of the first token whose load is over 1,000, if there is one.
pub fn first_heavy(alloc: Global, tokens: &[Token]) -> Result<Option<Spot>, NoMemory>
    ensures { IfOk result (λ found. MatchOption found (IsLight tokens.now) (λ spot. (p : ℕ) × HeavyAt tokens.now p × ((end : Spot) → spot ≡ place_spot end tokens.now p))) }
{
    let mut counts = Counts {
        top: EMPTY,
        below: Items::new(alloc),
        sum: 0,
    };
    let mut rest = tokens;
    while let Some((token, after)) = next(rest) {
        let more = with_token(counts);
        if more.sum > MAX_LOAD {
            return Ok(Some(token.spot));
        }
        counts = passed(more, effect_of(&token.kind), is_else_next(after))?;
        rest = after;
    }
    Ok(None)
}
