//! The calls that the language has, by their names.

ghost use Rattle.std.specs.Prelude.{◌≡◌};
ghost use Rattle.type_rules.specs.Calls.{own_call};
ghost use Rattle.call_steps.specs.OwnCalls.{call_text, find_call};

use oc_values::IntKind;
use type_rules::OwnCall;

const NAMED_CALLS: [OwnCall; 19] = [
    OwnCall::Private,
    OwnCall::Feed(IntKind::Bool),
    OwnCall::Feed(IntKind::I8),
    OwnCall::Feed(IntKind::I16),
    OwnCall::Feed(IntKind::I32),
    OwnCall::Feed(IntKind::I64),
    OwnCall::Reveal(IntKind::Bool),
    OwnCall::Reveal(IntKind::I8),
    OwnCall::Reveal(IntKind::I16),
    OwnCall::Reveal(IntKind::I32),
    OwnCall::Reveal(IntKind::I64),
    OwnCall::Result,
    OwnCall::PrivateCount,
    OwnCall::PublicCount,
    OwnCall::Public,
    OwnCall::Printf,
    OwnCall::Calloc,
    OwnCall::Malloc,
    OwnCall::Free,
];

/// How a call is spelled; empty where no call is spelled so.
fn call_text(call: OwnCall) -> &'static [u8]
    ensures { result.now ≡ call_text call }
{
    match call {
        OwnCall::Private => b"ocPrivate",
        OwnCall::Feed(kind) => feed_text(kind),
        OwnCall::Reveal(kind) => reveal_text(kind),
        OwnCall::Result => b"ocResult",
        OwnCall::PrivateCount => b"ocPrivateCount",
        OwnCall::PublicCount => b"ocPublicCount",
        OwnCall::Public => b"ocPublic",
        OwnCall::Printf => b"printf",
        OwnCall::Calloc => b"calloc",
        OwnCall::Malloc => b"malloc",
        OwnCall::Free => b"free",
    }
}

fn feed_text(kind: IntKind) -> &'static [u8]
    ensures { result.now ≡ call_text (OwnCall.Feed kind) }
{
    match kind {
        IntKind::Bool => b"feedOblivBool",
        IntKind::I8 => b"feedOblivChar",
        IntKind::I16 => b"feedOblivShort",
        IntKind::I32 => b"feedOblivInt",
        IntKind::I64 => b"feedOblivLLong",
        IntKind::U8 | IntKind::U16 | IntKind::U32 | IntKind::U64 => b"",
    }
}

fn reveal_text(kind: IntKind) -> &'static [u8]
    ensures { result.now ≡ call_text (OwnCall.Reveal kind) }
{
    match kind {
        IntKind::Bool => b"revealOblivBool",
        IntKind::I8 => b"revealOblivChar",
        IntKind::I16 => b"revealOblivShort",
        IntKind::I32 => b"revealOblivInt",
        IntKind::I64 => b"revealOblivLLong",
        IntKind::U8 | IntKind::U16 | IntKind::U32 | IntKind::U64 => b"",
    }
}

/// The call among these that a word is.
fn find_call(calls: &[OwnCall], word: &[u8]) -> Option<OwnCall>
    ensures { result ≡ find_call calls.now word.now }
{
    for call in calls {
        if word == call_text(*call) {
            return Some(*call);
        }
    }
    None
}

/// The call that the language has under a name.
pub fn own_call(name: &[u8]) -> Option<OwnCall>
    ensures { result ≡ own_call name.now }
{
    find_call(&NAMED_CALLS, name)
}
