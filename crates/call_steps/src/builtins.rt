//! Calls of the language's own.

ghost use Rattle.std.specs.Prelude.{◌≡◌, IfOk, length, nat_eq, not, ◌&&◌, ◌||◌, ◌≤◌};
ghost use Rattle.type_rules.specs.Judging.{next, needs};
ghost use Rattle.type_rules.specs.Lookup.{is};
ghost use Rattle.type_rules.specs.Calls.{wants, own_called, private_word, has_value, is_private, own_type, own_node, first_kind, first_type_of};
ghost use Rattle.oc_typed.specs.declared.typed.TExprNode as node;
ghost use Rattle.type_steps.specs.Answering.{Answers};
ghost use Rattle.call_steps.specs.Given.{given_of, parties_sum, party_number};

use crate::given::{Given, NamedParty};
use oc_cells::CType;
use oc_source::Spot;
use oc_typed::{Builtin, TExpr, TExprNode};
use oc_values::{Boxed, IntKind, Items, NoMemory};
use std::alloc::Global;
use type_rules::{Found, OwnCall, TypeRule};
use type_steps::TypeFault;
use type_steps::needs::needs;
use type_steps::types::{kind_of, share_type};
use type_steps::values::{new_value, pointer_to};

/// Whether a call has a value.
fn has_value(call: OwnCall) -> bool
    ensures { result ≡ has_value call }
{
    !matches!(
        call,
        OwnCall::Reveal(_) | OwnCall::Result | OwnCall::Printf | OwnCall::Free
    )
}

/// Whether a call is an `ocPrivate`.
fn is_private(call: OwnCall) -> bool
    ensures { result ≡ is_private call }
{
    matches!(call, OwnCall::Private)
}

/// How many arguments a call wants.
fn wanted_count(call: OwnCall) -> usize
    ensures { result ≡ length (wants call) }
{
    match call {
        OwnCall::PublicCount | OwnCall::Printf => 0,
        OwnCall::Private
        | OwnCall::PrivateCount
        | OwnCall::Public
        | OwnCall::Malloc
        | OwnCall::Free => 1,
        OwnCall::Feed(_) | OwnCall::Result | OwnCall::Calloc => 2,
        OwnCall::Reveal(_) => 3,
    }
}

/// The number of a party, or 0.
fn party_number(party: NamedParty) -> u8
    ensures { result ≡ party_number party }
{
    match party {
        NamedParty::Nobody => 0,
        NamedParty::First => 1,
        NamedParty::Second => 2,
    }
}

/// The number of the party that one of at most two arguments names.
fn party_of(parties: &[NamedParty]) -> u8
    requires { length parties.now ≤ 2 }
    ensures { result ≡ parties_sum parties.now }
{
    match parties {
        [first, second] => party_number(*first) + party_number(*second),
        [only] => party_number(*only),
        _ => 0,
    }
}

/// The kind of the first expression.
fn first_kind(args: &Items<TExpr>) -> IntKind
    ensures { result ≡ first_kind args.now }
{
    match args.as_slice() {
        [first, ..] => kind_of(&first.ty),
        [] => IntKind::I32,
    }
}

/// The type of the first expression.
fn first_type(args: &Items<TExpr>) -> Result<CType, NoMemory>
    ensures { IfOk result (λ ty. ty ≡ first_type_of args.now) }
{
    match args.as_slice() {
        [first, ..] => share_type(&first.ty),
        [] => Ok(CType::Int {
            kind: IntKind::I64,
            obliv: false,
        }),
    }
}

/// The type of a call.
fn own_type(alloc: Global, call: OwnCall, given: &Given) -> Result<CType, NoMemory>
    ensures { IfOk result (λ ty. ty ≡ own_type call (given_of given.now)) }
{
    match call {
        OwnCall::Private => first_type(&given.args),
        OwnCall::Feed(kind) => Ok(CType::Int { kind, obliv: true }),
        OwnCall::PrivateCount | OwnCall::PublicCount => Ok(CType::Int {
            kind: IntKind::I32,
            obliv: false,
        }),
        OwnCall::Public => Ok(CType::Int {
            kind: IntKind::I64,
            obliv: false,
        }),
        OwnCall::Calloc | OwnCall::Malloc => pointer_to(alloc, share_type(&given.of)?),
        OwnCall::Reveal(_) | OwnCall::Result | OwnCall::Printf | OwnCall::Free => {
            Ok(CType::Nothing)
        }
    }
}

/// The node of a call with as many arguments as it wants.
fn own_node(alloc: Global, call: OwnCall, given: &Given) -> Builtin
    requires { length given.now.parties ≡ length (wants call) }
    ensures { result ≡ own_node call (given_of given.now) }
{
    let parties = given.parties.as_slice();
    match call {
        OwnCall::Private => Builtin::Private,
        OwnCall::Feed(kind) => Builtin::Feed {
            kind,
            party: party_of(parties),
        },
        OwnCall::Reveal(kind) => Builtin::Reveal { kind },
        OwnCall::Result => Builtin::Give {
            kind: first_kind(&given.args),
            party: party_of(parties),
        },
        OwnCall::PrivateCount => Builtin::PrivateCount {
            party: party_of(parties),
        },
        OwnCall::PublicCount => Builtin::PublicCount,
        OwnCall::Public => Builtin::PublicWord,
        OwnCall::Printf => Builtin::Print {
            pieces: Items::new(alloc),
        },
        OwnCall::Calloc => Builtin::Calloc,
        OwnCall::Malloc => Builtin::Malloc,
        OwnCall::Free => Builtin::Free,
    }
}

/// A call with as many arguments as it wants.
fn own_value(
    alloc: Global,
    spot: Spot,
    call: OwnCall,
    given: Given,
) -> Result<Boxed<Found>, TypeFault>
    requires { length given.parties ≡ length (wants call) }
    ensures { Answers (is spot (own_type call (given_of given)) (node.Builtin (own_node call (given_of given)) given.args)) result }
{
    let ty = own_type(alloc, call, &given)?;
    let which = own_node(alloc, call, &given);
    let args = given.args;
    Ok(new_value(alloc, spot, ty, TExprNode::Builtin { which, args })?)
}

/// A call that breaks no rule on its form.
fn need_form(spot: Spot, call: OwnCall, given: &Given) -> Result<(), TypeFault>
    ensures { Answers (needs spot TypeRule.T9 (not (is_private call) && not given.now.misplaced)) result }
{
    needs(spot, TypeRule::T9, !is_private(call) && !given.misplaced)
}

/// A call with as many arguments as it wants, none of which breaks a rule on its form.
fn formed_call(
    alloc: Global,
    spot: Spot,
    call: OwnCall,
    given: Given,
) -> Result<Boxed<Found>, TypeFault>
    requires { length given.parties ≡ length (wants call) }
    ensures { Answers (next (needs spot TypeRule.T9 (not (is_private call) && not given.misplaced)) (λ _. is spot (own_type call (given_of given)) (node.Builtin (own_node call (given_of given)) given.args))) result }
{
    need_form(spot, call, &given)?;
    own_value(alloc, spot, call, given)
}

/// A call that may stand where it does.
fn counted_call(
    alloc: Global,
    spot: Spot,
    call: OwnCall,
    given: Given,
) -> Result<Boxed<Found>, TypeFault>
    ensures { Answers (next (needs spot TypeRule.T7 (nat_eq (length given.parties) (length (wants call)))) (λ _. next (needs spot TypeRule.T9 (not (is_private call) && not given.misplaced)) (λ _. is spot (own_type call (given_of given)) (node.Builtin (own_node call (given_of given)) given.args)))) result }
{
    let count = given.parties.len();
    let wanted = wanted_count(call);
    if count == wanted {
        formed_call(alloc, spot, call, given)
    } else {
        Err(TypeFault::Refused {
            rule: TypeRule::T7,
            spot,
        })
    }
}

/// A value, unless the call stands alone.
fn need_value(alone: bool, spot: Spot, call: OwnCall) -> Result<(), TypeFault>
    ensures { Answers (needs spot TypeRule.T3 (alone || has_value call)) result }
{
    needs(spot, TypeRule::T3, alone || has_value(call))
}

/// A call of the language's own with what its arguments give; a call without a value stands alone.
pub fn own_called(
    alloc: Global,
    alone: bool,
    spot: Spot,
    call: OwnCall,
    given: Given,
) -> Result<Boxed<Found>, TypeFault>
    ensures { Answers (own_called alone spot call (given_of given)) result }
{
    need_value(alone, spot, call)?;
    counted_call(alloc, spot, call, given)
}

/// The only argument of the `ocPrivate` of a feed.
fn need_one(spot: Spot, given: &Given) -> Result<(), TypeFault>
    ensures { Answers (needs spot TypeRule.T7 (nat_eq (length given.now.parties) 1)) result }
{
    needs(spot, TypeRule::T7, given.parties.len() == 1)
}

/// The `ocPrivate` of a feed, where its argument is given.
fn private_value(alloc: Global, spot: Spot, given: Given) -> Result<Boxed<TExpr>, NoMemory>
    ensures { IfOk result (λ word. word ≡ record { spot = spot; ty = first_type_of given.args; node = node.Builtin Builtin.Private given.args }) }
{
    let ty = first_type(&given.args)?;
    let which = Builtin::Private;
    let args = given.args;
    let node = TExprNode::Builtin { which, args };
    Ok(Boxed::new(alloc, TExpr { spot, ty, node })?)
}

/// The `ocPrivate` of a feed.
pub fn private_word(alloc: Global, spot: Spot, given: Given) -> Result<Boxed<TExpr>, TypeFault>
    ensures { Answers (private_word spot (given_of given)) result }
{
    need_one(spot, &given)?;
    Ok(private_value(alloc, spot, given)?)
}
