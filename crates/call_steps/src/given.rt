//! What arguments give to a call that the language has.

ghost use Rattle.std.specs.Prelude.{◌≡◌, ◌∷◌, ◌++◌, [], IfOk, false, true, length, nat_eq, nat_lt, not, Ok, Some, ◌&&◌, ◌||◌, slice_get, ℤ};
ghost use Rattle.std.specs.Option.{option_copied};
ghost use Rattle.oc_cells.specs.Types.{is_integer as integer_in, is_pointer as pointer_in, kind_of as kind_in};
ghost use Rattle.type_rules.specs.Judging.{next, needs, public_integer};
ghost use Rattle.type_rules.specs.Lookup.{convert};
ghost use Rattle.type_rules.specs.Calls.{wants, given_none, given_value, given_size, given_wrong, joined, given_as, given_party, either_type, literal, natural, party_of, is_number_zero};
ghost use Rattle.type_rules.specs.Rules.{both_parts};
ghost use Rattle.type_steps.specs.Answering.{Answers};
ghost use Rattle.written_types.specs.Each.{mapped};
ghost use Rattle.call_steps.specs.Given.{given_of, parties_sum, party_number, named_given};

use oc_cells::CType;
use oc_source::Spot;
use oc_typed::{TExpr, TExprNode};
use oc_values::{Boxed, IntKind, Items, NoMemory};
use std::alloc::Global;
use type_rules::{OwnCall, TypeRule, Want};
use type_steps::TypeFault;
use type_steps::needs::{need_integer, need_public, needs};
use type_steps::operators::as_kind;
use type_steps::types::{is_nothing, is_pointer, kind_of};
use type_steps::values::{convert, pointer_to};

/// The party that an argument names, if it names one.
#[derive(Clone, Copy, Debug, PartialEq, Eq)]
pub enum NamedParty {
    Nobody,
    First,
    Second,
}

/// What some arguments give to a call that the language has.
#[derive(Drop)]
pub struct Given {
    pub args: Items<TExpr>,
    /// For each argument in order, the party that it names.
    pub parties: Items<NamedParty>,
    /// The type of the cells, or none.
    pub of: CType,
    /// Whether the call itself breaks a rule on its form.
    pub misplaced: bool,
}

/// What is wanted in the only place.
fn only(want: Want, at: u64) -> Option<Want>
    ensures { result ≡ slice_get (want ∷ []) at }
{
    if at == 0 { Some(want) } else { None }
}

/// What is wanted in the first place or in the second.
fn first_or_second(first: Want, second: Want, at: u64) -> Option<Want>
    ensures { result ≡ slice_get (first ∷ second ∷ []) at }
{
    match at {
        0 => Some(first),
        1 => Some(second),
        _ => None,
    }
}

/// What a call wants in the place of an argument.
pub fn want_of(call: OwnCall, at: u64) -> Option<Want>
    ensures { result ≡ slice_get (wants call) at }
{
    match call {
        OwnCall::Private | OwnCall::Public => only(Want::Index, at),
        OwnCall::Feed(kind) => first_or_second(Want::Word(kind), Want::Party, at),
        OwnCall::Reveal(kind) => {
            if at == 2 {
                Some(Want::Zero)
            } else {
                first_or_second(Want::Target(kind), Want::Hidden(kind), at)
            }
        }
        OwnCall::Result => first_or_second(Want::Own, Want::Party, at),
        OwnCall::PrivateCount => only(Want::Party, at),
        OwnCall::PublicCount | OwnCall::Printf => None,
        OwnCall::Calloc => first_or_second(Want::Index, Want::Size, at),
        OwnCall::Malloc => only(Want::Bytes, at),
        OwnCall::Free => only(Want::Address, at),
    }
}

/// What no argument gives.
pub fn given_none(alloc: Global) -> Given
    ensures { given_of result ≡ given_none }
{
    Given {
        args: Items::new(alloc),
        parties: Items::new(alloc),
        of: CType::Nothing,
        misplaced: false,
    }
}

/// An argument that is no value of the call.
fn given_mark(
    alloc: Global,
    party: NamedParty,
    of: CType,
    misplaced: bool,
) -> Result<Given, NoMemory>
    ensures { IfOk result (λ a. given_of a ≡ record { args = []; party = parties_sum (party ∷ []); of = of; misplaced = misplaced; count = 1 }) }
{
    let mut parties = Items::new(alloc);
    parties.push(party)?;
    Ok(Given {
        args: Items::new(alloc),
        parties,
        of,
        misplaced,
    })
}

/// What a value gives.
pub fn given_value(alloc: Global, value: Boxed<TExpr>) -> Result<Given, NoMemory>
    ensures { IfOk result (λ a. given_of a ≡ given_value value) }
{
    let mut args = Items::new(alloc);
    args.push(value.into_inner())?;
    let mut parties = Items::new(alloc);
    parties.push(NamedParty::Nobody)?;
    Ok(Given {
        args,
        parties,
        of: CType::Nothing,
        misplaced: false,
    })
}

/// What the type of cells gives.
pub fn given_size(alloc: Global, ty: CType) -> Result<Given, NoMemory>
    ensures { IfOk result (λ a. given_of a ≡ given_size ty) }
{
    given_mark(alloc, NamedParty::Nobody, ty, false)
}

/// What an argument gives with which the call breaks a rule on its form.
pub fn given_wrong(alloc: Global) -> Result<Given, NoMemory>
    ensures { IfOk result (λ a. given_of a ≡ given_wrong) }
{
    given_mark(alloc, NamedParty::Nobody, CType::Nothing, true)
}

/// The type of the cells, from either argument.
fn either_type(first: CType, second: CType) -> CType
    ensures { result ≡ either_type first second }
{
    if is_nothing(&first) { second } else { first }
}

/// Values and those after them.
pub fn joined_args(first: Items<TExpr>, second: Items<TExpr>) -> Result<Items<TExpr>, NoMemory>
    ensures { IfOk result (λ args. args ≡ first ++ second) }
{
    let mut args = first;
    args.append(second)?;
    Ok(args)
}

/// Parties and those after them.
fn joined_parties(
    first: Items<NamedParty>,
    second: Items<NamedParty>,
) -> Result<Items<NamedParty>, NoMemory>
    ensures { IfOk result (λ parties. parties ≡ first ++ second) }
{
    let mut parties = first;
    parties.append(second)?;
    Ok(parties)
}

/// Whether either holds.
fn either(first: bool, second: bool) -> bool
    ensures { result ≡ (first || second) }
{
    first || second
}

/// What two groups of arguments give together.
pub fn join(first: Given, second: Given) -> Result<Given, NoMemory>
    ensures { IfOk result (λ a. given_of a ≡ joined (given_of first) (given_of second)) }
{
    let args = joined_args(first.args, second.args)?;
    let parties = joined_parties(first.parties, second.parties)?;
    let of = either_type(first.of, second.of);
    let misplaced = either(first.misplaced, second.misplaced);
    Ok(Given {
        args,
        parties,
        of,
        misplaced,
    })
}

/// The two parts of one argument, in their order.
pub fn both_parts(alloc: Global, first: Given, second: Given) -> Result<Given, NoMemory>
    ensures { IfOk result (λ a. given_of a ≡ both_parts (given_of first) (given_of second)) }
{
    let args = joined_args(first.args, second.args)?;
    let of = either_type(first.of, second.of);
    let mut parties = Items::new(alloc);
    parties.push(NamedParty::Nobody)?;
    Ok(Given {
        args,
        parties,
        of,
        misplaced: false,
    })
}

/// A value that is a public integer.
fn need_index(value: &Boxed<TExpr>) -> Result<(), TypeFault>
    ensures { Answers (public_integer value.now.spot value.now.ty) result }
{
    need_public(value.get().spot, value)
}

/// A public integer.
fn given_index(alloc: Global, value: Boxed<TExpr>) -> Result<Given, TypeFault>
    ensures { Answers (next (public_integer value.spot value.ty) (λ _. Ok (given_value value))) (mapped given_of result) }
{
    need_index(&value)?;
    Ok(given_value(alloc, value)?)
}

/// A public integer, which is converted to a type.
fn given_word(alloc: Global, kind: IntKind, value: Boxed<TExpr>) -> Result<Given, TypeFault>
    ensures { Answers (given_as (Want.Word kind) value) (mapped given_of result) }
{
    need_index(&value)?;
    let value = as_kind(alloc, kind, true, value)?;
    Ok(given_value(alloc, value)?)
}

/// The party of this number.
fn party_of(number: i128) -> NamedParty
    ensures { party_number result ≡ party_of (natural (Some number)) }
{
    if number == 1 {
        NamedParty::First
    } else if number == 2 {
        NamedParty::Second
    } else {
        NamedParty::Nobody
    }
}

/// The party that an expression names.
fn named_party(value: &Boxed<TExpr>) -> NamedParty
    ensures { party_number result ≡ party_of (natural (literal value.now.node)) }
{
    match &value.get().node {
        TExprNode::Number(number) => party_of(*number),
        _ => NamedParty::Nobody,
    }
}

/// Whether a party is named.
fn is_party(party: NamedParty) -> bool
    ensures { result ≡ nat_lt 0 (party_number party) }
{
    match party {
        NamedParty::Nobody => false,
        NamedParty::First | NamedParty::Second => true,
    }
}

/// A party.
fn need_party(spot: Spot, party: NamedParty) -> Result<(), TypeFault>
    ensures { Answers (needs spot TypeRule.T9 (nat_lt 0 (party_number party))) result }
{
    needs(spot, TypeRule::T9, is_party(party))
}

/// A party that is named at a spot.
fn given_named(alloc: Global, spot: Spot, party: NamedParty) -> Result<Given, TypeFault>
    ensures { Answers (named_given spot (party_number party)) (mapped given_of result) }
{
    need_party(spot, party)?;
    Ok(given_mark(alloc, party, CType::Nothing, false)?)
}

/// A party, which is the number 1 or 2.
fn given_party(alloc: Global, value: Boxed<TExpr>) -> Result<Given, TypeFault>
    ensures { Answers (given_party value) (mapped given_of result) }
{
    given_named(alloc, value.get().spot, named_party(&value))
}

/// A value of a type to which it converts.
fn given_converted(alloc: Global, ty: &CType, value: Boxed<TExpr>) -> Result<Given, TypeFault>
    ensures { Answers (next (convert ty.now value) (λ x. Ok (given_value x))) (mapped given_of result) }
{
    let value = convert(alloc, ty, value)?;
    Ok(given_value(alloc, value)?)
}

/// A pointer to a public kind.
fn given_target(alloc: Global, kind: IntKind, value: Boxed<TExpr>) -> Result<Given, TypeFault>
    ensures { Answers (given_as (Want.Target kind) value) (mapped given_of result) }
{
    let ty = pointer_to(alloc, CType::Int { kind, obliv: false })?;
    given_converted(alloc, &ty, value)
}

/// Whether an expression is the number 0.
fn is_zero(value: &Boxed<TExpr>) -> bool
    ensures { result ≡ is_number_zero (natural (literal value.now.node)) }
{
    match &value.get().node {
        TExprNode::Number(number) => *number == 0,
        _ => false,
    }
}

/// The number 0.
fn given_zero(alloc: Global, value: Boxed<TExpr>) -> Result<Given, TypeFault>
    ensures { Answers (given_as Want.Zero value) (mapped given_of result) }
{
    let misplaced = !is_zero(&value);
    Ok(given_mark(alloc, NamedParty::Nobody, CType::Nothing, misplaced)?)
}

/// A value that is an integer.
fn need_own(value: &Boxed<TExpr>) -> Result<(), TypeFault>
    ensures { Answers (needs value.now.spot TypeRule.T3 (integer_in value.now.ty)) result }
{
    need_integer(value.get().spot, value)
}

/// The kind of a value.
fn own_kind(value: &Boxed<TExpr>) -> IntKind
    ensures { result ≡ kind_in value.now.ty }
{
    kind_of(&value.get().ty)
}

/// An integer, which is converted to its own hidden kind.
fn given_own(alloc: Global, value: Boxed<TExpr>) -> Result<Given, TypeFault>
    ensures { Answers (given_as Want.Own value) (mapped given_of result) }
{
    need_own(&value)?;
    let kind = own_kind(&value);
    let value = as_kind(alloc, kind, true, value)?;
    Ok(given_value(alloc, value)?)
}

/// A pointer.
fn need_address(value: &Boxed<TExpr>) -> Result<(), TypeFault>
    ensures { Answers (needs value.now.spot TypeRule.T3 (pointer_in value.now.ty)) result }
{
    needs(value.get().spot, TypeRule::T3, is_pointer(&value.get().ty))
}

/// Any pointer.
fn given_address(alloc: Global, value: Boxed<TExpr>) -> Result<Given, TypeFault>
    ensures { Answers (given_as Want.Address value) (mapped given_of result) }
{
    need_address(&value)?;
    Ok(given_value(alloc, value)?)
}

/// What a value gives in the place of a `sizeof`.
fn given_no_size(alloc: Global) -> Result<Given, TypeFault>
    ensures { Answers (Ok given_wrong) (mapped given_of result) }
{
    Ok(given_wrong(alloc)?)
}

/// What a value gives where this is wanted.
pub fn given_as(alloc: Global, want: Want, value: Boxed<TExpr>) -> Result<Given, TypeFault>
    ensures { Answers (given_as want value) (mapped given_of result) }
{
    match want {
        Want::Index => given_index(alloc, value),
        Want::Word(kind) => given_word(alloc, kind, value),
        Want::Party => given_party(alloc, value),
        Want::Target(kind) => given_target(alloc, kind, value),
        Want::Hidden(kind) => given_converted(alloc, &CType::Int { kind, obliv: true }, value),
        Want::Zero => given_zero(alloc, value),
        Want::Own => given_own(alloc, value),
        Want::Address => given_address(alloc, value),
        Want::Bytes | Want::Size => given_no_size(alloc),
    }
}
