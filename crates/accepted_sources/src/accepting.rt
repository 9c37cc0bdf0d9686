//! Reading a source: its tokens, its tree, its types and its scopes, in this order.

ghost use Rattle.std.specs.Prelude.{◌≡◌};
ghost use Rattle.oc_typing.specs.Tree.{tree_of};
ghost use Rattle.scope_rules.specs.FirstFault.{first_fault};
ghost use Rattle.accepted_sources.specs.Answers.{ReadsProgram, Accepts, SourcesAreJudged};
ghost use Rattle.accepted_sources.specs.Faults.{types_fault, scopes_fault};

use crate::rules::SourceRule;
use crate::source::{AcceptedSource, SourceFault};
use frozen_rules::check_scopes;
use obliv_types::type_program;
use oc_lexer::{LexFault, lex};
use oc_parser::{ParseFault, parse};
use oc_source::{Program, Spot};
use oc_typing::Typed;
use scope_rules::ScopeFault;
use std::alloc::Global;
use type_steps::TypeFault;

/// The refusal of a source by this rule, and where.
fn refused(rule: SourceRule, spot: Spot) -> SourceFault
    ensures { result ≡ SourceFault.Refused rule spot }
{
    SourceFault::Refused { rule, spot }
}

/// The parsed tree of a source, or why there is none: its tokens are looked at first.
fn read_program(alloc: Global, source: &[u8]) -> Result<Program, SourceFault>
    ensures { ReadsProgram source.now result }
{
    let lexed = match lex(alloc, source) {
        Ok(lexed) => lexed,
        Err(LexFault::Refused { rule, spot }) => return Err(refused(SourceRule::Lex(rule), spot)),
        Err(LexFault::NoMemory) => return Err(SourceFault::NoMemory),
    };
    match parse(alloc, &lexed) {
        Ok(program) => Ok(program),
        Err(ParseFault::Refused { rule, spot }) => Err(refused(SourceRule::Parse(rule), spot)),
        Err(ParseFault::NoMemory) => Err(SourceFault::NoMemory),
    }
}

/// Why a source whose tree has no types isn't accepted.
fn types_fault(fault: TypeFault) -> SourceFault
    ensures { result ≡ types_fault fault }
{
    match fault {
        TypeFault::Refused { rule, spot } => refused(SourceRule::Types(rule), spot),
        TypeFault::NoMemory => SourceFault::NoMemory,
    }
}

/// Why a source whose typed tree breaks a rule of scopes isn't accepted.
fn scopes_fault(fault: ScopeFault) -> SourceFault
    ensures { result ≡ scopes_fault fault }
{
    refused(SourceRule::Scopes(fault.rule), fault.spot)
}

/// The first rule of scopes that a typed tree breaks.
fn broken_scopes(typed: &Typed) -> Option<ScopeFault>
    ensures { result ≡ first_fault (tree_of typed.now) }
{
    match check_scopes(typed) {
        Ok(_) => None,
        Err(fault) => Some(fault),
    }
}

/// Reads a source: it is accepted, or the answer is the one rule that refuses it, and where.
pub fn accept(alloc: Global, source: &[u8]) -> Result<AcceptedSource, SourceFault>
    ensures { Accepts source.now result }
{
    let program = read_program(alloc, source)?;
    let typed = match type_program(alloc, &program) {
        Ok(typed) => typed,
        Err(fault) => return Err(types_fault(fault)),
    };
    match broken_scopes(&typed) {
        Some(fault) => Err(scopes_fault(fault)),
        None => Ok(AcceptedSource { program, typed }),
    }
}

/// A source with a parsed tree is accepted, or has just one refusal.
pub fn sources_are_judged()
    ensures { SourcesAreJudged }
{}
