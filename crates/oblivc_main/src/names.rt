//! What the lines call rules and traps.

ghost use Rattle.std.specs.Prelude.{◌≡◌};
ghost use Rattle.oblivc_main.specs.RuleNames.{lex_name, parse_name, types_name, scopes_name, source_name, trap_name};

use accepted_sources::SourceRule;
use oc_cells::TrapKind;
use oc_lexer::LexRule;
use oc_parser::ParseRule;
use scope_rules::ScopeRule;
use type_rules::TypeRule;

/// What a rule of tokens is called.
fn lex_name(rule: LexRule) -> &'static str
    ensures { result.now ≡ lex_name rule }
{
    match rule {
        LexRule::L1 => "L1",
        LexRule::L2 => "L2",
        LexRule::L3 => "L3",
        LexRule::L4 => "L4",
        LexRule::L5 => "L5",
        LexRule::L6 => "L6",
    }
}

/// What a rule of trees is called.
fn parse_name(rule: ParseRule) -> &'static str
    ensures { result.now ≡ parse_name rule }
{
    match rule {
        ParseRule::G1 => "G1",
        ParseRule::G2 => "G2",
    }
}

/// What a rule of typing is called.
fn types_name(rule: TypeRule) -> &'static str
    ensures { result.now ≡ types_name rule }
{
    match rule {
        TypeRule::T1 => "T1",
        TypeRule::T2 => "T2",
        TypeRule::T3 => "T3",
        TypeRule::T4 => "T4",
        TypeRule::T5 => "T5",
        TypeRule::T6 => "T6",
        TypeRule::T7 => "T7",
        TypeRule::T8 => "T8",
        TypeRule::T9 => "T9",
        TypeRule::T10 => "T10",
        TypeRule::T11 => "T11",
        TypeRule::T12 => "T12",
    }
}

/// What a rule of scopes is called.
fn scopes_name(rule: ScopeRule) -> &'static str
    ensures { result.now ≡ scopes_name rule }
{
    match rule {
        ScopeRule::F1 => "F1",
        ScopeRule::F2 => "F2",
        ScopeRule::F3 => "F3",
        ScopeRule::F4 => "F4",
        ScopeRule::F5 => "F5",
    }
}

/// What a rule that refuses a source is called.
pub fn source_name(rule: SourceRule) -> &'static str
    ensures { result.now ≡ source_name rule }
{
    match rule {
        SourceRule::Lex(rule) => lex_name(rule),
        SourceRule::Parse(rule) => parse_name(rule),
        SourceRule::Types(rule) => types_name(rule),
        SourceRule::Scopes(rule) => scopes_name(rule),
    }
}

/// What a trap is called.
pub fn trap_name(kind: TrapKind) -> &'static str
    ensures { result.now ≡ trap_name kind }
{
    match kind {
        TrapKind::Z1 => "Z1",
        TrapKind::I1 => "I1",
        TrapKind::M1 => "M1",
        TrapKind::M2 => "M2",
        TrapKind::M3 => "M3",
        TrapKind::M4 => "M4",
        TrapKind::M5 => "M5",
        TrapKind::M6 => "M6",
    }
}
