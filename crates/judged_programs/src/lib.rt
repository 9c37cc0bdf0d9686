//! Laws of typing: of statements and whole programs the relation, the functions and the first fault are one.
#![tactic(auto)]

ghost use Rattle.judged_programs.specs.Laws.{StatementsAreTyped, ProgramsAreJudged};

pub use type_rules::Refusal;

/// What the rules give of a statement is what the relation says of it.
pub fn statements_are_typed()
    ensures { StatementsAreTyped }
{}

/// The typed tree that the rules give of a program is what the relation says, and the fault that they answer is the
/// first one in the order of the language.
pub fn programs_are_judged()
    ensures { ProgramsAreJudged }
{}
