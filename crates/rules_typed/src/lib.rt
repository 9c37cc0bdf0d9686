//! What the rules of typing give passes the test of typed trees.
#![tactic(auto)]

ghost use Rattle.rules_typed.specs.Laws.{ExpressionsPass, ProgramsAreTyped, StatementsPass};

/// What the rules give for an expression passes the test, where each name means the same to both.
pub fn expressions_pass()
    ensures { ExpressionsPass }
{}

/// So does what they give for a statement.
pub fn statements_pass()
    ensures { StatementsPass }
{}

/// So does the typed tree that they give for a program.
pub fn programs_are_typed()
    ensures { ProgramsAreTyped }
{}
