//! What a reader of a program may rely on at each write, each `obliv if`, each `~obliv` block and each copy of a run in the clear.
#![tactic(auto)]

ghost use Rattle.run_laws.specs.Laws.{HeldBackWritesLeave, PublicWritesAreMade, BothPartsRun, AlwaysRuns, CopiesAreMemorys};

/// A write to a hidden cell under a condition that doesn't hold leaves all memory as it is, and one to a public cell is made
/// whatever the condition is.
pub fn conditions_hold_back_writes()
    ensures held_back { HeldBackWritesLeave }
    ensures public { PublicWritesAreMade }
{}

/// Both parts of an `obliv if` run, the first under the outer condition and its own, the second under the outer one and not its
/// own.
pub fn both_parts_run()
    ensures { BothPartsRun }
{}

/// A `~obliv` block runs under no condition, whatever surrounds it.
pub fn always_runs()
    ensures { AlwaysRuns }
{}

/// A copy of a struct under no condition is memory's own copy.
pub fn copies_are_memorys()
    ensures { CopiesAreMemorys }
{}
