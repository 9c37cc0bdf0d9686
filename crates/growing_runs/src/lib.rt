//! A walk only adds to what it shows, and gives back no step and no dealt transfer.
#![tactic(auto)]

ghost use Rattle.growing_runs.specs.Laws.{RunsStayInBudget, WalksOnlyAdd};

/// A call of any function, from any state, leaves what was shown and the events before it as they are and puts what
/// is new after them; the steps, the dealt transfers and the revealed values that are left never grow.
pub fn walks_only_add()
    ensures { WalksOnlyAdd }
{}

/// So a whole run, in the clear and by events, takes no more steps than its budget and no more transfers than were dealt.
pub fn runs_stay_in_budget()
    ensures { RunsStayInBudget }
{}
