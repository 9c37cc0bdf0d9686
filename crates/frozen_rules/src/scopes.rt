//! What is known of a scope, and a rule at a spot.

ghost use Rattle.std.specs.Prelude.{◌≡◌};
ghost use Rattle.scope_rules.specs.Frozen.{of_body, of_always, in_loop, leaves_part};
ghost use Rattle.scope_rules.specs.FirstFault.{visit, writing};
ghost use Rattle.numbered_scopes.specs.Numbered.{of_part_after};
ghost use Rattle.frozen_rules.specs.Scopes.{facts_of, Judges};

use oc_source::Spot;
use scope_rules::{ScopeFault, ScopeRule};

/// A scope: whether it is hidden, the last slot of a variable outside of it, whether a part of an `obliv if` or a `~obliv`
/// block holds it, and whether a loop does inside of the innermost one.
#[derive(Clone, Copy, Debug)]
pub struct Scope {
    pub hidden: bool,
    pub last_outside: Option<u64>,
    pub parted: bool,
    pub looped: bool,
}

/// The scope of a function's body.
pub fn of_function(marked: bool) -> Scope
    ensures { facts_of result ≡ of_body marked }
{
    Scope {
        hidden: marked,
        last_outside: None,
        parted: false,
        looped: false,
    }
}

/// That of a part of an `obliv if` before which this slot is the last.
pub fn of_part(last: Option<u64>) -> Scope
    ensures { facts_of result ≡ of_part_after last }
{
    Scope {
        hidden: true,
        last_outside: last,
        parted: true,
        looped: false,
    }
}

/// That of a `~obliv` block.
pub fn of_open() -> Scope
    ensures { facts_of result ≡ of_always }
{
    Scope {
        hidden: false,
        last_outside: None,
        parted: true,
        looped: false,
    }
}

/// That of a loop's body.
pub fn of_loop(w: Scope) -> Scope
    ensures { facts_of result ≡ in_loop (facts_of w) }
{
    Scope { looped: true, ..w }
}

/// Whether a `break` or `continue` leaves a part.
pub fn leaves(w: Scope) -> bool
    ensures { result ≡ leaves_part (facts_of w) }
{
    w.parted && !w.looped
}

/// The rule on writes of public data to frozen places.
pub fn write_rule(w: Scope) -> ScopeRule
    ensures { result ≡ writing (facts_of w) }
{
    if w.hidden {
        ScopeRule::F1
    } else {
        ScopeRule::F5
    }
}

/// A rule at a spot, which is kept or broken.
pub fn keep(rule: ScopeRule, spot: Spot, kept: bool) -> Result<(), ScopeFault>
    ensures { Judges (visit rule spot kept) tt result }
{
    if kept {
        return Ok(());
    }
    Err(ScopeFault { rule, spot })
}
