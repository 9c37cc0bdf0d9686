//! The roles of two parties.

ghost use Rattle.std.specs.Prelude.{◌≡◌, ◌≤◌};
ghost use Rattle.command_grammar.specs.Values.{role_number};

/// Which of the two parties one is.
#[derive(Clone, Copy, Debug, PartialEq, Eq)]
pub enum Role {
    First,
    Second,
}

/// The role of a number, 1 or 2.
pub fn role_of(number: u64) -> Role
    requires some { 1 ≤ number }
    requires most { number ≤ 2 }
    ensures { role_number result ≡ number }
{
    if number == 1 {
        Role::First
    } else {
        Role::Second
    }
}
