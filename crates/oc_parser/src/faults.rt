//! Why a source has no tree.

use oc_source::Spot;
use oc_values::NoMemory;

/// Why tokens have no tree.
#[derive(Clone, Copy, Debug, PartialEq, Eq)]
pub enum ParseRule {
    /// Tokens that spell no program: at the first token such that no program begins with the tokens up to
    /// it, or at the end of the source. Remove this token, or write before it what is missing.
    G1,
    /// Tokens that nest too deep: at the first token whose load is over 1,000. Close brackets and blocks
    /// earlier, split a long expression or chain of `else`, or move a part into a function.
    G2,
}

/// Why `parse` gives no tree.
#[derive(Clone, Copy, Debug, PartialEq, Eq)]
pub enum ParseFault {
    /// The first place at which the tokens break a rule, G2 before G1.
    Refused { rule: ParseRule, spot: Spot },
    NoMemory,
}

impl From<NoMemory> for ParseFault {
    ghost use Rattle.std.specs.Prelude.{◌≡◌};
    ghost use Rattle.oc_parser.specs.declared.faults.ParseFault.TheVariants.{NoMemory};

    ghost from_gives = { λ _ e. e ≡ NoMemory };

    fn from(_error: NoMemory) -> ParseFault {
        ParseFault::NoMemory
    }
}
