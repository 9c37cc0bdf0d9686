//! Why a program has no typed tree.

use oc_source::Spot;
use oc_values::NoMemory;
use std::alloc::{AllocError, AllocFailed};
use type_rules::TypeRule;

/// Why there is no typed tree.
#[derive(Clone, Copy, Debug, PartialEq, Eq)]
pub enum TypeFault {
    /// The first node in the order of the language that breaks a rule, and the lowest rule that it breaks.
    Refused { rule: TypeRule, spot: Spot },
    NoMemory,
}

impl From<AllocError> for TypeFault {
    ghost use Rattle.std.specs.Prelude.{◌≡◌};
    ghost use Rattle.type_steps.specs.declared.fault.TypeFault.{TypeFault};

    ghost from_gives = { λ _ e. e ≡ TypeFault.NoMemory };

    fn from(_error: AllocError) -> TypeFault {
        TypeFault::NoMemory
    }
}

impl<T: Drop> From<AllocFailed<T>> for TypeFault {
    ghost use Rattle.std.specs.Prelude.{◌≡◌};
    ghost use Rattle.type_steps.specs.declared.fault.TypeFault.{TypeFault};

    ghost from_gives = { λ _ e. e ≡ TypeFault.NoMemory };

    fn from(_error: AllocFailed<T>) -> TypeFault {
        TypeFault::NoMemory
    }
}

impl From<NoMemory> for TypeFault {
    ghost use Rattle.std.specs.Prelude.{◌≡◌};
    ghost use Rattle.type_steps.specs.declared.fault.TypeFault.{TypeFault};

    ghost from_gives = { λ _ e. e ≡ TypeFault.NoMemory };

    fn from(_error: NoMemory) -> TypeFault {
        TypeFault::NoMemory
    }
}
