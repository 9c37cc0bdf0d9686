//! Headings of one name, which agree.

ghost use Rattle.std.specs.Prelude.{◌≡◌};
ghost use Rattle.oc_cells.specs.Types.{alike};
ghost use Rattle.type_rules.specs.Calls.{types_of};
ghost use Rattle.type_rules.specs.Written.{same_types, same_heading};
ghost use Rattle.typed_headings.specs.Beside.{beside};
ghost use Rattle.std.specs.Option.{option_copied};

use oc_cells::{SlotType, same_type};
use type_rules::Heading;

/// Whether two lists of variables have the same types.
fn same_types(slots: &[SlotType], others: &[SlotType]) -> bool
    ensures { result ≡ same_types (types_of slots.now) (types_of others.now) }
{
    if slots.len() != others.len() {
        return false;
    }
    for (i, slot) in slots.iter().enumerate() {
        if !same_type(true, &slot.ty, &others[i].ty) {
            return false;
        }
    }
    true
}

/// Whether two headings of one name agree.
fn same_heading(heading: &Heading, other: &Heading) -> bool
    ensures { result ≡ same_heading heading.now other.now }
{
    same_type(true, &heading.result, &other.result)
        && same_types(heading.params.as_slice(), other.params.as_slice())
        && heading.obliv == other.obliv
}

/// Whether a heading may stand beside the first one of its name, where one of them has a body or none.
pub fn may_stand_beside(first: Option<&Heading>, bodied: bool, heading: &Heading) -> bool
    ensures { result ≡ beside (option_copied first.entry) bodied heading.now }
{
    match first {
        None => true,
        Some(first) => same_heading(first, heading) && !(bodied && heading.has_body),
    }
}
