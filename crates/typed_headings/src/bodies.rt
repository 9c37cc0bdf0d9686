//! The functions with a body.

ghost use Rattle.std.specs.Prelude.{◌≡◌};
ghost use Rattle.type_rules.specs.Written.{bodies_of};

use crate::list::Headings;
use oc_values::Items;
use written_types::Bodies;

/// The headings of functions with a body.
pub fn bodies_of(headings: Headings<'_>) -> Bodies<'_>
    ensures { result.headings ≡ bodies_of headings.entry.list.items }
{
    let Headings {
        mut list,
        bodies,
        ..
    } = headings;
    list.retain(|heading| heading.has_body);
    Bodies {
        headings: Items::from_vec(list),
        numbers: bodies,
    }
}
