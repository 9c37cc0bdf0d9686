//! The function that a run starts with.

ghost use Rattle.std.specs.Prelude.{◌≡◌, codes};
ghost use Rattle.oc_typing.specs.Rules.{same_name};
ghost use Rattle.type_rules.specs.ProgramRules.{is_empty, is_entry, entry_from, entry};
ghost use Rattle.type_steps.specs.Answering.{Answers};

use oc_cells::SlotType;
use oc_source::Spot;
use type_rules::{Heading, TypeRule};
use type_steps::TypeFault;
use type_steps::types::is_nothing;

/// Whether a name is that of the function that a run starts with.
fn is_main(name: &[u8]) -> bool
    ensures { result ≡ same_name name.now (codes "oc_main") }
{
    name == b"oc_main".as_slice()
}

/// Whether there is no variable.
fn is_empty(slots: &[SlotType]) -> bool
    ensures { result ≡ is_empty slots.now }
{
    slots.len() == 0
}

/// Whether a heading is that of the function that a run starts with.
fn is_entry(heading: &Heading) -> bool
    ensures { result ≡ is_entry heading.now }
{
    is_main(heading.name.as_bytes())
        && is_nothing(&heading.result)
        && is_empty(heading.params.as_slice())
        && !heading.obliv
}

/// The number of the first such heading.
fn entry_number(headings: &[Heading]) -> Option<u64>
    ensures { result ≡ entry_from 0 headings.now }
{
    for (i, heading) in headings.iter().enumerate() {
        if is_entry(heading) {
            return Some(i as u64);
        }
    }
    None
}

/// The number of the function that a run starts with, which has to be there.
pub fn entry(end: Spot, headings: &[Heading]) -> Result<u64, TypeFault>
    ensures { Answers (entry end (entry_from 0 headings.now)) result }
{
    match entry_number(headings) {
        None => Err(TypeFault::Refused {
            rule: TypeRule::T10,
            spot: end,
        }),
        Some(number) => Ok(number),
    }
}
