//! Names by their numbers.

ghost use Rattle.std.specs.Prelude.{◌≡◌, ℕ, List, ◌∷◌, ◌++◌, [], length, OnOk};
ghost use Rattle.written_types.specs.Numbers.{get_at, Numbers, Has};

use oc_values::NoMemory;
use std::alloc::Global;
use std::collections::BTreeMap;

/// The number of a name, if it has one.
pub fn number_of(numbers: &BTreeMap<&[u8], u64>, name: &[u8]) -> Option<u64>
    ensures { result ≡ get_at numbers.now name.now }
{
    numbers.get(name).copied()
}

/// Adds a name under a number, where it isn't there yet.
pub fn add_name<'p>(
    numbers: &mut BTreeMap<&'p [u8], u64>,
    name: &'p [u8],
    number: u64,
) -> Result<(), NoMemory>
    ensures numbers { OnOk result ((xs : List (List ℕ)) → Numbers numbers.old xs → number ≡ length xs → Numbers numbers.new (xs ++ name.now ∷ [])) }
    ensures has { OnOk result ((xs : List (List ℕ)) → Has numbers.old xs → Has numbers.new (name.now ∷ xs)) }
{
    match number_of(numbers, name) {
        Some(_) => Ok(()),
        None => {
            numbers.insert(name, number)?;
            Ok(())
        }
    }
}
