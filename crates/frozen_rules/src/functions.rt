//! Functions, and all of a program in order.

ghost use Rattle.std.specs.Prelude.{◌≡◌, ◌-◌};
ghost use Rattle.oc_typing.specs.Tree.{tree_of};
ghost use Rattle.numbered_scopes.specs.Numbered.{last_of, numbered_fault, numbered_function};
ghost use Rattle.frozen_rules.specs.Scopes.{Judges, answer};

use crate::scopes::of_function;
use crate::statements::check_list;
use oc_typed::TypedFunction;
use oc_typing::Typed;
use scope_rules::ScopeFault;

/// The slot of a function's last parameter, if it has one.
fn last_param(f: &TypedFunction) -> Option<u64>
    ensures { result ≡ last_of f.now.params }
{
    if f.params == 0 {
        return None;
    }
    Some(f.params - 1)
}

/// A function.
fn check_function(typed: &Typed, f: &TypedFunction) -> Result<(), ScopeFault>
    ensures { Judges (numbered_function typed.now.structs typed.now.functions f.now) tt result }
{
    check_list(
        typed,
        f,
        of_function(f.obliv),
        last_param(f),
        f.body.as_slice(),
    )?;
    Ok(())
}

/// All functions of a program in order.
pub fn check_functions(typed: &Typed) -> Result<(), ScopeFault>
    ensures { result ≡ answer (numbered_fault (tree_of typed.now)) tt }
{
    for f in typed.functions.as_slice() {
        check_function(typed, f)?;
    }
    Ok(())
}
