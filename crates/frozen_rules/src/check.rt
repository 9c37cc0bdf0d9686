//! The check of a whole program, and a program that it found to be good.

ghost use Rattle.std.specs.Prelude.{◌≡◌, ◌↔◌, true, Some, IsOk, IfOk, IfErr, is_none};
ghost use Rattle.oc_typing.specs.Tree.{tree_of};
ghost use Rattle.scope_rules.specs.InScope.{InScope};
ghost use Rattle.scope_rules.specs.FirstFault.{first_fault};

use crate::functions::check_functions;
use oc_typing::Typed;
use scope_rules::ScopeFault;

/// A program that keeps the rules of hidden scopes and frozen places, lent.
#[derive(Clone, Copy, Debug)]
pub struct Checked<'t> {
    typed: &'t Typed,
    pub ghost in_scope: { is_none (first_fault (tree_of typed.now)) ≡ true },
}

impl<'t> Checked<'t> {
    /// The program.
    pub fn tree(&self) -> &'t Typed
        ensures same { result.now ≡ self.now.typed.now }
        ensures in_scope { InScope (tree_of result.now) }
    {
        self.typed
    }
}

/// Whether a program keeps the rules of hidden scopes and frozen places: the program again, or else the first rule that it
/// breaks in the order of evaluation, and where.
pub fn check_scopes<'t>(typed: &'t Typed) -> Result<Checked<'t>, ScopeFault>
    ensures kept { IsOk result ↔ InScope (tree_of typed.now) }
    ensures lent { IfOk result (λ checked. checked.typed.now ≡ typed.now) }
    ensures first { IfErr result (λ fault. first_fault (tree_of typed.now) ≡ Some fault) }
{
    check_functions(typed)?;
    Ok(Checked { typed })
}
