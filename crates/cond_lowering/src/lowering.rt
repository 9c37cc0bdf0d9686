//! The code of a whole program.

ghost use Rattle.std.specs.Prelude.{◌≡◌, IfOk};
ghost use Rattle.oc_code.specs.Lower.{lowered};
ghost use Rattle.cond_lowering.specs.Codes.{JumpsLeadOn, SameEvents, SameShown};

use crate::functions::lower_all;
use code_runs::code_walks;
use oc_code::CodeFunction;
use oc_typing::Typed;
use oc_values::{Items, NoMemory};
use std::alloc::Global;

/// The code of a program that is lent. `lower` alone makes one.
#[derive(Debug, Drop)]
pub struct Code<'t> {
    typed: &'t Typed,
    functions: Items<CodeFunction>,
    ghost same: { functions ≡ lowered typed.now.structs typed.now.functions },
}

impl<'t> Code<'t> {
    /// The program.
    pub fn tree(&self) -> &'t Typed
        ensures { result.now ≡ self.now.typed.now }
    {
        self.typed
    }

    /// The functions' code, in their order.
    pub fn functions(&self) -> &[CodeFunction]
        ensures same { result.now ≡ self.now.functions }
        ensures code { result.now ≡ lowered self.now.typed.now.structs self.now.typed.now.functions }
    {
        self.functions.as_slice()
    }
}

/// The code of a program, which runs as the program's tree is walked.
pub fn lower<'t>(alloc: Global, typed: &'t Typed) -> Result<Code<'t>, NoMemory>
    ensures lent { IfOk result (λ code. code.typed.now ≡ typed.now) }
    ensures events { IfOk result (λ code. SameEvents typed.now.structs typed.now.functions typed.now.entry code.functions) }
    ensures shown { IfOk result (λ code. SameShown typed.now.structs typed.now.functions typed.now.entry code.functions) }
    ensures jumps { IfOk result (λ code. JumpsLeadOn code.functions) }
{
    code_walks();
    let functions = lower_all(alloc, typed)?;
    Ok(Code { typed, functions })
}
