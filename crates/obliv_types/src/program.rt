//! Programs.

ghost use Rattle.std.specs.Prelude.{◌≡◌};
ghost use Rattle.oc_typing.specs.Tree.{tree_of};
ghost use Rattle.type_rules.specs.ProgramRules.{typed_program};
ghost use Rattle.type_steps.specs.Answering.{Answers};
ghost use Rattle.written_types.specs.Each.{mapped};
ghost use Rattle.typed_structs.specs.Structs.{after_structs};
ghost use Rattle.obliv_types.specs.Functions.{functions_judged};
ghost use Rattle.obliv_types.specs.Promise.{Promised};

use crate::entry::entry;
use crate::functions::type_functions;
use oc_source::Program;
use oc_typed::TypedFunction;
use oc_typing::Typed;
use oc_values::Items;
use std::alloc::Global;
use type_steps::TypeFault;
use typed_headings::{Structs, bodies_of, type_headings};
use typed_structs::{names_of, struct_types, type_structs};
use written_types::{Names, Shapes};

/// The functions with a body, and the number of the one that a run starts with, where the structs are known.
fn judged_functions<'p>(
    alloc: Global,
    names: &Names<'p>,
    shapes: &Shapes<'p>,
    program: &'p Program,
) -> Result<(Items<TypedFunction>, u64), TypeFault>
    requires { names.now.defs.now ≡ program.now.structs }
    ensures { Answers (functions_judged (after_structs names.now shapes.now) program.now) result }
{
    let structs = Structs::new(names, shapes);
    let headings = type_headings(alloc, &structs, &program.functions)?;
    let bodies = bodies_of(headings);
    let functions = type_functions(alloc, &structs, &bodies, &program.functions)?;
    let entry = entry(program.end, bodies.headings.as_slice())?;
    Ok((functions, entry))
}

/// The typed tree of a program, or its first fault.
fn judged_program(alloc: Global, program: &Program) -> Result<Typed, TypeFault>
    ensures { Answers (typed_program program.now) (mapped tree_of result) }
{
    let names = names_of(alloc, program.structs.as_slice())?;
    let shapes = type_structs(alloc, &names)?;
    let (functions, entry) = judged_functions(alloc, &names, &shapes, program)?;
    let structs = struct_types(alloc, shapes)?;
    Ok(Typed {
        structs,
        functions,
        entry,
    })
}

/// The typed tree of a program: the one that meets the typing of the program. Where there is none, the first node in the
/// order of the language that breaks a rule, and the lowest rule that it breaks.
pub fn type_program(alloc: Global, program: &Program) -> Result<Typed, TypeFault>
    ensures promised { Promised program.now result }
{
    judged_program(alloc, program)
}
