//! The visible variables, and those of a whole function.

ghost use Rattle.std.specs.Prelude.{◌≡◌, ◌∷◌, ◌++◌, [], ◌≤◌, ◌-◌, length, take, OnOk, List};
ghost use Rattle.type_rules.specs.StatementRules.{is_taken, add};
ghost use Rattle.visible_variables.specs.declared.scope.Variable.{Variable};
ghost use Rattle.visible_variables.specs.Seen.{last, Latest};
ghost use Rattle.visible_variables.specs.Scopes.{scope_of, Sound, Hidden, Grown, entered};

use oc_cells::{CType, SlotType};
use oc_values::{Items, NoMemory};
use std::alloc::Global;
use std::collections::BTreeMap;
use type_steps::types::share_type;
use written_types::number_of;

/// A visible variable.
#[derive(Drop)]
pub struct Variable<'p> {
    pub name: &'p [u8],
    pub slot: u64,
    pub ty: CType,
    /// The number of the variable of the same name that it hides.
    pub hides: Option<u64>,
}

/// The visible variables, with the number of the last one of each name; the slots of the function so far; and how many
/// variables are visible from around the innermost scope.
#[derive(Drop)]
pub struct Scope<'p> {
    pub variables: Items<Variable<'p>>,
    pub latest: BTreeMap<&'p [u8], u64>,
    pub slots: Items<SlotType>,
    pub outer: u64,
}

impl<'p> Scope<'p> {
    /// No variable.
    pub fn new(alloc: Global) -> Scope<'p>
        ensures sound { Sound result }
        ensures empty { (result.variables ≡ []) × (result.slots ≡ []) × (result.outer ≡ 0) }
    {
        Scope {
            variables: Items::new(alloc),
            latest: BTreeMap::new(alloc),
            slots: Items::new(alloc),
            outer: 0,
        }
    }

    /// Whether a name is declared in the innermost scope.
    pub fn is_taken(&self, name: &[u8]) -> bool
        requires { Sound self.now }
        ensures { result ≡ is_taken (scope_of self.now) name.now }
    {
        match number_of(&self.latest, name) {
            None => false,
            Some(number) => number >= self.outer,
        }
    }

    /// A further variable, which has the next slot.
    pub fn add(&mut self, name: &'p [u8], ty: CType, frozen: bool) -> Result<(), NoMemory>
        requires { Sound self.old }
        ensures sound { OnOk result (Sound self.new) }
        ensures added { OnOk result (scope_of self.new ≡ add name.now ty frozen (scope_of self.old)) }
        ensures grown { OnOk result (Grown self.old.variables self.new.variables) }
    {
        let hides = number_of(&self.latest, name);
        let number = self.variables.len() as u64;
        self.latest.insert(name, number)?;
        let slot = self.slots.len() as u64;
        self.slots.push(SlotType {
            ty: share_type(&ty)?,
            frozen,
        })?;
        self.variables.push(Variable {
            name,
            slot,
            ty,
            hides,
        })?;
        Ok(())
    }

    /// Lets the last variable go, if there is one.
    fn drop_last(&mut self) -> Result<(), NoMemory>
        requires latest { Latest self.old.latest self.old.variables }
        requires hidden { Hidden [] self.old.variables }
        ensures latest { OnOk result (Latest self.new.latest self.new.variables) }
        ensures hidden { OnOk result (Hidden [] self.new.variables) }
        ensures shrunk { OnOk result ((more : List Variable) × (self.old.variables ≡ self.new.variables ++ more)) }
        ensures fewer { OnOk result (length self.new.variables ≡ length self.old.variables - 1) }
        ensures rest { OnOk result ((self.new.slots ≡ self.old.slots) × (self.new.outer ≡ self.old.outer)) }
    {
        match self.variables.pop() {
            None => Ok(()),
            Some(variable) => {
                show(&mut self.latest, &variable)?;
                Ok(())
            }
        }
    }

    /// Enters a scope; the answer is for when it is left.
    pub fn enter(&mut self) -> u64
        requires { Sound self.old }
        ensures sound { Sound self.new }
        ensures entered { scope_of self.new ≡ entered (scope_of self.old) }
        ensures kept { (self.new.variables ≡ self.old.variables) × (self.new.outer ≡ length self.old.variables) }
        ensures around { result ≡ self.old.outer }
    {
        let around = self.outer;
        self.outer = self.variables.len() as u64;
        around
    }

    /// Leaves the innermost scope: only the variables from around it stay visible.
    pub fn leave(&mut self, around: u64) -> Result<(), NoMemory>
        requires sound { Sound self.old }
        requires within { around ≤ self.old.outer }
        ensures sound { OnOk result (Sound self.new) }
        ensures left { OnOk result ((self.new.variables ≡ take self.old.outer self.old.variables) × (self.new.slots ≡ self.old.slots) × (self.new.outer ≡ around)) }
    {
        'leaving: while self.variables.len() as u64 > self.outer {
            self.drop_last()?;
        }
        self.outer = around;
        Ok(())
    }
}

/// Makes the variable visible again that a last one hides.
fn show<'p>(latest: &mut BTreeMap<&'p [u8], u64>, variable: &Variable<'p>) -> Result<(), NoMemory>
    ensures { OnOk result ((vs : List Variable) → Latest latest.old (vs ++ variable.now ∷ []) → variable.now.hides ≡ last vs variable.now.name.now → Latest latest.new vs) }
{
    match variable.hides {
        None => {
            latest.remove(variable.name);
            Ok(())
        }
        Some(number) => {
            latest.insert(variable.name, number)?;
            Ok(())
        }
    }
}
