// The setup names of a thread program.

ghost use Rattle.std.specs.Prelude.{◌≡◌, ◌++◌, ◌∷◌, [], IfOk, List, length, map, option_map, slice_get};
ghost use Rattle.ls_checked.specs.CheckedProgram.{SetupName as Named};
ghost use Rattle.ls_checked.specs.PlainProgram.{plain_name};
ghost use Rattle.ls_types_checked.specs.ProgramViews.{callee_of};
ghost use Rattle.ls_types_elaboration.specs.Trees.{Text};
ghost use Rattle.ls_types_programs.specs.ProgramCalls.{setup_named, names_after};
ghost use Rattle.ls_types_reading.specs.ByName.{entries_of, value_named};

use crate::by_name::{give, value_named};
use indexmap::IndexMap;
use ls_checked::program::SetupName;
use ls_types_checked::calls::Callee;
use std::alloc::{AllocError, Global};
use std::marker::Model;

/// The setup names in order, and the number of each. Contracts see the list.
#[derive(Drop)]
pub struct SetupNames {
    names: Vec<SetupName>,
    numbers: IndexMap<String, usize>,
}

impl Model for SetupNames {
    ghost Value = { List Named };

    ghost view = { λ s. map plain_name s.names.items };

    ghost invariant = { λ s. (name : Text) → value_named (entries_of s.numbers) name ≡
        setup_named (map plain_name s.names.items) name };
}

// One more name, with its number.
fn add(
    alloc: Global,
    names: &mut Vec<SetupName>,
    numbers: &mut IndexMap<String, usize>,
    name: &str,
    class: usize,
) -> Result<(), AllocError>
    requires { (n : Text) →
        value_named (entries_of numbers.old) n ≡ setup_named (map plain_name names.old.items) n }
    ensures named { IfOk result (λ _. (n : Text) →
        value_named (entries_of numbers.new) n ≡ setup_named (map plain_name names.new.items) n) }
    ensures names { IfOk result (λ _. map plain_name names.new.items ≡
        map plain_name names.old.items ++ record { name = name.now; class = class } ∷ []) }
{
    give(alloc, numbers, name, names.len())?;
    let name = String::from_str(alloc, name)?;
    names.push(SetupName { name, class })?;
    Ok(())
}

impl SetupNames {
    /// No setup names.
    pub fn new(alloc: Global) -> SetupNames
        ensures { result ≡ [] }
    {
        SetupNames {
            names: Vec::new(alloc),
            numbers: IndexMap::new(alloc),
        }
    }

    /// How many setup names there are.
    pub fn len(&self) -> usize
        ensures { result ≡ length self.now }
    {
        self.names.len()
    }

    /// The setup name of a number, or none.
    pub fn get(&self, number: usize) -> Option<&SetupName>
        ensures { option_map (λ s. plain_name s.now) result ≡ slice_get self.now number }
    {
        self.names.get(number)
    }

    /// The number of the setup name with this text, or none.
    pub fn number_of(&self, name: &str) -> Option<usize>
        ensures { result ≡ setup_named self.now name.now }
    {
        value_named(&self.numbers, name)
    }

    /// The same names, and one more. The only refusal is that memory ran out.
    pub fn with(self, alloc: Global, name: &str, class: usize) -> Result<SetupNames, AllocError>
        ensures { IfOk result (λ s. s ≡ self ++ record { name = name.now; class = class } ∷ []) }
    {
        let SetupNames {
            mut names,
            mut numbers,
        } = self;
        add(alloc, &mut names, &mut numbers, name, class)?;
        Ok(SetupNames { names, numbers })
    }

    /// The same names, and the name that a call gives, if it gives one. The only refusal is that memory ran out.
    pub fn with_callee(self, alloc: Global, callee: Callee) -> Result<SetupNames, AllocError>
        ensures { IfOk result (λ s. s ≡ names_after self (callee_of callee.entry)) }
    {
        match callee {
            Callee::Maker { name, class, .. } => self.with(alloc, name, class),
            Callee::Method { .. } => Ok(self),
        }
    }

    /// The setup names in order.
    pub fn into_names(self) -> Vec<SetupName>
        ensures { map plain_name result.items ≡ self }
    {
        self.names
    }
}
