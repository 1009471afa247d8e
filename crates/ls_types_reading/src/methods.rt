// The methods of a checked file by name.

ghost use Rattle.std.specs.Prelude.{◌≡◌, IfOk, map, option_map, slice_get};
ghost use Rattle.ls_checked.specs.PlainProgram.{plain_name};
ghost use Rattle.ls_types_checked.specs.CheckedFile.{elaborated_file, signs_of};
ghost use Rattle.ls_types_elaboration.specs.Known.{method_named};
ghost use Rattle.ls_types_elaboration.specs.Trees.{Text};
ghost use Rattle.ls_types_elaboration.specs.Tables.{class_sign_of, method_sign_of};
ghost use Rattle.ls_types_programs.specs.ProgramCalls.{method_on};
ghost use Rattle.ls_types_reading.specs.MethodsByName.{declares, finds, Finds};

use crate::by_name::{give, value_named};
use indexmap::IndexMap;
use ls_checked::program::SetupName;
use ls_types_checked::checked::Checked;
use ls_types_elaboration::known::{ClassSign, MethodSign};
use std::alloc::{AllocError, Global};

fn by_name<'c>(
    alloc: Global,
    methods: &'c [MethodSign],
) -> Result<IndexMap<String, &'c MethodSign>, AllocError>
    ensures { IfOk result (λ m. (name : Text) → finds m name ≡ method_named (map method_sign_of methods.now) name) }
{
    let mut all = IndexMap::new(alloc);
    for m in methods {
        give(alloc, &mut all, m.name.as_str(), m)?;
    }
    Ok(all)
}

fn of_each<'c>(
    alloc: Global,
    classes: &'c [ClassSign],
) -> Result<Vec<IndexMap<String, &'c MethodSign>>, AllocError>
    ensures { IfOk result (λ v. map finds v.items ≡ map declares (map class_sign_of classes.now)) }
{
    let mut all = Vec::new(alloc);
    for c in classes {
        all.push(by_name(alloc, &c.methods)?)?;
    }
    Ok(all)
}

// The methods of the class of a number, if there is one.
fn table_of<'m, 'c>(
    classes: &'m [IndexMap<String, &'c MethodSign>],
    class: usize,
) -> Option<&'m IndexMap<String, &'c MethodSign>>
    ensures { option_map (λ t. t.now) result ≡ slice_get classes.now class }
{
    classes.get(class)
}

/// A checked file, and the methods of each of its classes by name. A name finds here what it finds among the methods
/// that the class declares.
#[derive(Drop)]
pub struct Methods<'c> {
    pub checked: &'c Checked,
    classes: Vec<IndexMap<String, &'c MethodSign>>,
    ghost kept: { Finds classes.items (signs_of checked.now) },
}

impl<'c> Methods<'c> {
    /// The methods of a checked file by name. The only refusal is that memory ran out.
    pub fn new(alloc: Global, checked: &'c Checked) -> Result<Methods<'c>, AllocError>
        ensures { IfOk result (λ m. m.checked ≡ checked.entry) }
    {
        let classes = of_each(alloc, checked.class_signs())?;
        Ok(Methods { checked, classes })
    }

    /// The method of a name, in the class of the object that a setup name holds, or none.
    pub fn method_on(&self, setup: Option<&SetupName>, name: &str) -> Option<&'c MethodSign>
        ensures { option_map (λ m. method_sign_of m.now) result ≡
            method_on (elaborated_file self.now.checked.now) (option_map (λ s. plain_name s.now) setup.entry) name.now }
    {
        match setup {
            None => None,
            Some(s) => match table_of(&self.classes, s.class) {
                None => None,
                Some(methods) => value_named(methods, name),
            },
        }
    }
}
