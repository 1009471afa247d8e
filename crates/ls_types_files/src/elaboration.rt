// The checked file of a class text's tree.

ghost use Rattle.std.specs.Prelude.{◌≡◌, IfOk, length, map};
ghost use Rattle.ls_checked.specs.Plain.{plain_method};
ghost use Rattle.ls_types_elaboration.specs.Elaboration.{file_methods, checked_class, elaborated};
ghost use Rattle.ls_types_elaboration.specs.PlacedStatements.{placed_class, placed_file};
ghost use Rattle.ls_types_elaboration.specs.ElaboratedFiles.{elaborated_file};
ghost use Rattle.ls_types_files.specs.FileViews.{bodies_of};
ghost use Rattle.ls_types_elaboration.specs.Answers.{Gives};
ghost use Rattle.ls_types_tables.specs.ByName.{keys_of, class_entry_of};

use crate::classes::checked_classes;
use crate::methods::class_methods;
use crate::signs::{Classes, class_names, class_tables};
use indexmap::IndexSet;
use ls_checked::tree::{File, Method};
use ls_tree::tree;
use ls_tree::tree::ClassFile;
use ls_types_elaboration::elaborated_file::ElaboratedFile;
use ls_types_elaboration::rule::CheckFault;
use ls_types_elaboration::together::also;
use ls_types_tables::known::Known;
use ls_types_tables::tables::{ClassTables, class_signs, names_of};
use std::alloc::{AllocError, Global};

// The methods of all classes.
fn file_methods(
    alloc: Global,
    names: &IndexSet<String>,
    tables: &[ClassTables],
    classes: &[tree::Class],
) -> Result<Vec<Method>, CheckFault>
    ensures { Gives (bodies_of (length classes.now)) result
        (file_methods (keys_of names.now) (map class_entry_of tables.now) (map placed_class classes.now)) }
{
    let mut methods = Vec::new(alloc);
    for (own, c) in classes.iter().enumerate() {
        let known = Known {
            names,
            classes: tables,
            own,
        };
        methods = class_methods(alloc, known, methods, &c.members)?;
    }
    Ok(methods)
}

// The answer: the tables as lists, the classes and the methods.
fn outcome(
    alloc: Global,
    names: IndexSet<String>,
    tables: Vec<ClassTables>,
    methods: Vec<Method>,
) -> Result<ElaboratedFile, AllocError>
    ensures { IfOk result
        (λ o. elaborated_file o ≡ record {
          names = keys_of names;
          signs = map class_entry_of tables.items;
          file =
              record {
                classes = map checked_class (map class_entry_of tables.items);
                methods =
                    map plain_method methods.items;
              };
        }) }
{
    let names = names_of(alloc, names);
    let ((tables, methods), names) = also((tables, methods), names)?;
    let signs = class_signs(alloc, tables);
    let ((names, methods), signs) = also((names, methods), signs)?;
    let classes = checked_classes(alloc, &signs);
    let ((names, signs, methods), classes) = also((names, signs, methods), classes)?;
    Ok(ElaboratedFile {
        names,
        signs,
        file: File { classes, methods },
    })
}

/// The elaboration of a file, or the first broken rule and its place. Else the only refusal is that memory ran out.
pub fn elaborate(alloc: Global, parsed: &ClassFile) -> Result<ElaboratedFile, CheckFault>
    ensures { Gives elaborated_file result (elaborated (placed_file parsed.now)) }
{
    let names = class_names(alloc, &parsed.classes)?;
    let classes = class_tables(alloc, &names, &parsed.classes);
    let (names, Classes { tables, .. }) = also(names, classes)?;
    let methods = file_methods(alloc, &names, &tables, &parsed.classes);
    let ((names, tables), methods) = also((names, tables), methods)?;
    Ok(outcome(alloc, names, tables, methods)?)
}
