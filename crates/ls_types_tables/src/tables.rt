// Tables by name of what a text declares. An index map numbers its entries in the order in which they came.

ghost use Rattle.std.specs.Prelude.{◌≡◌, IfOk, map};
ghost use Rattle.ls_types_elaboration.specs.Tables.{texts_of, field_sign_of, method_sign_of, class_sign_of};
ghost use Rattle.ls_types_tables.specs.ByName.{keys_of, field_entries_of, method_entries_of, class_entry_of};

use indexmap::{IndexMap, IndexSet};
use ls_events::value::ValueType;
use ls_types_elaboration::known::{ClassSign, FieldSign, MethodSign};
use std::alloc::{AllocError, Global};

/// A method: its number in the file, the types of its parameters, and the type of its answer. A void method has none.
#[derive(Drop)]
pub struct MethodEntry {
    pub number: usize,
    pub parameters: Vec<ValueType>,
    pub result: Option<ValueType>,
}

/// What a class declares, by name. A field's number is its index. `constructor` is the number of the constructor in
/// the file, and `parameters` are the types of its parameters.
#[derive(Drop)]
pub struct ClassTables {
    pub fields: IndexMap<String, ValueType>,
    pub methods: IndexMap<String, MethodEntry>,
    pub constructor: usize,
    pub parameters: Vec<ValueType>,
}

/// Names as a list, by their numbers. The only refusal is that memory ran out.
pub fn names_of(alloc: Global, names: IndexSet<String>) -> Result<Vec<String>, AllocError>
    ensures { IfOk result (λ v. texts_of v.items ≡ keys_of names) }
{
    let mut all = Vec::new(alloc);
    for name in names {
        all.push(name)?;
    }
    Ok(all)
}

fn field_signs(
    alloc: Global,
    fields: IndexMap<String, ValueType>,
) -> Result<Vec<FieldSign>, AllocError>
    ensures { IfOk result (λ v. map field_sign_of v.items ≡ field_entries_of fields) }
{
    let mut signs = Vec::new(alloc);
    for (name, value_type) in fields {
        signs.push(FieldSign { name, value_type })?;
    }
    Ok(signs)
}

fn method_signs(
    alloc: Global,
    methods: IndexMap<String, MethodEntry>,
) -> Result<Vec<MethodSign>, AllocError>
    ensures { IfOk result (λ v. map method_sign_of v.items ≡ method_entries_of methods) }
{
    let mut signs = Vec::new(alloc);
    for (name, m) in methods {
        let MethodEntry {
            number,
            parameters,
            result,
        } = m;
        signs.push(MethodSign {
            name,
            number,
            parameters,
            result,
        })?;
    }
    Ok(signs)
}

fn class_sign(alloc: Global, tables: ClassTables) -> Result<ClassSign, AllocError>
    ensures { IfOk result (λ s. class_sign_of s ≡ class_entry_of tables) }
{
    let ClassTables {
        fields,
        methods,
        constructor,
        parameters,
    } = tables;
    let fields = field_signs(alloc, fields)?;
    let methods = method_signs(alloc, methods)?;
    Ok(ClassSign {
        fields,
        methods,
        constructor,
        parameters,
    })
}

/// What the classes declare as lists, by numbers. The only refusal is that memory ran out.
pub fn class_signs(alloc: Global, all: Vec<ClassTables>) -> Result<Vec<ClassSign>, AllocError>
    ensures { IfOk result (λ v. map class_sign_of v.items ≡ map class_entry_of all.items) }
{
    let mut signs = Vec::new(alloc);
    for tables in all {
        signs.push(class_sign(alloc, tables)?)?;
    }
    Ok(signs)
}
