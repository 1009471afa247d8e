// The names of a text and a program.

ghost use Rattle.std.specs.Prelude.{◌≡◌, ◌++◌, OnOk, [], map, option_map, slice_get, string_bytes};
ghost use Rattle.std.specs.Option.{option_map_or};
ghost use Rattle.ls_types_elaboration.specs.Tables.{field_sign_of, method_sign_of};
ghost use Rattle.ls_labels.specs.Names.{class_name, field_name, method_found, method_name, names_of};

use ls_checked::program::Program;
use ls_checked::tree::File;
use ls_types_elaboration::known::{ClassSign, FieldSign, MethodSign};
use std::alloc::AllocError;
use std::fmt::Write;

/// Where the names of a run come from: the classes, what they declare, the checked file, and the program that is run.
/// A class's number is the index of its name.
#[derive(Clone, Copy)]
pub struct Names<'n> {
    pub classes: &'n [String],
    pub signs: &'n [ClassSign],
    pub file: &'n File,
    pub program: &'n Program,
}

/// The name of a class, by its number.
pub fn class_name<'n>(names: Names<'n>, class: usize) -> &'n str
    ensures { result.now ≡ class_name (names_of names.entry) class }
{
    match names.classes.get(class) {
        Some(name) => name.as_str(),
        None => "",
    }
}

// The name of a field, by its number.
fn field_at(fields: &[FieldSign], field: usize) -> &str
    ensures { result.now ≡ option_map_or (λ f. f.name) (slice_get (map field_sign_of fields.now) field) [] }
{
    match fields.get(field) {
        Some(sign) => sign.name.as_str(),
        None => "",
    }
}

/// The name of a field of a class, by their numbers.
pub fn field_name<'n>(names: Names<'n>, class: usize, field: usize) -> &'n str
    ensures { result.now ≡ field_name (names_of names.entry) class field }
{
    match names.signs.get(class) {
        Some(sign) => field_at(&sign.fields, field),
        None => "",
    }
}

// The name of the method that has this number in the file, among those of its class; or none.
fn method_found(methods: &[MethodSign], number: usize) -> Option<&str>
    ensures { option_map (λ n. n.now) result ≡ method_found (map method_sign_of methods.now) number }
{
    match methods {
        [] => None,
        [sign, rest @ ..] => {
            if sign.number == number {
                Some(sign.name.as_str())
            } else {
                method_found(rest, number)
            }
        }
    }
}

/// Adds a method of the file, as `SetList.add`, or a constructor, as `new SetList`, by its number. The only refusal is
/// that memory ran out.
pub fn push_method(out: &mut String, names: Names, number: usize) -> Result<(), AllocError>
    ensures { OnOk result (string_bytes out.new ≡ string_bytes out.old ++ method_name (names_of names.entry) number) }
{
    let Some(method) = names.file.methods.get(number) else {
        return Ok(());
    };
    let Some(sign) = names.signs.get(method.class) else {
        return Ok(());
    };
    let class = class_name(names, method.class);
    match method_found(&sign.methods, number) {
        Some(name) => {
            out.push_str(class)?;
            out.push('.')?;
            out.push_str(name)
        }
        None => write!(out, "new {class}"),
    }
}
