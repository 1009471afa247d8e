// What is looked up in a checked file.

ghost use Rattle.std.specs.Prelude.{◌≡◌, map, option_copied, option_map, slice_get};
ghost use Rattle.ls_checked.specs.Plain.{plain_class, plain_file, plain_method};
ghost use Rattle.ls_meaning.specs.Expressions.{constructor_of, field_of};

use ls_checked::tree::{Class, File, Method};
use ls_meaning::sort::Sort;

/// The method with a number, or none.
pub fn method_at<'a>(file: &'a File, n: usize) -> Option<&'a Method>
    ensures { option_map plain_method (option_copied result) ≡ slice_get (plain_file file.now).methods n }
{
    file.methods.get(n)
}

/// The constructor of a class.
pub fn constructor_of(classes: &[Class], n: usize) -> usize
    ensures { result ≡ constructor_of (map plain_class classes.now) n }
{
    match classes.get(n) {
        None => 0,
        Some(c) => c.constructor,
    }
}

/// The sort of the answer to a read of a field.
pub fn field_of(classes: &[Class], class: usize, field: usize) -> Sort
    ensures { result ≡ field_of (map plain_class classes.now) class field }
{
    match classes.get(class) {
        None => Sort::NoValue,
        Some(c) => match c.fields.get(field) {
            None => Sort::NoValue,
            Some(t) => Sort::ValueOf(*t),
        },
    }
}
