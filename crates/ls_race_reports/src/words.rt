// The variables of a kind.

ghost use Rattle.std.specs.Prelude.{◌≡◌, ◌<◌, ◌+◌, ◌++◌, IfOk, OnOk, false, length, map, string_bytes};
ghost use Rattle.ls_labels.specs.Names.{names_of};
ghost use Rattle.ls_race_reports.specs.Words.{field_text, fields_text, kind_text, or_text};

use ls_labels::names::{Names, class_name, field_name};
use ls_race_laws::access::Kind;
use std::alloc::{AllocError, Global};

/// A field of objects: its number, and how many fields they have.
#[derive(Copy)]
struct Place {
    fields: usize,
    field: usize,
}

impl Clone for Place {
    fn clone(&self) -> Result<Place, AllocError> {
        Ok(*self)
    }
}

fn or_words(after: bool) -> &'static str
    ensures { result.now ≡ or_text after }
{
    if after { " or " } else { "" }
}

/// Adds a field, as `Node.next`.
fn push_field(
    out: &mut String,
    names: Names<'_>,
    class: usize,
    field: usize,
) -> Result<(), AllocError>
    ensures { OnOk result (string_bytes out.new ≡ string_bytes out.old ++
        field_text (names_of names.entry) class field) }
{
    out.push_str(class_name(names, class))?;
    out.push('.')?;
    out.push_str(field_name(names, class, field))
}

/// Adds the field of this number of each class with so many fields, from a class on, as `Node.next or Pair.right`.
/// Another may come before it.
fn push_fields(
    out: &mut String,
    names: Names<'_>,
    place: Place,
    class: usize,
    after: bool,
    classes: &[Vec<bool>],
) -> Result<(), AllocError>
    requires { class + length classes.now < 18446744073709551616 }
    ensures { OnOk result (string_bytes out.new ≡ string_bytes out.old ++
        fields_text (names_of names.entry) place.fields place.field class after (map (λ v. v.items) classes.now)) }
{
    match classes {
        [] => Ok(()),
        [flags, rest @ ..] => {
            if flags.len() == place.fields {
                out.push_str(or_words(after))?;
                push_field(out, names, class, place.field)?;
                push_fields(out, names, place, class + 1, true, rest)
            } else {
                push_fields(out, names, place, class + 1, after, rest)
            }
        }
    }
}

/// The field of this number of each class with so many fields, as `Node.next or Pair.right`.
fn fields_in(
    alloc: Global,
    names: Names<'_>,
    place: Place,
    flags: &[Vec<bool>],
) -> Result<String, AllocError>
    ensures { IfOk result (λ text. string_bytes text ≡
        fields_text (names_of names.entry) place.fields place.field 0 false (map (λ v. v.items) flags.now)) }
{
    let mut text = String::new(alloc);
    // so it is known that the number of classes is in range
    let _count = flags.len();
    push_fields(&mut text, names, place, 0, false, flags)?;
    Ok(text)
}

/// The variables of a kind, as `Node.next`, or `Node.next or Pair.right` where classes have as many fields. The only
/// refusal is that memory ran out.
pub fn kind_words(
    alloc: Global,
    names: Names<'_>,
    flags: &[Vec<bool>],
    on: Kind,
) -> Result<String, AllocError>
    ensures { IfOk result (λ text. string_bytes text ≡
        kind_text (names_of names.entry) (map (λ v. v.items) flags.now) on) }
{
    match on {
        Kind::Element => String::from_str(alloc, "an element of boolean[]"),
        Kind::Field { fields, field } => fields_in(alloc, names, Place { fields, field }, flags),
    }
}
