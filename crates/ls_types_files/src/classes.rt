// The classes of a checked file.

ghost use Rattle.std.specs.Prelude.{◌≡◌, IfOk, map};
ghost use Rattle.ls_checked.specs.Plain.{plain_class};
ghost use Rattle.ls_types_elaboration.specs.Elaboration.{checked_class};
ghost use Rattle.ls_types_elaboration.specs.Tables.{class_sign_of, field_sign_of};

use ls_checked::tree::Class;
use ls_events::value::ValueType;
use ls_types_elaboration::known::{ClassSign, FieldSign};
use std::alloc::{AllocError, Global};

fn field_types(alloc: Global, fields: &[FieldSign]) -> Result<Vec<ValueType>, AllocError>
    ensures { IfOk result (λ v. v.items ≡ map (λ f. f.type) (map field_sign_of fields.now)) }
{
    let mut types = Vec::new(alloc);
    for f in fields {
        types.push(f.value_type)?;
    }
    Ok(types)
}

fn checked_class(alloc: Global, c: &ClassSign) -> Result<Class, AllocError>
    ensures { IfOk result (λ d. plain_class d ≡ checked_class (class_sign_of c.now)) }
{
    Ok(Class {
        fields: field_types(alloc, &c.fields)?,
        constructor: c.constructor,
    })
}

/// The classes as they are checked. The only refusal is that memory ran out.
pub fn checked_classes(alloc: Global, signs: &[ClassSign]) -> Result<Vec<Class>, AllocError>
    ensures { IfOk result (λ v. map plain_class v.items ≡ map checked_class (map class_sign_of signs.now)) }
{
    let mut classes = Vec::new(alloc);
    for c in signs {
        classes.push(checked_class(alloc, c)?)?;
    }
    Ok(classes)
}
