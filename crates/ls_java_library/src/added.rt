// The classes that are added.

use crate::arrays::{array_class, shape_of};
use crate::atomics::{boolean_class, integer_class};
use crate::patterns::{NO_TOKEN, Names, fill};
use crate::synchronizers::{
    CONDITION, KEY, LATCH, READ_WRITE, SEMAPHORE, WAITED_KEY, WAITED_KEY_REST,
};
use ls_java_tables::needs::{ArrayClass, Helper, HelperClass, helper_class};
use ls_java_tables::remarks::Stop;
use ls_java_tables::restater::{Restater, is_waited_on};
use ls_java_tables::ropes::Text;
use ls_java_tables::spelling::word;
use ls_java_tables::types::element_text;
use ls_java_tables::values::{Element, Kind};
use ls_java_tables::words::Words;

// The name of a class, and of the other one that it names: that of an AtomicInteger's values, or the lock of a Key.
fn helper_names(restater: &mut Restater, class: HelperClass) -> Result<Names, Stop> {
    let other = match class.helper {
        Helper::AtomicInteger => restater.needs.box_name.unwrap_or(Words::NONE),
        Helper::Key => restater.added.monitor,
        _ => Words::NONE,
    };
    Ok(Names {
        class: word(restater, class.name, NO_TOKEN)?,
        other: word(restater, other, NO_TOKEN)?,
    })
}

// The class for Object, where `wait` is called on objects of it.
fn waited_key(restater: &mut Restater, out: &mut Text, names: Names) -> Result<(), Stop> {
    fill(restater, out, WAITED_KEY, names)?;
    let condition = helper_class(restater, Helper::Condition)?;
    let rest = Names {
        class: word(restater, condition, NO_TOKEN)?,
        other: word(restater, restater.added.waiters, NO_TOKEN)?,
    };
    fill(restater, out, WAITED_KEY_REST, rest)
}

fn helper(restater: &mut Restater, out: &mut Text, class: HelperClass) -> Result<(), Stop> {
    let names = helper_names(restater, class)?;
    match class.helper {
        Helper::AtomicInteger => integer_class(restater, out, names),
        Helper::AtomicBoolean => boolean_class(restater, out, names),
        Helper::ReadWrite => fill(restater, out, READ_WRITE, names),
        Helper::Semaphore => fill(restater, out, SEMAPHORE, names),
        Helper::Latch => fill(restater, out, LATCH, names),
        Helper::Key if is_waited_on(restater, Kind::Key) => waited_key(restater, out, names),
        Helper::Key => fill(restater, out, KEY, names),
        Helper::Condition => fill(restater, out, CONDITION, names),
    }
}

// What the elements of AtomicIntegerArray and AtomicReferenceArray begin with. Those of other arrays have the default
// value (JLS 4.12.5).
fn first_of(class: ArrayClass) -> Option<&'static str> {
    match class.element {
        Element::AtomicInteger if class.filled => Some("= new @ ( 0 ) ;"),
        Element::Reference(_) if class.filled => Some("= new @ ( null , false ) ;"),
        _ => None,
    }
}

fn array(restater: &mut Restater, out: &mut Text, class: ArrayClass) -> Result<(), Stop> {
    let names = Names {
        class: word(restater, class.name, NO_TOKEN)?,
        other: element_text(restater, class.element, NO_TOKEN)?,
    };
    let needs = &restater.needs;
    let shape = shape_of(
        needs.greatest_length,
        needs.lengths_are_constant,
        first_of(class),
    );
    array_class(restater, out, names, shape)
}

/// The classes that are added. Those for arrays come first. The type of their elements may add others.
pub fn added_classes(restater: &mut Restater) -> Result<Text, Stop> {
    let mut out = Text::EMPTY;
    for number in 0..usize::MAX {
        let Some(class) = restater.needs.arrays.get(number).copied() else {
            break;
        };
        array(restater, &mut out, class)?;
    }
    for number in 0..usize::MAX {
        let Some(class) = restater.needs.helpers.get(number).copied() else {
            break;
        };
        helper(restater, &mut out, class)?;
    }
    Ok(out)
}
