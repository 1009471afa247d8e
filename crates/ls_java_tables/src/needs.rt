// Which classes are added to those of the file.

use crate::finding::declares;
use crate::remarks::Stop;
use crate::restater::{Restater, fresh, word_of};
use crate::values::Element;
use crate::words::WordId;

/// A class that stands for one of the library.
#[derive(Clone, Copy, PartialEq, Eq)]
pub enum Helper {
    AtomicInteger,
    AtomicBoolean,
    ReadWrite,
    Semaphore,
    Latch,
    Key,
    Condition,
}

/// A method of a class that stands for one of the library.
#[derive(Clone, Copy, PartialEq, Eq)]
pub enum Operation {
    Get,
    Set,
    GetAndSet,
    GetAndAdd,
    AddAndGet,
    GetAndIncrement,
    IncrementAndGet,
    GetAndDecrement,
    DecrementAndGet,
    CompareAndSet,
    CompareAndExchange,
}

/// A class of the library that is added, and its name.
#[derive(Clone, Copy)]
pub struct HelperClass {
    pub helper: Helper,
    pub name: WordId,
}

/// A class that stands for arrays of these elements, and its name. If it is filled, its elements are made with it, as
/// those of an AtomicIntegerArray are.
#[derive(Clone, Copy)]
pub struct ArrayClass {
    pub element: Element,
    pub filled: bool,
    pub name: WordId,
}

/// A method that is called.
#[derive(Clone, Copy, PartialEq, Eq)]
pub struct Used {
    pub helper: Helper,
    pub operation: Operation,
}

/// The classes that are added, the methods of them that are called, and the lengths of arrays: the greatest one that is
/// a constant, and whether all are constants. `box_name` is the name of the class of an AtomicInteger's values.
#[derive(Drop)]
pub struct Needs {
    pub helpers: Vec<HelperClass>,
    pub arrays: Vec<ArrayClass>,
    pub used: Vec<Used>,
    pub box_name: Option<WordId>,
    pub greatest_length: u32,
    pub lengths_are_constant: bool,
}

// The name that a class of the library gets if the file hasn't it.
fn helper_base(helper: Helper) -> &'static str {
    match helper {
        Helper::AtomicInteger => "AtomicInt",
        Helper::AtomicBoolean => "Flag",
        Helper::ReadWrite => "ReadWrite",
        Helper::Semaphore => "Semaphore",
        Helper::Latch => "CountDownLatch",
        Helper::Key => "Key",
        Helper::Condition => "Condition",
    }
}

// The name of a class that is added. A class of the library keeps its name where the file declares none of that name.
fn helper_name(restater: &mut Restater, helper: Helper) -> Result<WordId, Stop> {
    let base = helper_base(helper);
    if matches!(
        &helper,
        Helper::Semaphore | Helper::Latch | Helper::Condition
    ) {
        let name = word_of(restater, base)?;
        if !declares(restater, name) {
            return Ok(name);
        }
    }
    fresh(restater, base)
}

/// The name of a class of the library, which is added.
pub fn helper_class(restater: &mut Restater, helper: Helper) -> Result<WordId, Stop> {
    for known in &restater.needs.helpers {
        if known.helper == helper {
            return Ok(known.name);
        }
    }
    let name = helper_name(restater, helper)?;
    restater.needs.helpers.push(HelperClass { helper, name })?;
    if helper == Helper::AtomicInteger {
        restater.needs.box_name = Some(fresh(restater, "IntBox")?);
    }
    Ok(name)
}

/// A method of a class of the library is called.
pub fn use_operation(
    restater: &mut Restater,
    helper: Helper,
    operation: Operation,
) -> Result<(), Stop> {
    let one = Used { helper, operation };
    if !restater.needs.used.contains(&one) {
        restater.needs.used.push(one)?;
    }
    Ok(())
}

/// An array is made with a length, a constant or none.
pub fn length_seen(restater: &mut Restater, length: Option<i32>) {
    match length {
        Some(length) => {
            let length = length.unsigned_abs();
            if length > restater.needs.greatest_length {
                restater.needs.greatest_length = length;
            }
        }
        None => restater.needs.lengths_are_constant = false,
    }
}
