// Which method and which constructor is meant (JLS 15.12.2, 15.9.3).

use crate::kinds::{fits, fits_strictly};
use crate::restater::Restater;
use crate::values::Kind;
use crate::words::WordId;

// Whether arguments fit parameters, without boxing or with it.
fn all_fit(arguments: &[Kind], parameters: &[Kind], strictly: bool) -> bool {
    if arguments.len() != parameters.len() {
        return false;
    }
    for (argument, parameter) in arguments.iter().zip(parameters.iter()) {
        let fits_here = if strictly {
            fits_strictly(*argument, *parameter)
        } else {
            fits(*argument, *parameter)
        };
        if !fits_here {
            return false;
        }
    }
    true
}

fn method_by(
    restater: &Restater,
    class: usize,
    name: WordId,
    arguments: &[Kind],
    strictly: bool,
) -> Option<usize> {
    for (number, method) in restater.tables.methods.iter().enumerate() {
        let is_meant = method.class == class && method.name == name;
        if is_meant && all_fit(arguments, &method.parameters, strictly) {
            return Some(number);
        }
    }
    None
}

/// The method of a name in a class that takes arguments of these kinds: the first without boxing, else the first with
/// it.
pub fn choose_method(
    restater: &Restater,
    class: usize,
    name: WordId,
    arguments: &[Kind],
) -> Option<usize> {
    match method_by(restater, class, name, arguments, true) {
        Some(method) => Some(method),
        None => method_by(restater, class, name, arguments, false),
    }
}

fn constructor_by(
    restater: &Restater,
    class: usize,
    arguments: &[Kind],
    strictly: bool,
) -> Option<usize> {
    for (number, constructor) in restater.tables.constructors.iter().enumerate() {
        if constructor.class == class && all_fit(arguments, &constructor.parameters, strictly) {
            return Some(number);
        }
    }
    None
}

/// The constructor of a class that takes arguments of these kinds: the first without boxing, else the first with it.
pub fn choose_constructor(restater: &Restater, class: usize, arguments: &[Kind]) -> Option<usize> {
    match constructor_by(restater, class, arguments, true) {
        Some(constructor) => Some(constructor),
        None => constructor_by(restater, class, arguments, false),
    }
}

/// Whether a class declares a constructor.
pub fn has_constructor(restater: &Restater, class: usize) -> bool {
    for one in &restater.tables.constructors {
        if one.class == class {
            return true;
        }
    }
    false
}
