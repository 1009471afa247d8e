// Steps on values of any type. If something else may fail while a value is owned, the value is dropped here, at a
// parameter's type.

ghost use Rattle.std.specs.Prelude.{◌≡◌, Err, IfOk, Ok, if◌then◌else◌};
ghost use Rattle.ls_types_elaboration.specs.Answers.{seen};

use crate::rule::Broken;

/// The first value, and what comes next. If what comes next is refused, so is this.
pub fn also<T: Drop, U: Drop, E: Drop>(first: T, next: Result<U, E>) -> Result<(T, U), E>
    ensures next { next ≡ seen (λ p. p.1) result }
    ensures first { IfOk result (λ p. p.0 ≡ first) }
{
    match next {
        Ok(next) => Ok((first, next)),
        Err(refused) => Err(refused),
    }
}

/// The value, if it passes; else the broken rule.
pub fn passing<T: Drop>(x: T, passes: bool, broken: Broken) -> Result<T, Broken>
    ensures { result ≡ (if passes then Ok x else Err broken) }
{
    if passes { Ok(x) } else { Err(broken) }
}
