// A step on a value of any type. A refused value is dropped here, at a parameter's type.

ghost use Rattle.std.specs.Prelude.{◌≡◌, Err, Ok, if◌then◌else◌};

use ls_types_checked::fault::ProgramFault;

/// `x`, if it passes. Else it is refused with `fault`.
pub fn passing<T: Drop>(x: T, passes: bool, fault: ProgramFault) -> Result<T, ProgramFault>
    ensures { result ≡ (if passes then Ok x else Err fault) }
{
    if passes { Ok(x) } else { Err(fault) }
}
