// Trees that are held while more is read.

ghost use Rattle.std.specs.Prelude.{◌≡◌, IfOk, Ok};

use ls_java_lexer::fault::JavaFault;

/// The first value, and what was read after it. If that is refused, so is this. The first value is dropped here, at a
/// parameter's type, so what holds a tree while it reads on has less to prove.
pub fn beside<T: Drop, U: Drop>(first: T, next: Result<U, JavaFault>) -> Result<(T, U), JavaFault>
    ensures { IfOk result (λ p. next ≡ Ok p.1) }
{
    let next = next?;
    Ok((first, next))
}
