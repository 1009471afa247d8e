// `throw` (JLS 14.18): a trap of the class text, in a loop, since nothing follows a `throw`.

use ls_java_expressions::creations::class_type;
use ls_java_expressions::writing::emit;
use ls_java_tables::remarks::{Stop, What, Why};
use ls_java_tables::restater::{Restater, fresh, note, refuse};
use ls_java_tables::ropes::Text;
use ls_java_tables::spelling::word;
use ls_java_tree::expressions::{Expression, ExpressionKind};

// What traps as an exception of this name does, if the class text has the trap. It names its local so often.
fn trap(name: &str) -> Option<(&'static str, usize)> {
    match name {
        "NullPointerException" => Some((
            "while ( true ) { boolean [ ] # = null ; # [ 0 ] = true ; }",
            2,
        )),
        "ArrayIndexOutOfBoundsException" => Some((
            "while ( true ) { boolean [ ] # = new boolean [ 0 ] ; # [ 0 ] = true ; }",
            2,
        )),
        "NegativeArraySizeException" => Some((
            "while ( true ) { boolean [ ] # = new boolean [ - 1 ] ; }",
            1,
        )),
        "IllegalMonitorStateException" => Some((
            "while ( true ) { Lock # = new ReentrantLock ( ) ; # . unlock ( ) ; }",
            2,
        )),
        "ArithmeticException" => Some((DIVISION, 1)),
        _ => None,
    }
}

// The trap that stands for every other exception.
const DIVISION: &str = "while ( true ) { int # = 1 / 0 ; }";

/// `throw` of a new exception. Its arguments are left out.
pub(crate) fn throw_statement(
    restater: &mut Restater,
    out: &mut Text,
    at: usize,
    thrown: &Expression,
) -> Result<(), Stop> {
    let ExpressionKind::New { class, .. } = &thrown.kind else {
        return refuse(restater, at, Why::ThrowOf);
    };
    let Some(class) = class_type(class) else {
        return refuse(restater, at, Why::ThrowOf);
    };
    let (pattern, count) = match trap(class.name.text.as_str()) {
        Some(found) => found,
        None => {
            note(restater, at, What::Throw)?;
            (DIVISION, 1)
        }
    };
    let name = fresh(restater, "thrown")?;
    let local = word(restater, name, at)?;
    if count == 1 {
        return emit(restater, out, at, pattern, &[local]);
    }
    emit(restater, out, at, pattern, &[local, local])
}
