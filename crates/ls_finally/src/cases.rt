// Small cases of the definitions: the functions compute nothing, and their contracts say the cases.

ghost use Rattle.ls_finally.specs.Cases.{ReturnsFirst, ThrowsOn, ReturnReplaces, BreaksThrough, ThrowReplaces};

/// A return keeps its value, whatever the finally block assigns.
pub fn returns_first()
    ensures { ReturnsFirst }
{}

/// A throw goes on after one run of the finally block.
pub fn throws_on()
    ensures { ThrowsOn }
{}

/// A return of the finally block replaces a throw.
pub fn return_replaces()
    ensures { ReturnReplaces }
{}

/// A break runs the finally block once.
pub fn breaks_through()
    ensures { BreaksThrough }
{}

/// A finally block that throws is not run again.
pub fn throw_replaces()
    ensures { ThrowReplaces }
{}
