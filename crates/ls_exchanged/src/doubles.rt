// What is so of programs that are doubles, as the contracts of functions that compute nothing.

ghost use Rattle.ls_exchanged.specs.DoubleLaws.{DoublesAreExchanged, DoublesHaveNames};

/// A thread and the one after it are exchanged.
pub fn doubles_are_exchanged()
    ensures { DoublesAreExchanged }
{}

/// At each place the threads have the same name.
pub fn doubles_have_names()
    ensures { DoublesHaveNames }
{}
