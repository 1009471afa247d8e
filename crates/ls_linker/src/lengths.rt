// The laws: the functions compute nothing, and their contracts say the laws.

ghost use Rattle.ls_linker.specs.Floor.{UnitsAreFew, CodeHoldsMethods, CodeIsShort, KeepsFloor, LowersFew};
ghost use Rattle.ls_linker.specs.Floor.{CountsWritten};

/// A method has at most 16 instructions for each node and each declared name. The whole code has the instructions of
/// each method. It has at most 16 for each node, declared name, thread, call and argument. If these are together at
/// most 4,096, no code is too long.
pub fn sizes()
    ensures units { UnitsAreFew }
    ensures methods { CodeHoldsMethods }
    ensures code { CodeIsShort }
    ensures floor { KeepsFloor }
{}

/// The lowering makes at most 16 nodes of one node. Each copy of a finally block adds at most 6 nodes and the nodes of
/// its body.
pub fn lowering()
    ensures method { LowersFew }
    ensures file { CountsWritten }
{}
