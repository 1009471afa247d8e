// Laws of the emission: the functions compute nothing, and their contracts say the laws.

ghost use Rattle.ls_lowered.specs.LoweredTree.{File};
ghost use Rattle.ls_emit.specs.Units.{units_of};
ghost use Rattle.ls_emit.specs.Emittable.{IsEmittableFile};
ghost use Rattle.ls_emit.specs.Entering.{UnitsAsk};
ghost use Rattle.ls_emit.specs.Rows.{Rows};

/// The units of a file, in whatever code they lie, ask what the file's methods ask.
pub fn units_ask()
    ensures { (file : File) → IsEmittableFile file → UnitsAsk file (units_of file) }
{}

/// The code of some small methods, and a thread that runs one of them.
pub fn rows()
    ensures { Rows }
{}
