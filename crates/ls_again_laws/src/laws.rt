// The law, as the contract of a function that computes nothing.

ghost use Rattle.ls_again_laws.specs.Written.{RoundsAreWritten};

/// The runs of threads that begin their calls again are those of the program with its calls written often enough, but
/// for the numbers of calls.
pub fn rounds_are_written()
    ensures { RoundsAreWritten }
{}
