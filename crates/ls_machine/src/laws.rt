// Laws of the definitions.

ghost use Rattle.ls_machine.specs.Back.{RunsKeep};

/// A run keeps its machine's code and number of cells. So a machine that is set back after a run is as it was loaded.
pub fn runs_keep()
    ensures { RunsKeep }
{}
