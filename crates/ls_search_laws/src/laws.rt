// The laws, each as the contract of a function that computes nothing.

ghost use Rattle.ls_checked.specs.CheckedTree.{File};
ghost use Rattle.ls_checked.specs.CheckedProgram.{Program};
ghost use Rattle.ls_search_laws.specs.Stepping.{OthersStay, RunsByStep};
ghost use Rattle.ls_search_laws.specs.Renaming.{EffectRenames};
ghost use Rattle.ls_search_laws.specs.Noticing.{StepsStride, StridesRename, TellsTruth};
ghost use Rattle.ls_search_laws.specs.AtOnce.{Choice};
ghost use Rattle.ls_search_laws.specs.Search.{FindsAll, FindsEnds, FindsNoneBad};
ghost use Rattle.ls_search_laws.specs.Cells.{AllCellsAreFair, TurnsAreFair};
ghost use Rattle.ls_search_laws.specs.Histories.{HistoriesAreAlike};

use crate::observing::Observe;

/// One step more leaves the state after a step, and adds its events.
pub fn runs_by_step()
    ensures { RunsByStep }
{}

/// A step that doesn't act changes nothing, and threads that aren't there don't act.
pub fn others_stay()
    ensures { OthersStay }
{}

/// What threads lead to is what a schedule leads to.
pub fn tells_truth<O: Observe>()
    ensures { (o : O) → (file : File) (program : Program) → TellsTruth (O.first o) (O.next o) file program }
{}

/// What an action does to the store commutes with each one-to-one renaming of references that keeps null.
pub fn effect_renames()
    ensures { EffectRenames }
{}

/// A step of a state is one of its configuration: what answers a thread has had counts only for how it goes on.
pub fn steps_stride()
    ensures { StepsStride }
{}

/// A configuration with other names does the same, with other names.
pub fn strides_rename()
    ensures { StridesRename }
{}

/// The whole search: a list of configurations up to names of objects, each with what was noted, that is closed after
/// steps that are taken at once. Each schedule, of any length, is found in it.
pub fn finds_all<O: Observe>()
    ensures { (o : O) → (quiet : Choice) (file : File) (program : Program) →
        FindsAll (O.first o) (O.next o) quiet (O.Names o) (O.Alike o) file program }
{}

/// Where none of such a list is bad, no schedule has a bad history.
pub fn finds_none_bad<O: Observe>()
    ensures { (o : O) → (quiet : Choice) (file : File) (program : Program) →
        FindsNoneBad (O.first o) (O.next o) quiet (O.Names o) (O.Alike o) file program (O.bad o) }
{}

/// A schedule after which no thread acts is found in such a list as one in which no thread acts.
pub fn finds_ends<O: Observe>()
    ensures { (o : O) → (quiet : Choice) (file : File) (program : Program) →
        FindsEnds (O.first o) (O.next o) quiet (O.Names o) (O.Alike o) file program }
{}

/// Where no objects are renamed, a thread's reads of fields that no step of another thread in the list writes may be
/// taken at once, beside turns and enterings.
pub fn cells_fair()
    ensures { AllCellsAreFair }
{}

/// Turns and enterings may be taken at once, with whatever renamings, and nothing need be asked of the list.
pub fn turns_fair()
    ensures { TurnsAreFair }
{}

/// Whole histories may be noted: as they are where no objects are renamed, else but for which objects calls answered.
pub fn histories_alike()
    ensures { HistoriesAreAlike }
{}
