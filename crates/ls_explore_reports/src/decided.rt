// The laws, each as the contract of a function that computes nothing.

ghost use Rattle.ls_explore_reports.specs.Linearizable.{EachIsLinearizable, EachThatFitsIsLinearizable};
ghost use Rattle.ls_explore_reports.specs.Linearizable.{ExplainedIsLinearizable, FittingIsExplained};
ghost use Rattle.ls_explore_reports.specs.Linearizable.{LinearizableIsExplained, NoneUnexplained};
ghost use Rattle.ls_explore_reports.specs.Linearizable.{NoneUnexplainedThatFits, UnexplainedIsNot};

/// If a row of an exploration, complete or cut, begins with a serial history that explains a history, then that history
/// is linearizable.
///
/// If the rows are complete and roomy, no other history is. If they are complete, no serial history of a schedule that
/// fits the cells explains another.
pub fn rows_decide()
    ensures explained { ExplainedIsLinearizable }
    ensures whole { LinearizableIsExplained }
    ensures fitting { FittingIsExplained }
{}

/// If an exploration is complete and each of its rows is linearizable, then so is the history of each schedule of the
/// program that fits the cells, of any length. If no schedule runs out of cells, that of every schedule is.
pub fn every_schedule_is_linearizable()
    ensures fitting { EachThatFitsIsLinearizable }
    ensures whole { EachIsLinearizable }
{}

/// If the rows of an exploration are complete and a serial run explains each of them, then the history of each schedule
/// of the program that fits the cells is linearizable. If no schedule runs out of cells, that of every schedule is, and
/// a row that no serial run explains is not linearizable.
pub fn none_is_unexplained()
    ensures fitting { NoneUnexplainedThatFits }
    ensures whole { NoneUnexplained }
    ensures unexplained { UnexplainedIsNot }
{}
