// What rows and the last line tell, as the contracts of functions that compute nothing.

ghost use Rattle.ls_explore_reports.specs.Laws.{AllWaitForOthers, EachIsLike, LinearityIsMeant, NoneIllegal};
ghost use Rattle.ls_explore_reports.specs.Laws.{NoneIllegalThatFits};
ghost use Rattle.ls_explore_reports.specs.Laws.{NoneIsNotLinearizable, NoneIsNotLinearizableThatFits, NoneIsUnlike};
ghost use Rattle.ls_explore_reports.specs.Laws.{NoneIsUnlikeThatFits};

use crate::decided::{every_schedule_is_linearizable, rows_decide};
use crate::legal::every_schedule_is_legal;

/// If the last line says `illegal 0` and that the rows are complete, the history of each schedule of the program that
/// fits the cells has a legal order. If it says `complete` alone, this is so of every schedule.
pub fn none_is_illegal()
    ensures fitting { NoneIllegalThatFits }
    ensures whole { NoneIllegal }
{
    every_schedule_is_legal();
}

/// If the last line says `not linearizable 0` and that the rows are complete, the history of each schedule of the
/// program that fits the cells is linearizable. If it says `complete` alone, this is so of every schedule.
pub fn none_is_not_linearizable()
    ensures fitting { NoneIsNotLinearizableThatFits }
    ensures whole { NoneIsNotLinearizable }
{
    rows_decide();
    every_schedule_is_linearizable();
}

/// A row that is said to be linearizable is so, and one that is said not to be linearizable isn't.
pub fn linearity_is_meant()
    ensures { LinearityIsMeant }
{
    rows_decide();
}

/// If no thread acts any more, each thread that a row says to wait does so for what another thread owns.
pub fn each_waits_for_another()
    ensures { AllWaitForOthers }
{}

/// If the history of each row of a complete exploration is linearizable to a specification, so is that of each schedule
/// of the program. That is so if the rows are judged by it, and the last line says `not linearizable 0`. If it says
/// `complete in these cells`, this is so of each schedule that fits the cells.
pub fn none_is_unlike()
    ensures rows { EachIsLike }
    ensures fitting { NoneIsUnlikeThatFits }
    ensures judged { NoneIsUnlike }
{}
