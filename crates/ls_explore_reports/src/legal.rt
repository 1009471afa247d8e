// The laws, each as the contract of a function that computes nothing.

ghost use Rattle.ls_explore_reports.specs.Verdicts.{EachIsLegal, EachThatFitsIsLegal};

/// If an exploration is complete and each of its rows has a legal order, then the history of each schedule of the
/// program that fits the cells, of any length, has one. If no schedule runs out of cells, the history of every
/// schedule has one.
///
/// A history is read with the names that the program gives its calls, as it is printed.
pub fn every_schedule_is_legal()
    ensures fitting { EachThatFitsIsLegal }
    ensures whole { EachIsLegal }
{}
