// What an observer of a specification as an automaton has.

ghost use Rattle.ls_source_judge.specs.Stepped.{AreSteps};

use crate::tabling::Table;
use ls_automaton::outcome::Outcome;

/// An observer of a specification as an automaton. It notes which pairs are left of a state and of what pending calls
/// have done. A history is bad if none is left. What is left after many an event stands in a table from the start.
#[derive(Drop)]
pub struct PairsObserver {
    pub(crate) rows: Vec<Vec<Outcome>>,
    pub(crate) table: Table,
    ghost right: { AreSteps rows.items table.known.items table.steps.items },
}
