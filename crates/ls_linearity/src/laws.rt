// The law of tables, as the contract of a function that computes nothing.

ghost use Rattle.ls_linearity.specs.Laws.{TablesDecide};

/// By the table of a specification a pair is left after a history exactly if the history is linearizable, unless a call
/// goes on.
pub fn tables_decide()
    ensures { TablesDecide }
{}
