// What is shown of small states.

ghost use Rattle.ls_view_rows.specs.States.{AtFirst, BeforeACall, Each, EachAtTheEnd, EachGraph, Graph, Left};
ghost use Rattle.ls_view_rows.specs.States.{NeverStarts, Over, Reading, SetupNames, Things, Waiting};

/// Each kind of thing.
pub fn things()
    ensures things { Things }
    ensures names { SetupNames }
    ensures graph { Graph }
{}

/// What threads ask for, and what a run leaves.
pub fn threads()
    ensures at_first { AtFirst }
    ensures waiting { Waiting }
    ensures reading { Reading }
    ensures over { Over }
    ensures never_starts { NeverStarts }
    ensures before_a_call { BeforeACall }
    ensures left { Left }
{}

/// States after many steps.
pub fn each()
    ensures range { Each }
    ensures end { EachAtTheEnd }
    ensures graph { EachGraph }
{}
