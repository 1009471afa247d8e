// The law of the automaton, as the contract of a function that computes nothing.

ghost use Rattle.ls_automaton.specs.Programs.{HeldIfLinearizable};

/// An observer of a program as an automaton is left with a pair exactly if the history is linearizable.
pub fn held_if_linearizable()
    ensures { HeldIfLinearizable }
{}
