// Why the rules of normal completion agree with the meaning.

ghost use Rattle.ls_types_judgement.specs.CompletionLaws.{OnlyAsAllowed, OnlyToItsLoops, NoMoreThanWays};

/// However a statement's execution ends, the rules of typing allow it.
#[tactic(auto, using(crate::proofs::Allowed::only_as_allowed))]
pub fn only_as_allowed()
    ensures { OnlyAsAllowed }
{}

/// If a jump leaves a statement, its loop is around the statement.
#[tactic(auto, using(crate::proofs::Inside::only_to_its_loops))]
pub fn only_to_its_loops()
    ensures { OnlyToItsLoops }
{}

/// The rules of typing allow no more than what follows from the ways in which statements complete.
pub fn no_more_than_ways()
    ensures { NoMoreThanWays }
{}
