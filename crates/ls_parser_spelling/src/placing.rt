// Which file with places a text is, and laws of the places of expressions.

ghost use Rattle.ls_parser_spelling.specs.Laws.{SpansAreWhole, PlacesForgotten, OnePlacing};

/// A span goes from the start of the first token of its expression to the end of its last token.
#[tactic(auto, using(crate::proofs::Wholes::spans_are_whole))]
pub fn spans_are_whole()
    ensures { SpansAreWhole }
{}

/// If the places are left out, the tokens are those that spell the expression.
#[tactic(auto, using(crate::proofs::Forgets::places_forgotten))]
pub fn places_forgotten()
    ensures { PlacesForgotten }
{}

/// Tokens give an expression at most one way to have places.
#[tactic(auto, using(crate::proofs::Puts::one_placing))]
pub fn one_placing()
    ensures { OnePlacing }
{}
