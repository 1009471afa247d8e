// The laws, each as the contract of a function that computes nothing.

ghost use Rattle.ls_legal_laws.specs.Laws.{ExplainedIsLegal, LinearizableIsLegal};

/// What a serial history with a legal order explains has a legal order.
pub fn explained_is_legal()
    ensures { ExplainedIsLegal }
{}

/// Where each serial history of a program has a legal order, so has each that is linearizable.
pub fn linearizable_is_legal()
    ensures { LinearizableIsLegal }
{}
