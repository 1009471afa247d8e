// What the observer's verdicts say, each as the contract of a function that computes nothing.

ghost use Rattle.ls_source_judge.specs.Laws.{BadStaysBad};

/// What is bad stays bad, whatever happens.
pub fn bad_stays_bad()
    ensures { BadStaysBad }
{}
