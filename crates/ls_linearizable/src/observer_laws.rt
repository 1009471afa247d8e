// The laws, each as the contract of a function that computes nothing.

ghost use Rattle.ls_linearizable.specs.Judging.{LaterStaysBad};
ghost use Rattle.ls_linearizable.specs.Same.{IsTest, same_event};

/// Take as what is noted of a history how each history is judged that goes on from it. What is bad stays bad.
pub fn later_stays_bad()
    ensures { LaterStaysBad }
{}

/// The test of events says whether they are the same.
pub fn events_are_tested()
    ensures { IsTest same_event }
{}
