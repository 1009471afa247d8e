// The laws, each as the contract of a function that computes nothing.

ghost use Rattle.ls_coarse_set.specs.Example.{ExampleIsLegal};
ghost use Rattle.ls_coarse_set.specs.Laws.{CheckedListIsASet};

/// The list with one lock is a set: the history of each schedule of any length has a legal order, with as many threads
/// and set calls as one likes, where the items are below the greatest int.
pub fn checked_list_is_a_set()
    ensures { CheckedListIsASet }
{}

/// The law isn't empty: a program with two threads, under schedules of any length.
pub fn two_threads()
    ensures { ExampleIsLegal }
{}
