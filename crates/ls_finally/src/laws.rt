// Laws of the lowering: the functions compute nothing, and their contracts say the laws.

ghost use Rattle.ls_finally.specs.Laws.{KeepsCourses};

/// If a thread enters a method of the tree without `try`, it asks for the same as with `try`, and ends in the same
/// way. This holds for every list of answers and at every depth of calls.
#[tactic(auto, using(crate::proofs::Methods::keeps))]
pub fn keeps_courses()
    ensures { KeepsCourses }
{}
