// The law of targets: a target takes the fewest steps of its thread after which it is met.

ghost use Rattle.ls_aim.specs.Met.{TargetsAreMet};

/// The steps that a target takes are so many of its thread, at most as many as there is room for. After them the target
/// is met, and after fewer it is not: the thread has ended or its step would wait, or its next step has the text, as so
/// many before.
#[tactic(auto, using(crate::proofs::MetLemmas::targets_are_met))]
pub fn targets_are_met()
    ensures { TargetsAreMet }
{}
