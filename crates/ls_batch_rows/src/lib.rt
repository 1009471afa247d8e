//! Threads of single steps, worked out by hand, and samples of seeds, made by a generator that was written apart: the
//! definitions of ls_batch compute them. They stand above ls_batch, so that a new one is no change of that crate.
#![tactic(auto)]

ghost use Rattle.ls_batch_rows.specs.Samples.{AtTheEnds, EachDrawn, FewDrawn, NothingDrawn, OneThread};
ghost use Rattle.ls_batch_rows.specs.Threads.{DrawnByChance, DrawnFirst, GoesOn};

/// The thread of a step.
pub fn threads()
    ensures drawn_first { DrawnFirst }
    ensures drawn_by_chance { DrawnByChance }
    ensures goes_on { GoesOn }
{}

/// Samples of seeds.
pub fn samples()
    ensures each_drawn { EachDrawn }
    ensures few_drawn { FewDrawn }
    ensures at_the_ends { AtTheEnds }
    ensures one_thread { OneThread }
    ensures nothing_drawn { NothingDrawn }
{}
