// The laws: the functions compute nothing, and their contracts say the laws.

ghost use Rattle.ls_checked.specs.CheckedTree.{File};
ghost use Rattle.ls_checked.specs.CheckedProgram.{Program};
ghost use Rattle.ls_lowered.specs.LoweredTree as low;
ghost use Rattle.ls_emit.specs.Emittable.{IsEmittableFile};
ghost use Rattle.ls_emit.specs.Units.{units_of};
ghost use Rattle.ls_preservation.specs.Example;
ghost use Rattle.ls_linker.specs.Linked.{linked};
ghost use Rattle.ls_linker.specs.Quick.{FramesAreQuick};
ghost use Rattle.ls_linker.specs.Own.{ThreadsAreQuick};
ghost use Rattle.ls_linker.specs.Idling.{idles};

/// In one frame of a unit a thread makes fewer silent steps in a row than the unit has instructions. A throw that the
/// frame catches leads to a later place of the unit.
pub fn frames_are_quick()
    ensures { (file : low.File) → IsEmittableFile file → FramesAreQuick file }
{}

/// In its own code, outside of the methods that it calls, a thread makes few silent steps in a row. They are at most
/// three more than the most values that a call passes.
#[tactic(auto, using(crate::proofs::OwnRuns::threads_quick))]
pub fn threads_are_quick()
    ensures { (file : File) (program : Program) (lowered : low.File) → ThreadsAreQuick file program
        (linked file program (units_of lowered)) }
{}

/// So an image is refused if its setup makes 30 jumps before its first call.
#[tactic(auto, using(crate::proofs::Idles::idles_not))]
pub fn idling_is_refused()
    ensures { ThreadsAreQuick Example.file Example.program idles → ⊥ }
{}
