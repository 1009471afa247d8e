// The law of the whole way: the function computes nothing, and its contract says the law.

ghost use Rattle.ls_code.specs.Limits.{most_instructions};
ghost use Rattle.std.specs.Prelude.{◌≤◌, length};
ghost use Rattle.ls_checked.specs.CheckedTree.{File};
ghost use Rattle.ls_checked.specs.CheckedProgram.{Program};
ghost use Rattle.ls_types_judgement.specs.WellTyped.{IsWellTyped, IsWellTypedProgram};
ghost use Rattle.ls_refs.specs.Lowered.{lowered_file};
ghost use Rattle.ls_finally.specs.Placed.{AllPlaced};
ghost use Rattle.ls_emit.specs.Emittable.{IsEmittableFile};
ghost use Rattle.ls_linker.specs.Compiled.{flat_of, code_of};
ghost use Rattle.ls_linker.specs.Runs.{Runs};

use crate::laws::{linked_asks, linked_exchanges};
use crate::lengths::sizes;
use crate::quickness::{frames_are_quick, threads_are_quick};
use ls_emit::laws::units_ask;
use ls_finally::laws::keeps_courses;
use ls_preservation::ends::{acts_in_time, ends_in_time};
use ls_preservation::laws::{asks_by_words, same_traces};
use ls_soundness::laws::{is_sound, suited_in_call};

/// The code of a well typed file and a well typed program of it runs as these do, if the code isn't too long.
pub fn compiled_runs()
    ensures { (file : File) (program : Program) → ∥ IsWellTyped file ∥₁ → ∥ IsWellTypedProgram file program ∥₁ →
        AllPlaced (lowered_file file) (lowered_file file) → IsEmittableFile (flat_of file) →
        length (code_of file program).instructions ≤ most_instructions → Runs file program (code_of file program) }
{
    suited_in_call();
    keeps_courses();
    units_ask();
    linked_asks();
    is_sound();
    same_traces();
    linked_exchanges();
    asks_by_words();
    acts_in_time();
    ends_in_time();
    frames_are_quick();
    threads_are_quick();
    sizes();
}
