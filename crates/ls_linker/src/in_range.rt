// Laws of what is in range in the lowered trees of a typed file. By them each tree can be lowered further, and has
// code.

ghost use Rattle.ls_checked.specs.CheckedProgram.{Program};
ghost use Rattle.ls_checked.specs.CheckedTree.{File};
ghost use Rattle.ls_refs.specs.Lowered.{lowered_file};
ghost use Rattle.ls_refs.specs.Refused.{AllFit, AllSlotted};
ghost use Rattle.ls_finally.specs.Placed.{AllPlaced};
ghost use Rattle.ls_finally.specs.Counts.{FewLocals};
ghost use Rattle.ls_finally.specs.Flat.{flat_file};
ghost use Rattle.ls_emit.specs.Emittable.{IsEmittableFile};
ghost use Rattle.ls_emit.specs.Units.{units_of};
ghost use Rattle.ls_emit.specs.Short.{AllShort};
ghost use Rattle.ls_types_judgement.specs.WellTyped.{IsWellTyped, IsWellTypedProgram};
ghost use Rattle.ls_linker.specs.Links.{Links};

/// In the tree over words of a well typed file each local exists, and each call has as many arguments as its method.
/// Nothing is guarded yet. So `finally` can be lowered in that tree.
pub fn typed_is_placed()
    ensures { (file : File) → ∥ IsWellTyped file ∥₁ → AllPlaced (lowered_file file) (lowered_file file) }
{}

/// If no method of a file has too many locals, no lowered method of it has.
#[tactic(auto, using(crate::proofs::Locals::few_locals))]
pub fn fits_lowered()
    ensures { (file : File) → AllSlotted file.methods → AllFit file.methods → FewLocals (lowered_file file) }
{}

/// If no method of a well typed file has too many locals, its tree without `try` has code.
pub fn ranged_is_emittable()
    ensures { (file : File) → ∥ IsWellTyped file ∥₁ → AllFit file.methods →
        IsEmittableFile (flat_file (lowered_file file)) }
{}

/// If no unit of a well typed file is too long, its units can be linked with threads of a well typed program. Each
/// place, number and value is an operand.
pub fn ranged_links()
    ensures { (file : File) (program : Program) → ∥ IsWellTyped file ∥₁ → ∥ IsWellTypedProgram file program ∥₁ →
        AllFit file.methods → AllShort (flat_file (lowered_file file)) →
        Links file program (units_of (flat_file (lowered_file file))) }
{}
