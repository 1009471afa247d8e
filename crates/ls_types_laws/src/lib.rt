//! Laws of typing: what is elaborated, and what is read for it, is well typed.
#![tactic(auto)]

pub mod fitting;

ghost use Rattle.std.specs.Prelude.{◌≡◌, Ok, Some};
ghost use Rattle.ls_checked.specs.CheckedProgram.{Program};
ghost use Rattle.ls_types_elaboration.specs.Trees.{File, Text};
ghost use Rattle.ls_types_elaboration.specs.Elaboration.{ElaboratedFile, elaborated};
ghost use Rattle.ls_types_programs.specs.ThreadPrograms.{program_of};
ghost use Rattle.ls_types_judgement.specs.WellTyped.{IsWellTyped, IsWellTypedProgram};

/// The elaboration of a class text's tree is well typed. So the lowerings take each checked file.
pub fn elaborates_well_typed()
    ensures { (f : File) (o : ElaboratedFile) → elaborated f ≡ Ok o → IsWellTyped o.file }
{}

/// If a thread program is read for a checked file, it is a well typed program of that file.
pub fn reads_well_typed()
    ensures { (f : File) (o : ElaboratedFile) (text : Text) (p : Program) → elaborated f ≡ Ok o →
        program_of o text ≡ Some p →
        IsWellTypedProgram o.file p }
{}
