// What each checked file and each source keeps. The functions compute nothing; their contracts say it.

ghost use Rattle.ls_types_judgement.specs.WellTyped.{IsWellTyped, IsWellTypedProgram};
ghost use Rattle.ls_types_checked.specs.CheckedFile.{elaborated_file};
ghost use Rattle.ls_types_checked.specs.Sources.{source_file, source_program};

use crate::checked::Checked;
use crate::source::Source;
use ls_types_laws::elaborates_well_typed;

/// A checked file is well typed.
pub fn well_typed(checked: &Checked)
    ensures { ∥ IsWellTyped (elaborated_file checked.now).file ∥₁ }
{
    elaborates_well_typed();
}

/// The file of a source is well typed, and its program is a well typed program of that file.
pub fn source_is_well_typed(source: &Source)
    ensures file { ∥ IsWellTyped (source_file source.now) ∥₁ }
    ensures program { ∥ IsWellTypedProgram (source_file source.now) (source_program source.now) ∥₁ }
{
    well_typed(source.checked());
}
