// The check of a class text's tree.

ghost use Rattle.std.specs.Prelude.{◌≡◌, IfOk, IfErr};
ghost use Rattle.ls_types_elaboration.specs.Refused.{Fails};
ghost use Rattle.ls_types_elaboration.specs.Elaboration.{elaborated};
ghost use Rattle.ls_types_elaboration.specs.PlacedStatements.{placed_file};
ghost use Rattle.ls_types_judgement.specs.WellTyped.{IsWellTyped};
ghost use Rattle.ls_types_checked.specs.CheckedFile.{elaborated_file};

use crate::elaboration::elaborate;
use ls_tree::tree::ClassFile;
use ls_types_checked::checked::Checked;
use ls_types_elaboration::rule::CheckFault;
use ls_types_laws::elaborates_well_typed;
use std::alloc::Global;

/// Checks a class text's tree. The answer is the checked file, which is well typed, or the broken rule and its place.
/// Else the only refusal is that memory ran out.
pub fn check(alloc: Global, parsed: ClassFile) -> Result<Checked, CheckFault>
    ensures checked { IfOk result (λ c. elaborated (placed_file parsed) ≡ Ok (elaborated_file c)) }
    ensures typed { IfOk result (λ c. IsWellTyped (elaborated_file c).file) }
    ensures refused { IfErr result (λ e. Fails e (elaborated (placed_file parsed))) }
{
    elaborates_well_typed();
    let outcome = elaborate(alloc, &parsed)?;
    Ok(Checked::new(outcome))
}
