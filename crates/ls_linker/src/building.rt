// From a source to the whole code.

ghost use Rattle.std.specs.Prelude.{◌≡◌, IfOk, IfErr, OnOk};
ghost use Rattle.ls_types_checked.specs.Sources.{source_file, source_program};
ghost use Rattle.ls_linker.specs.Compiled.{code_of};
ghost use Rattle.ls_linker.specs.Limits.{KeepsLimits, GoesPast};
ghost use Rattle.ls_linker.specs.Runs.{Runs};

use crate::compiled::compiled_runs;
use crate::fault::BuildFault;
use crate::files::measure;
use crate::in_range::{fits_lowered, ranged_is_emittable, ranged_links, typed_is_placed};
use crate::lengths::sizes;
use crate::link_units::link;
use ls_code::code::Code;
use ls_emit::emit;
use ls_finally::files::lower_finally;
use ls_refs::laws::has_slots;
use ls_refs::lower::lower_refs;
use ls_types_checked::laws::source_is_well_typed;
use ls_types_checked::source::Source;
use std::alloc::Global;

/// The whole code of a checked file and its thread program. It runs as the file and the program do: it has the same
/// histories, both ways, and no thread is silent for too long.
///
/// It is refused with 30 to 33, by the first limit that isn't kept, or if memory runs out. If there are too many
/// copies of finally blocks, or if the code would be too long with them, no copy is made.
pub fn build(alloc: Global, source: &Source) -> Result<Code, BuildFault>
    ensures code { IfOk result (λ code. code ≡ code_of (source_file source.now) (source_program source.now)) }
    ensures runs { IfOk result (Runs (source_file source.now) (source_program source.now)) }
    ensures within { OnOk result (KeepsLimits (source_file source.now) (source_program source.now)) }
    ensures refused { IfErr result (GoesPast (source_file source.now) (source_program source.now)) }
{
    source_is_well_typed(source);
    compiled_runs();
    has_slots();
    sizes();
    typed_is_placed();
    fits_lowered();
    ranged_is_emittable();
    ranged_links();
    let file = source.file();
    let program = source.program();
    let refs = lower_refs(alloc, file)?;
    measure(alloc, &refs)?;
    let flat = lower_finally(alloc, refs)?;
    let units = emit(alloc, &flat)?;
    let code = link(alloc, &units, file, program)?;
    Ok(code)
}
