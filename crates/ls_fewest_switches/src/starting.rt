// The numbers with which a search begins.

ghost use Rattle.std.specs.Prelude.{◌≡◌, IfOk, length};
ghost use Rattle.ls_checked.specs.Plain.{plain_file};
ghost use Rattle.ls_checked.specs.PlainProgram.{plain_program};
ghost use Rattle.ls_meaning.specs.Runs.{start};
ghost use Rattle.ls_search_laws.specs.Configuration.{configuration_of};
ghost use Rattle.ls_search.specs.Places.{AreThere, configuration_at};
ghost use Rattle.ls_transitions.specs.Seen.{table_of};

use ls_checked::program::Program;
use ls_checked::tree::File;
use ls_search::numbering::{Numbered, number};
use ls_source::playing::Playing;
use std::alloc::{AllocError, Global};

/// The numbers of the store and of the threads' works before the first step.
pub(crate) fn numbered_start<'a>(
    alloc: Global,
    file: &'a File,
    program: &'a Program,
) -> Result<Numbered<'a>, AllocError>
    ensures there { IfOk result (λ n. AreThere (table_of n.transitions) n.store n.works.items) }
    ensures width { IfOk result (λ n. length n.works.items ≡ length program.now.threads.items) }
    ensures file { IfOk result (λ n. (table_of n.transitions).file ≡ plain_file file.now) }
    ensures start { IfOk result (λ n. configuration_at (table_of n.transitions) n.store n.works.items ≡
        configuration_of (plain_file file.now) (plain_program program.now) (start (plain_program program.now))) }
{
    let playing = Playing::new(alloc, file, program)?;
    let numbered = number(alloc, &playing)?;
    Ok(numbered)
}
