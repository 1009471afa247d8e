// The run of the setup.

ghost use Rattle.std.specs.Prelude.{IfOk, replicate};
ghost use Rattle.ls_checked.specs.Plain.{plain_file};
ghost use Rattle.ls_checked.specs.PlainProgram.{plain_program};
ghost use Rattle.ls_search_laws.specs.Stepping.{SetsUp};
ghost use Rattle.ls_source.specs.Stands.{StandsFor};
ghost use Rattle.ls_search.specs.Runs.{progress_at};

use ls_checked::program::Program;
use ls_checked::tree::File;
use ls_meaning::step::has_acted;
use ls_source::playing::Playing;
use std::alloc::{AllocError, Global};

/// A run after so many steps of the setup, each of which acted.
#[derive(Drop)]
pub(crate) struct SetUp<'a> {
    pub(crate) playing: Playing<'a>,
    pub(crate) steps: usize,
}

/// Runs the setup as long as it acts, at most so many steps. The only refusal is that memory ran out.
pub(crate) fn set_up<'a>(
    alloc: Global,
    file: &'a File,
    program: &'a Program,
    most: usize,
) -> Result<SetUp<'a>, AllocError>
    ensures stands { IfOk result (λ s. StandsFor s.playing
        (progress_at (plain_file file.now) (plain_program program.now) (replicate s.steps 0))) }
    ensures acts { IfOk result (λ s. SetsUp (plain_file file.now) (plain_program program.now) s.steps) }
{
    let mut playing = Playing::new(alloc, file, program)?;
    for steps in 0..most {
        let did = playing.step(alloc, 0)?;
        if !has_acted(did) {
            return Ok(SetUp { playing, steps });
        }
    }
    Ok(SetUp {
        playing,
        steps: most,
    })
}
