// The line on the first event with which a history ceases to be linearizable.

ghost use Rattle.std.specs.Prelude.{IfOk, string_bytes};
ghost use Rattle.ls_checked.specs.PlainProgram.{plain_program};
ghost use Rattle.ls_hopeless.specs.Hopeless.{IsHopelessLine};
ghost use Rattle.ls_linearizable.specs.Linearizable.{IsLinearizable};
ghost use Rattle.ls_linearizable.specs.Once.{AreOnce};
ghost use Rattle.ls_meaning.specs.Runs.{source_history};
ghost use Rattle.ls_specification.specs.Specification.{spec_file, spec_program};
ghost use Rattle.ls_text_laws.specs.Histories.{IsReadable};
ghost use Rattle.ls_translation.specs.Texts.{file_of, program_of};

use crate::finding::hopeless_at;
use crate::words::line_of;
use ls_checked::program::Program;
use ls_events::event::Event;
use ls_events::schedule::Schedule;
use ls_image::image::Image;
use ls_serial_orders::once_laws::readable_is_once;
use ls_source::run::play;
use ls_specification::Specification;
use std::alloc::{AllocError, Global};

/// The line on the first event with which a history of a program ceases to be linearizable to a specification. Empty if
/// that isn't known.
fn line_on(
    alloc: Global,
    specification: Specification<'_>,
    program: &Program,
    history: &[Event],
) -> Result<String, AllocError>
    ensures { IfOk result (λ text. AreOnce history.now →
        ¬ IsLinearizable (spec_file specification.entry) (spec_program specification.entry) history.now →
        IsHopelessLine (spec_file specification.entry) (spec_program specification.entry) (plain_program program.now)
        history.now (string_bytes text)) }
{
    match hopeless_at(alloc, specification, history)? {
        Some(at) => line_of(alloc, program, &history[..at], history[at]),
        None => Ok(String::new(alloc)),
    }
}

/// The line on the first event with which the history of a schedule of the program of an image ceases to be
/// linearizable to a specification, if it isn't linearizable. Empty if it isn't known of some of the first events of
/// the history whether they are linearizable. The only refusal is that memory ran out.
pub fn hopeless_line(
    alloc: Global,
    specification: Specification<'_>,
    image: &Image,
    schedule: &Schedule,
) -> Result<String, AllocError>
    requires { IsReadable (program_of image.now)
        (source_history (file_of image.now) (program_of image.now) schedule.now) }
    ensures { IfOk result (λ text. ¬ IsLinearizable (spec_file specification.entry) (spec_program specification.entry)
        (source_history (file_of image.now) (program_of image.now) schedule.now) →
        IsHopelessLine (spec_file specification.entry) (spec_program specification.entry) (program_of image.now)
        (source_history (file_of image.now) (program_of image.now) schedule.now) (string_bytes text)) }
{
    readable_is_once();
    let file = image.checked().file();
    let program = image.program();
    let history = play(alloc, file, program, schedule.steps())?;
    line_on(alloc, specification, program, history.as_slice())
}
