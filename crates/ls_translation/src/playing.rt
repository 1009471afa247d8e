// What a schedule of source steps shows.

ghost use Rattle.std.specs.Prelude.{◌≡◌, IfOk};
ghost use Rattle.ls_meaning.specs.Runs.{source_history};
ghost use Rattle.ls_translation.specs.Texts.{file_of, program_of};

use ls_events::event::Event;
use ls_events::schedule::Schedule;
use ls_image::image::Image;
use ls_source::run::play;
use std::alloc::{AllocError, Global};

/// The history of a schedule of source steps, of the file and the program of an image: its calls, returns and traps.
pub fn play_source(
    alloc: Global,
    image: &Image,
    schedule: &Schedule,
) -> Result<Vec<Event>, AllocError>
    ensures { IfOk result (λ events. events.items ≡
        source_history (file_of image.now) (program_of image.now) schedule.now) }
{
    play(
        alloc,
        image.checked().file(),
        image.program(),
        schedule.steps(),
    )
}
