// The line on the event that no order of whole calls explains.

ghost use Rattle.std.specs.Prelude.{IfOk, string_bytes};
ghost use Rattle.ls_find.specs.Found.{IsNote};
ghost use Rattle.ls_find.specs.Sought.{AllNamed};
ghost use Rattle.ls_find.specs.Verdicts.{IsBad};
ghost use Rattle.ls_specification.specs.Specification.{given_of};
ghost use Rattle.ls_translation.specs.Texts.{file_of, program_of};

use crate::specified::specification_of;
use crate::verdict::Reason;
use ls_events::schedule::Schedule;
use ls_hopeless::hopeless_line;
use ls_image::image::Image;
use ls_specification::Specification;
use std::alloc::{AllocError, Global};

/// The line on the event that no order of whole calls explains, where a schedule of the program of an image is shown
/// for its history. Empty for another reason. The only refusal is that memory ran out.
pub(crate) fn note_on(
    alloc: Global,
    given: Option<Specification<'_>>,
    image: &Image,
    reason: Reason,
    schedule: &Schedule,
) -> Result<String, AllocError>
    requires { AllNamed (file_of image.now) (program_of image.now) }
    ensures { IfOk result (λ note.
        IsBad reason (given_of given.entry) (file_of image.now) (program_of image.now) schedule.now →
        IsNote reason (given_of given.entry) (file_of image.now) (program_of image.now) schedule.now
        (string_bytes note)) }
{
    match reason {
        Reason::NotLinearizable => {
            let specification = specification_of(given, image);
            hopeless_line(alloc, specification, image, schedule)
        }
        Reason::Waits | Reason::Illegal | Reason::Turns => Ok(String::new(alloc)),
    }
}
