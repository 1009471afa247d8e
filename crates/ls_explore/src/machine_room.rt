// Room in the cells of a machine of an image.

ghost use Rattle.ls_explore.specs.Room.{StaysWithin, StopsForRoom};
ghost use Rattle.ls_image.specs.Images.{code_of_image};
ghost use Rattle.ls_translation.specs.Texts.{file_of, program_of};

use crate::room::{stays_within, stops_for_room};
use ls_image::image::Image;
use ls_soundness::laws::is_sound;
use ls_types_checked::laws::well_typed;

/// What each schedule of a machine of an image makes fits its cells. It stops only where its source acts next, and
/// there is no room for what that makes. The function computes nothing.
pub(crate) fn has_room(image: &Image)
    ensures within { StaysWithin (file_of image.now) (program_of image.now) (code_of_image image.now) }
    ensures stops { StopsForRoom (file_of image.now) (program_of image.now) (code_of_image image.now) }
{
    well_typed(image.checked());
    is_sound();
    stays_within();
    stops_for_room();
}
