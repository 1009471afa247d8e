// The rows of all schedules of an image.

ghost use Rattle.std.specs.Prelude.{IfErr, IfOk};
ghost use Rattle.ls_explore.specs.Watching.{GoesOn};
ghost use Rattle.ls_explore_commands.specs.Finding.{IsFound, IsRefused};

use ls_explore::{ExploreFault, ImageExploration, Watch, explore_image, explore_source};
use ls_explore_reports::Exploring;
use ls_image::image::Image;
use std::alloc::Global;

/// The rows of all schedules of the image's program: on a machine, if a number of cells is asked for, or else by the
/// states of the source.
pub(crate) fn find_rows<W: Watch>(
    alloc: Global,
    image: &Image,
    exploring: Exploring,
    watch: &mut W,
) -> Result<ImageExploration, ExploreFault>
    ensures found { IfOk result (IsFound image.now exploring.cells exploring.states) }
    ensures refused { IfErr result (IsRefused image.now exploring.cells exploring.states) }
    ensures watched { GoesOn W.Since watch.old watch.new }
{
    match exploring.cells {
        None => explore_source(alloc, image, exploring.states, watch),
        Some(cells) => explore_image(alloc, image, cells, exploring.states, watch),
    }
}
