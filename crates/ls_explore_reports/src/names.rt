// The names of an image's classes and program.

ghost use Rattle.std.specs.Prelude.{◌≡◌};
ghost use Rattle.ls_explore_reports.specs.ImageNames.{names_in};
ghost use Rattle.ls_image.specs.Images.{program_of_image};
ghost use Rattle.ls_labels.specs.Names.{names_of};

use ls_image::image::Image;
use ls_labels::names::Names;

/// The names of an image's classes and of what they declare, its file and its program.
pub fn names_in(image: &Image) -> Names<'_>
    ensures names { names_of result ≡ names_in image.now }
    ensures program { result.program.now ≡ program_of_image image.now }
{
    let checked = image.checked();
    Names {
        classes: checked.class_names(),
        signs: checked.class_signs(),
        file: checked.file(),
        program: image.program(),
    }
}
