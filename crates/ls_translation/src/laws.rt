// Laws of the translations, as the contracts of functions that compute nothing.

ghost use Rattle.ls_image.specs.Images.{code_of_image};
ghost use Rattle.ls_preservation.specs.Same.{IsCells};
ghost use Rattle.ls_translation.specs.RoundTrips.{TranslatesBack};
ghost use Rattle.ls_translation.specs.Texts.{file_of, program_of};

use ls_image::image::Image;

/// What is translated and translated back has the history that it had: of a schedule of the source its acting steps are
/// left, and for a schedule of the machine translating once more changes nothing.
pub fn translates_back(image: &Image, cells: usize)
    requires { IsCells (code_of_image image.now) cells }
    ensures { TranslatesBack (file_of image.now) (program_of image.now) (code_of_image image.now) cells }
{}
