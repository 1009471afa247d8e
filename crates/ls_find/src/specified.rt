// What specifies the program of an image.

ghost use Rattle.std.specs.Prelude.{◌≡◌};
ghost use Rattle.ls_specification.specs.Specification.{given_file, given_of, given_program, spec_file, spec_program};
ghost use Rattle.ls_translation.specs.Texts.{file_of, program_of};

use ls_image::image::Image;
use ls_specification::Specification;

/// The program of an image as a specification.
pub(crate) fn own(image: &Image) -> Specification<'_>
    ensures file { spec_file result ≡ file_of image.now }
    ensures program { spec_program result ≡ program_of image.now }
{
    Specification::own(image.checked().file(), image.program())
}

/// The specification that is given; else the program of the image itself.
pub(crate) fn specification_of<'a>(
    given: Option<Specification<'a>>,
    image: &'a Image,
) -> Specification<'a>
    ensures file { spec_file result ≡ given_file (given_of given.entry) (file_of image.now) }
    ensures program { spec_program result ≡ given_program (given_of given.entry) (program_of image.now) }
{
    match given {
        Some(specification) => specification,
        None => own(image),
    }
}
