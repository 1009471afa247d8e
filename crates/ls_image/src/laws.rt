// What each image keeps. The functions compute nothing; their contracts say it.

ghost use Rattle.std.specs.Prelude.{◌<◌, length};
ghost use Rattle.ls_checked.specs.PlainProgram.{plain_program};
ghost use Rattle.ls_image.specs.Images.{RunsAsItsTexts, checked_of, code_of_image, program_of_image};
ghost use Rattle.ls_preservation.specs.Acting.{ActsInTime};
ghost use Rattle.ls_preservation.specs.InTime.{EndsInTime};
ghost use Rattle.ls_types_checked.specs.CheckedFile.{elaborated_file};

use crate::image::Image;

/// The code of an image runs as its file and its program do.
pub fn runs(image: &Image)
    ensures { ∥ RunsAsItsTexts image.now ∥₁ }
{}

/// The code of an image has a thread: the setup is one.
pub fn has_setup(image: &Image)
    ensures { 0 < length (code_of_image image.now).starts }
{}

/// If the source of a thread of an image acts next, the thread makes at most `most_silent` silent steps, and then
/// acts. It stops the machine only if there is no room for what the source's step makes.
pub fn acts_in_time(image: &Image)
    ensures { ActsInTime (elaborated_file (checked_of image.now)).file (plain_program (program_of_image image.now))
        (code_of_image image.now) }
{}

/// If the source of a thread of an image has ended or has been trapped, the thread does the same in time. It takes at
/// most `most_silent` steps of its own.
pub fn ends_in_time(image: &Image)
    ensures { EndsInTime (elaborated_file (checked_of image.now)).file (plain_program (program_of_image image.now))
        (code_of_image image.now) }
{}
