// Images that tests borrow. Each crate that owns an image has to prove how it is dropped, with all trees in it. Here
// that is proved once, for all crates of tests.

use ls_compiler::compile;
use ls_image::image::Image;
use std::alloc::Global;
use std::test::Fail;

/// What a test finds in the image of a class text and a program text, which it borrows.
pub fn with_image<T, F: FnOnce(&Image) -> Result<T, Fail> + Drop>(
    alloc: Global,
    classes: &str,
    program: &str,
    run: F,
) -> Result<T, Fail>
    requires { F.IsAlwaysCallable run }
{
    let image = compile(alloc, classes, program)?;
    run(&image)
}
