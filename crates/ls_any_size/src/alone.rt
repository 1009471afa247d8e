// Whether each call of a menu runs alone.

ghost use Rattle.std.specs.Prelude.{◌≡◌, ◌++◌, IfOk, IfSome, IsTrue, OnOk, false, map, string_bytes, true};
ghost use Rattle.ls_any_size.specs.Alone.{IsAlone, RunsAlone, guard_text, said_text, whole_text};
ghost use Rattle.ls_explore_reports.specs.ImageNames.{names_in as ghost_names_in};
ghost use Rattle.ls_image.specs.Images.{Compiles};
ghost use Rattle.ls_labels.specs.Names.{names_of};
ghost use Rattle.ls_loopless.specs.Loops.{HasNoLoops};
ghost use Rattle.ls_translation.specs.Texts.{file_of};

use crate::compiled::with_call;
use crate::laws::calm_is_good;
use crate::menu::{Menu, are_made_of, menu_of};
use ls_explore_reports::names_in;
use ls_find::Sought;
use ls_guarded::guard::{Guard, guard_of};
use ls_image::image::Image;
use ls_labels::names::{Names, class_name, field_name};
use ls_loopless::loops::has_no_loops;
use ls_types_places::laws::one_answer;
use std::alloc::{AllocError, Global};

/// Adds what guards the calls.
fn push_guard(
    out: &mut String,
    names: Names<'_>,
    class: usize,
    guard: Guard,
) -> Result<(), AllocError>
    ensures { OnOk result (string_bytes out.new ≡
        string_bytes out.old ++ guard_text (names_of names.entry) class guard) }
{
    match guard {
        Guard::Monitor => out.push_str(", under its monitor"),
        Guard::Field(f) => {
            out.push_str(", under the lock of its field ")?;
            out.push_str(field_name(names, class, f))
        }
        Guard::No(_) => Ok(()),
    }
}

/// What is said of a class whose calls a guard guards.
fn said_of(
    alloc: Global,
    names: Names<'_>,
    class: usize,
    guard: Guard,
) -> Result<String, AllocError>
    ensures { IfOk result (λ text. string_bytes text ≡ said_text (names_of names.entry) class guard) }
{
    let mut out = String::new(alloc);
    out.push_str("each call of ")?;
    out.push_str(class_name(names, class))?;
    out.push_str(" runs alone")?;
    push_guard(&mut out, names, class, guard)?;
    Ok(out)
}

/// Whether what is looked for is decided where calls run alone.
fn is_decided(image: &Image, sought: Sought) -> bool
    ensures set { IsTrue result → sought.set ≡ false }
    ensures loops { IsTrue result → sought.turning ≡ true → HasNoLoops (file_of image.now) }
{
    !sought.set && (!sought.turning || has_no_loops(image.checked().file()))
}

/// What is said of the methods of a class by its checked file.
fn told(
    alloc: Global,
    image: &Image,
    menu: &Menu,
    sought: Sought,
) -> Result<Option<String>, AllocError>
    ensures { IfOk result (λ some. IfSome some (λ text.
        IsAlone sought (file_of image.now) (ghost_names_in image.now) menu.now.class menu.now.methods.items
        (string_bytes text))) }
{
    if !is_decided(image, sought) {
        return Ok(None);
    }
    match guard_of(alloc, image.checked().file(), menu.class, &menu.methods)? {
        Guard::No(_) => Ok(None),
        guard => Ok(Some(said_of(alloc, names_in(image), menu.class, guard)?)),
    }
}

/// That each call of a menu runs alone, whatever the size of a program, and under which lock. None if that isn't told
/// by the form of the class's methods, or doesn't decide what is looked for.
pub fn whole_of(
    alloc: Global,
    classes: &str,
    making: &str,
    calls: &[String],
    sought: Sought,
) -> Result<Option<String>, AllocError>
    ensures { IfOk result (λ some. IfSome some (λ text.
        RunsAlone sought classes.now making.now (map string_bytes calls.now) (string_bytes text))) }
{
    one_answer();
    calm_is_good();
    let Some(first) = calls.first() else {
        return Ok(None);
    };
    let Some(image) = with_call(alloc, classes, making, first.as_str())? else {
        return Ok(None);
    };
    let menu = menu_of(alloc, classes, making, calls)?;
    if !are_made_of(alloc, classes, making, &menu, calls)? {
        return Ok(None);
    }
    told(alloc, &image, &menu, sought)
}

/// What `find` prints of what is said so, where nothing is left to explore.
pub fn print_whole(alloc: Global, said: &str) -> Result<String, AllocError>
    ensures { IfOk result (λ text. string_bytes text ≡ whole_text said.now) }
{
    let mut out = String::new(alloc);
    out.push_str("// none, for programs of any size: ")?;
    out.push_str(said)?;
    out.push_str("\n")?;
    Ok(out)
}
