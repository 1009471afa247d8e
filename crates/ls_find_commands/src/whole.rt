// What is said of a class at once, whatever the bounds.

ghost use Rattle.std.specs.Prelude.{◌≡◌, ◌↔◌, IfOk, IfSome, IsTrue, None, false, option_map, string_bytes};
ghost use Rattle.ls_items.specs.Cutting.{plain_text};
ghost use Rattle.ls_find_commands.specs.Found.{AreAllNumbers, IsWhole, smallest};

use crate::command::Range;
use crate::menus::Texts;
use ls_any_size::{print_whole, whole_of};
use ls_class_programs::{Choosing, ClassFault, programs_of};
use ls_families::Bounds;
use ls_find::Sought;
use std::alloc::{AllocError, Global};

/// The same class, with 1 for each int that a call passes, and the smallest bounds.
fn smallest(choosing: Choosing) -> Choosing
    ensures { result ≡ smallest choosing }
{
    Choosing {
        class: choosing.class,
        values: 1,
        given: choosing.given,
        bounds: Bounds {
            threads: 2,
            calls: 1,
            setup: 0,
        },
    }
}

/// What is printed where each call of the class runs alone, and nothing is left to explore. None where that isn't so.
fn whole(
    alloc: Global,
    choosing: Choosing,
    sought: Sought,
    texts: Texts<'_>,
) -> Result<Option<String>, AllocError>
    ensures { IfOk result (λ some. IfSome some (λ text. IsWhole choosing sought texts.entry.classes.now
        (option_map plain_text texts.entry.menu) (string_bytes text))) }
{
    let made = match programs_of(alloc, smallest(choosing), texts.classes, texts.menu) {
        Ok(made) => made,
        Err(ClassFault::Memory) => return Err(AllocError),
        Err(_) => return Ok(None),
    };
    let programs = made.programs();
    let calls = programs.calls(alloc)?;
    match whole_of(
        alloc,
        texts.classes,
        programs.making(),
        calls.as_slice(),
        sought,
    )? {
        Some(said) => Ok(Some(print_whole(alloc, said.as_str())?)),
        None => Ok(None),
    }
}

/// Whether no range is asked for: it has the numbers of all programs that a family may have.
pub(crate) fn are_all_numbers(range: Range) -> bool
    ensures { IsTrue result ↔ AreAllNumbers range }
{
    range.from == 1 && range.to >= 1_000_000
}

/// The same, if no range is asked for, no reference is given, and neither data races alone are looked for nor calls
/// that throw or never end when calls run one at a time.
pub(crate) fn at_once(
    alloc: Global,
    choosing: Choosing,
    range: Range,
    texts: Texts<'_>,
) -> Result<Option<String>, AllocError>
    ensures numbers { IfOk result (λ some. IfSome some (λ text. AreAllNumbers range)) }
    ensures calls { IfOk result (λ some. IfSome some (λ text. range.races ≡ false)) }
    ensures lax { IfOk result (λ some. IfSome some (λ text. range.strict ≡ false)) }
    ensures own { IfOk result (λ some. IfSome some (λ text. option_map plain_text texts.entry.reference ≡ None)) }
    ensures text { IfOk result (λ some. IfSome some (λ text. IsWhole choosing range.sought texts.entry.classes.now
        (option_map plain_text texts.entry.menu) (string_bytes text))) }
{
    if range.races || range.strict || texts.reference.is_some() || !are_all_numbers(range) {
        return Ok(None);
    }
    whole(alloc, choosing, range.sought, texts)
}
