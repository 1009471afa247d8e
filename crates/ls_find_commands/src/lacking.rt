// What a class lacks of its reference.

ghost use Rattle.std.specs.Prelude.{◌≡◌, ◌≢◌, ◌⊎◌, IfErr, IfOk, OnOk, false, true};
ghost use Rattle.ls_image.specs.Images.{Compiles};
ghost use Rattle.ls_families.specs.Texts.{alone_text};
ghost use Rattle.ls_faults.specs.Faults.{lifted_specification};
ghost use Rattle.ls_find_commands.specs.Lacking.{HasCall, IsFirstFault, IsNoReference, LacksCall, LacksNone};
ghost use Rattle.ls_find_commands.specs.Lacking.{LacksOrIsNone, no_calls};

use ls_class_programs::{Choosing, place_of_call};
use ls_compiler::compile;
use ls_families::print_alone;
use ls_family_search::Programs;
use ls_faults::fault::ToolFault;
use ls_image::image::Image;
use ls_specified::{SpecificationFault, specified};
use std::alloc::Global;

/// The image of a reference with a program. Its refusal is told as the reference's.
fn image_of(alloc: Global, reference: &str, program: &str) -> Result<Image, ToolFault>
    ensures compiled { IfOk result (Compiles reference.now program.now) }
    ensures refused { IfErr result (IsNoReference reference.now program.now) }
{
    match compile(alloc, reference, program) {
        Ok(image) => Ok(image),
        Err(fault) => Err(ToolFault::from(SpecificationFault::NotCompiled(fault))),
    }
}

/// Checks that a reference is a class file that keeps every rule.
pub(crate) fn check_reference(alloc: Global, reference: &str) -> Result<(), ToolFault>
    ensures { IfErr result (IsNoReference reference.now no_calls) }
{
    image_of(alloc, reference, "setup { }\n")?;
    Ok(())
}

/// That a call is lacking, by the fault of the class text with it, unless memory ran out.
fn is_lacking(fault: SpecificationFault) -> Result<bool, ToolFault>
    ensures lacking { IfOk result (λ has. (has ≡ false) × (lifted_specification fault ≢ ToolFault.Memory)) }
    ensures memory { IfErr result (λ f. f ≡ ToolFault.Memory) }
{
    match ToolFault::from(fault) {
        ToolFault::Memory => Err(ToolFault::Memory),
        _ => Ok(false),
    }
}

/// Whether a class text has a call of its reference.
fn has_call(
    alloc: Global,
    reference: &str,
    classes: &str,
    making: &str,
    call: &str,
) -> Result<bool, ToolFault>
    ensures has { IfOk result (λ has. has ≡ true → HasCall reference.now classes.now making.now call.now) }
    ensures lacks { IfOk result (λ has. has ≡ false → LacksCall reference.now classes.now making.now call.now) }
    ensures refused { IfErr result (λ f. (f ≡ ToolFault.Memory) ⊎
        IsNoReference reference.now (alone_text making.now 0 call.now) f) }
{
    let text = print_alone(alloc, making, 0, call)?;
    let image = image_of(alloc, reference, text.as_str())?;
    match specified(alloc, classes, text.as_str(), image.program()) {
        Ok(_) => Ok(true),
        Err(fault) => is_lacking(fault),
    }
}

/// Checks that a class text has a call of its reference.
fn check_call(
    alloc: Global,
    choosing: Choosing,
    reference: &str,
    classes: &str,
    making: &str,
    call: &str,
) -> Result<(), ToolFault>
    ensures has { OnOk result (HasCall reference.now classes.now making.now call.now) }
    ensures lacks { IfErr result (λ f. (f ≡ ToolFault.Memory) ⊎
        LacksOrIsNone choosing reference.now classes.now making.now call.now f) }
{
    let has = has_call(alloc, reference, classes, making, call)?;
    if has {
        return Ok(());
    }
    let place = place_of_call(alloc, choosing, reference, call)?;
    Err(ToolFault::LacksMethod(place))
}

/// Checks that a class text has each call of its reference: the making of an object, and then each call of the menu.
pub(crate) fn check_calls(
    alloc: Global,
    choosing: Choosing,
    reference: &str,
    classes: &str,
    programs: &Programs<'_>,
) -> Result<(), ToolFault>
    ensures none { OnOk result (LacksNone reference.now classes.now programs.now) }
    ensures first { IfErr result (λ f. (f ≡ ToolFault.Memory) ⊎
        IsFirstFault choosing reference.now classes.now programs.now f) }
{
    let making = programs.making();
    check_call(alloc, choosing, reference, classes, making, "")?;
    let calls = programs.calls(alloc)?;
    for call in &calls {
        check_call(alloc, choosing, reference, classes, making, call.as_str())?;
    }
    Ok(())
}
