// The programs that are looked through, and menus that are written by hand.

ghost use Rattle.std.specs.Prelude.{◌≡◌, ◌⊎◌, IfErr, IfOk, OnOk, option_map};
ghost use Rattle.ls_items.specs.Cutting.{plain_text};
ghost use Rattle.ls_find_commands.specs.Found.{AreOwnPrograms, AreProgramsFor, EntriesFit, HasNoLike, HasNoOwn};
ghost use Rattle.ls_find_commands.specs.Found.{HasNoPrograms, IsUnfit};
ghost use Rattle.ls_find_commands.specs.Lacking.{LacksNone};

use crate::lacking::{check_calls, check_reference};
use ls_class_programs::{Choosing, ClassPrograms, EntryFault, check_entries, programs_of};
use ls_compiler::compile;
use ls_faults::fault::ToolFault;
use std::alloc::{AllocError, Global};

/// What programs are made of, and judged by.
#[derive(Copy)]
pub struct Texts<'a> {
    pub classes: &'a str,
    /// A menu that is written by hand. If there is none, the methods of the class are the menu.
    pub menu: Option<&'a str>,
    /// A reference, if one is given: the class text by which the other is judged. Then the programs are those of its
    /// class.
    pub reference: Option<&'a str>,
}

impl<'a> Clone for Texts<'a> {
    fn clone(&self) -> Result<Texts<'a>, AllocError> {
        Ok(*self)
    }
}

/// Checks that each entry of a menu that is written by hand, if one is given, is calls of the class.
fn check_menu(
    alloc: Global,
    classes: &str,
    making: &str,
    threads: u64,
    menu: Option<&str>,
) -> Result<(), EntryFault>
    ensures fit { OnOk result (EntriesFit classes.now making.now threads (option_map plain_text menu.entry)) }
    ensures unfit { IfErr result (λ f. (f ≡ EntryFault.Memory) ⊎ IsUnfit classes.now making.now threads
        (option_map plain_text menu.entry) f) }
{
    match menu {
        Some(menu) => check_entries(alloc, classes, making, threads, menu),
        None => Ok(()),
    }
}

/// The programs of a class text. Refused as `programs_of` is; else as `check_entries` is, if a menu is given.
fn own_programs(
    alloc: Global,
    choosing: Choosing,
    classes: &str,
    menu: Option<&str>,
) -> Result<ClassPrograms, ToolFault>
    ensures programs { IfOk result (AreOwnPrograms choosing classes.now (option_map plain_text menu.entry)) }
    ensures refused { IfErr result (λ f. (f ≡ ToolFault.Memory) ⊎ HasNoOwn choosing classes.now
        (option_map plain_text menu.entry) f) }
{
    let made = programs_of(alloc, choosing, classes, menu)?;
    let programs = made.programs();
    let threads = choosing.bounds.threads;
    check_menu(alloc, classes, programs.making(), threads, menu)?;
    Ok(made)
}

/// The programs of a reference, all of whose calls the class has too.
fn programs_like(
    alloc: Global,
    choosing: Choosing,
    reference: &str,
    classes: &str,
    menu: Option<&str>,
) -> Result<ClassPrograms, ToolFault>
    ensures programs { IfOk result (λ p. AreOwnPrograms choosing reference.now (option_map plain_text menu.entry) p
        × LacksNone reference.now classes.now p) }
    ensures refused { IfErr result (λ f. (f ≡ ToolFault.Memory) ⊎ HasNoLike choosing reference.now classes.now
        (option_map plain_text menu.entry) f) }
{
    compile(alloc, classes, "setup { }\n")?;
    check_reference(alloc, reference)?;
    let made = own_programs(alloc, choosing, reference, menu)?;
    let programs = made.programs();
    check_calls(alloc, choosing, reference, classes, &programs)?;
    Ok(made)
}

/// The programs that are looked through.
///
/// Without a reference they are those of the class text. Refused as `programs_of` is; else as `check_entries` is, if a
/// menu is given.
///
/// With one they are those of the reference. Refused as `compile` is for the class text, and then for the reference;
/// else as above, for the reference; else with 74 if the class lacks one of its calls.
pub(crate) fn programs_for(
    alloc: Global,
    choosing: Choosing,
    texts: Texts<'_>,
) -> Result<ClassPrograms, ToolFault>
    ensures programs { IfOk result (AreProgramsFor choosing (option_map plain_text texts.entry.reference)
        texts.entry.classes.now (option_map plain_text texts.entry.menu)) }
    ensures refused { IfErr result (λ f. (f ≡ ToolFault.Memory) ⊎ HasNoPrograms choosing
        (option_map plain_text texts.entry.reference) texts.entry.classes.now
        (option_map plain_text texts.entry.menu) f) }
{
    match texts.reference {
        Some(reference) => programs_like(alloc, choosing, reference, texts.classes, texts.menu),
        None => own_programs(alloc, choosing, texts.classes, texts.menu),
    }
}
