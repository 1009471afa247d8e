// The programs of a class.

ghost use Rattle.std.specs.Prelude.{◌≡◌, ◌<◌, ◌≤◌, ◌⊎◌, ◌↔◌, IfErr, IfOk, IsTrue, map};
ghost use Rattle.std.specs.Prelude.{option_map, string_bytes};
ghost use Rattle.ls_class_programs.specs.Written.{or_those, own_entries, thread_entries};
ghost use Rattle.ls_items.specs.Cutting.{plain_text};
ghost use Rattle.ls_tree.specs.Views.{bare_class};
ghost use Rattle.ls_class_programs.specs.ClassPrograms.{AreBadIntegers, AreBadValues, AreOfClass, AreOfPlace};
ghost use Rattle.ls_class_programs.specs.ClassPrograms.{AreProgramsOf, HasTooManyCalls, IsClassFault, LacksAtPlace};
ghost use Rattle.ls_class_programs.specs.ClassPrograms.{LacksPrograms, own_calls, thread_calls};

use crate::arguments::Integers;
use crate::choosing::{Choosing, chosen};
use crate::fault::ClassFault;
use crate::{MOST_VALUES, calls_of, entries_of, makings_of};
use ls_families::{Family, MenuSizes};
use ls_family_search::Programs;
use ls_lexer::lexing::lex;
use ls_parser::parsing::parse_text;
use ls_tree::tree::Class;
use std::alloc::{AllocError, Global};
use std::marker::Model;

/// The programs of a class: the texts of its menu, and the family over that.
#[derive(Drop)]
pub struct ClassPrograms {
    makings: Vec<String>,
    setup: Vec<String>,
    threads: Vec<String>,
    family: Family,
}

impl Model for ClassPrograms {
    ghost use Rattle.std.specs.Prelude.{map, string_bytes};
    ghost use Rattle.ls_family_search.specs.Judged.{Programs as ProgramsValue};

    ghost Value = { ProgramsValue };

    ghost view = { λ p. record {
      family = p.family;
      menu = record {
        makings = map string_bytes p.makings.items;
        setup = map string_bytes p.setup.items;
        threads = map string_bytes p.threads.items;
      };
    } };
}

impl ClassPrograms {
    /// The programs.
    pub fn programs(&self) -> Programs<'_>
        ensures { result ≡ self.now }
    {
        Programs::new(
            &self.family,
            self.makings.as_slice(),
            self.setup.as_slice(),
            self.threads.as_slice(),
        )
    }
}

/// Whether a number is none of the nine integers.
fn are_bad_values(values: u64) -> bool
    ensures { IsTrue result ↔ AreBadValues values }
{
    values == 0 || values > MOST_VALUES as u64
}

/// Whether integers aren't some of the nine, from one to another that doesn't stand before it.
fn are_bad_integers(integers: Integers) -> bool
    ensures { IsTrue result ↔ AreBadIntegers integers }
{
    integers.first == 0 || integers.last < integers.first || integers.last > MOST_VALUES as u64
}

/// The calls of the entries of threads of a menu that is written by hand.
fn thread_entries(alloc: Global, menu: &str) -> Result<Vec<String>, AllocError>
    ensures { IfOk result (λ calls. map string_bytes calls.items ≡ thread_entries menu.now) }
{
    let entries = entries_of(alloc, menu)?;
    let mut calls = Vec::new(alloc);
    for entry in &entries {
        if !entry.is_of_setup() {
            calls.push(String::from_str(alloc, entry.calls())?)?;
        }
    }
    Ok(calls)
}

/// The calls of its entries of the setup alone.
fn own_entries(alloc: Global, menu: &str) -> Result<Vec<String>, AllocError>
    ensures { IfOk result (λ calls. map string_bytes calls.items ≡ own_entries menu.now) }
{
    let entries = entries_of(alloc, menu)?;
    let mut calls = Vec::new(alloc);
    for entry in &entries {
        if entry.is_of_setup() {
            calls.push(String::from_str(alloc, entry.calls())?)?;
        }
    }
    Ok(calls)
}

/// The calls of which each thread chooses: those of a menu that is written by hand, or of a class. If a menu has some
/// of the setup alone, and no others, they are those of the class.
fn thread_calls(
    alloc: Global,
    most: usize,
    class: &Class,
    menu: Option<&str>,
) -> Result<Vec<String>, ClassFault>
    requires { most ≤ 9 }
    ensures calls { IfOk result (λ calls. map string_bytes calls.items ≡
        thread_calls (option_map plain_text menu.entry) most (bare_class class.now)) }
    ensures refused { IfErr result (λ f. (f ≡ ClassFault.Memory) ⊎ ((f ≡ ClassFault.TooManyCalls)
        × HasTooManyCalls (option_map plain_text menu.entry) most (bare_class class.now))) }
{
    if let Some(text) = menu {
        let written = thread_entries(alloc, text)?;
        if !written.is_empty() {
            return Ok(written);
        }
        let own = own_entries(alloc, text)?;
        if own.is_empty() {
            return Ok(written);
        }
    }
    Ok(calls_of(alloc, most, class)?)
}

/// Copies of texts.
fn copied(alloc: Global, texts: &[String]) -> Result<Vec<String>, AllocError>
    ensures { IfOk result (λ all. map string_bytes all.items ≡ map string_bytes texts.now) }
{
    let mut all = Vec::new(alloc);
    for text in texts {
        all.push(String::from_str(alloc, text.as_str())?)?;
    }
    Ok(all)
}

/// The calls of which the setup chooses: those of a menu that are of the setup alone, or if there are none, those of
/// threads.
fn setup_calls(
    alloc: Global,
    menu: Option<&str>,
    threads: &[String],
) -> Result<Vec<String>, AllocError>
    ensures { IfOk result (λ calls. map string_bytes calls.items ≡
        or_those (own_calls (option_map plain_text menu.entry)) (map string_bytes threads.now)) }
{
    if let Some(text) = menu {
        let own = own_entries(alloc, text)?;
        if !own.is_empty() {
            return Ok(own);
        }
    }
    copied(alloc, threads)
}

/// The programs of a class, over its own menu or one that is written by hand.
fn of_class(
    alloc: Global,
    class: &Class,
    choosing: Choosing,
    menu: Option<&str>,
) -> Result<ClassPrograms, ClassFault>
    requires values { choosing.values ≤ 9 }
    requires given { ¬ AreBadIntegers choosing.given }
    ensures programs { IfOk result (AreOfClass choosing (option_map plain_text menu.entry) (bare_class class.now)) }
    ensures refused { IfErr result (LacksPrograms choosing (option_map plain_text menu.entry) (bare_class class.now)) }
{
    let most = choosing.values as usize;
    let makings = makings_of(alloc, choosing.given, class)?;
    if makings.is_empty() {
        return Err(ClassFault::NoMaking);
    }
    let threads = thread_calls(alloc, most, class, menu)?;
    let setup = setup_calls(alloc, menu, threads.as_slice())?;
    let sizes = MenuSizes {
        makings: makings.len() as u64,
        setup: setup.len() as u64,
        threads: threads.len() as u64,
    };
    let family = Family::new(alloc, sizes, choosing.bounds)?;
    Ok(ClassPrograms {
        makings,
        setup,
        threads,
        family,
    })
}

/// The programs of the class at a place.
fn of_place(
    alloc: Global,
    classes: &[Class],
    at: usize,
    choosing: Choosing,
    menu: Option<&str>,
) -> Result<ClassPrograms, ClassFault>
    requires values { choosing.values ≤ 9 }
    requires given { ¬ AreBadIntegers choosing.given }
    ensures programs { IfOk result (AreOfPlace choosing (option_map plain_text menu.entry)
        (map bare_class classes.now) at) }
    ensures refused { IfErr result (LacksAtPlace choosing (option_map plain_text menu.entry)
        (map bare_class classes.now) at) }
{
    match classes.get(at) {
        Some(class) => of_class(alloc, class, choosing, menu),
        None => Err(ClassFault::Memory),
    }
}

/// The programs of the class that is chosen of a class text. Each makes an object by its first constructor, with the
/// integers that are given, and booleans, for its parameters. Its calls are those of a menu that is written by hand, if
/// one is given, and else of the class's menu. The setup chooses of the same calls, unless that menu has entries of the
/// setup alone.
///
/// `BadBounds` comes if there are no integers or more than 9, or the constructor is given none of these 9. Else `Text`
/// comes as of `parse_text`, and `NotOneClass` if no class is chosen. Else, if memory doesn't run out, a fault says why
/// the class has no programs: `TooManyCalls`, `NoMaking`, `NoCalls`, `BadBounds` or `TooManyPrograms`.
pub fn programs_of(
    alloc: Global,
    choosing: Choosing,
    classes: &str,
    menu: Option<&str>,
) -> Result<ClassPrograms, ClassFault>
    ensures programs { IfOk result (AreProgramsOf choosing classes.now (option_map plain_text menu.entry)) }
    ensures refused { IfErr result (IsClassFault choosing classes.now (option_map plain_text menu.entry)) }
{
    if are_bad_values(choosing.values) {
        return Err(ClassFault::BadBounds);
    }
    if are_bad_integers(choosing.given) {
        return Err(ClassFault::BadBounds);
    }
    let file = parse_text(alloc, classes)?;
    let Ok(tokens) = lex(alloc, classes) else {
        return Err(ClassFault::Memory);
    };
    let all = file.classes();
    match chosen(choosing.class, tokens.as_slice(), all) {
        Some(at) => of_place(alloc, all, at, choosing, menu),
        None => Err(ClassFault::NotOneClass),
    }
}
