// The judge of programs that explores them.

ghost use Rattle.std.specs.Prelude.{IfOk, IfSome, IsTrue, Option as OptionValue};
ghost use Rattle.ls_family_search.specs.Judged.{IsJudgement};
ghost use Rattle.ls_find.specs.Doubles.{ExchangesAt};
ghost use Rattle.ls_find.specs.Found.{IsCut, IsGivenBy, IsSound, IsWhy, Text};
ghost use Rattle.ls_find.specs.Sought.{AllNamed};
ghost use Rattle.ls_image.specs.Images.{Compiles};
ghost use Rattle.ls_specification.specs.Specification.{given_of};
ghost use Rattle.ls_translation.specs.Texts.{file_of, program_of};

use crate::laws::sound_follows;
use crate::notes::note_on;
use crate::reasons::why_text;
use crate::simplifying::simplified;
use crate::sought::{Sought, sought_verdict};
use crate::specified::own;
use crate::verdict::ProgramVerdict;
use ls_compiler::compile;
use ls_compiler::fault::CompileFault;
use ls_exchanged::{are_doubles_at, place_of_doubles};
use ls_explore_reports::names_in;
use ls_family_search::{Judge, Judgement};
use ls_image::image::Image;
use ls_schedule::print_schedule;
use ls_specification::Specification;
use ls_text_laws::{schedules_read_back, source_is_readable};
use std::alloc::{AllocError, Global};

/// Why the search ends with a program.
#[derive(Drop)]
pub enum Why {
    /// A schedule is bad: why, with its context switches if none with its history has fewer; the line on the event that
    /// no order of whole calls explains, or nothing; and its text.
    Bad {
        why: String,
        note: String,
        schedule: String,
    },
    /// The class text doesn't compile with the program.
    NotCompiled(CompileFault),
    /// The class text that specifies it doesn't.
    NotSpecified(CompileFault),
}

/// Explores each program of a class text.
#[derive(Drop)]
pub struct Explorer<'a> {
    /// The class text that specifies it. If there is none, its own calls, run one at a time, do.
    pub specification: Option<&'a str>,
    pub classes: &'a str,
    /// How many states of a program are kept at the most.
    pub states: usize,
    /// What is looked for.
    pub sought: Sought,
}

/// What is said of an image.
fn judged(
    alloc: Global,
    given: Option<Specification<'_>>,
    image: &Image,
    states: usize,
    sought: Sought,
) -> Result<Judgement<Why>, AllocError>
    requires { AllNamed (file_of image.now) (program_of image.now) }
    ensures { IfOk result (λ j. (specification : OptionValue Text) (classes program : Text) →
        IsGivenBy specification program (given_of given.entry) → Compiles classes program image.now →
        IsJudgement (IsSound sought specification classes program) (IsCut sought states specification classes program)
        (IsWhy sought specification classes program) j) }
{
    schedules_read_back();
    match sought_verdict(alloc, given, image, states, sought)? {
        ProgramVerdict::Good => Ok(Judgement::Good),
        ProgramVerdict::Unknown => Ok(Judgement::Cut),
        ProgramVerdict::Bad(reason, steps) => {
            let run = simplified(alloc, given, image, reason, &steps)?;
            run.schedule.fits();
            let why = why_text(alloc, reason, names_in(image), &run)?;
            let note = note_on(alloc, given, image, reason, &run.schedule)?;
            let schedule = print_schedule(alloc, &run.schedule, image.program())?;
            Ok(Judgement::Halt(Why::Bad {
                why,
                note,
                schedule,
            }))
        }
    }
}

/// Whether a class text compiles with both programs, and there the second is the first with a thread, which isn't the
/// setup, and the next exchanged; and its number.
pub fn exchanged_in(classes: &str, alloc: Global, first: &str, second: &str) -> Option<usize>
    ensures { IfSome result (λ u. ExchangesAt u classes.now first.now second.now) }
{
    let Ok(image) = compile(alloc, classes, second) else {
        return None;
    };
    let Ok(before) = compile(alloc, classes, first) else {
        return None;
    };
    place_of_doubles(before.program(), image.program())
}

/// Whether that is so of the thread of this number.
fn are_exchanged_in(classes: &str, alloc: Global, first: &str, second: &str, place: usize) -> bool
    ensures { IsTrue result → ExchangesAt place classes.now first.now second.now }
{
    let Ok(image) = compile(alloc, classes, second) else {
        return false;
    };
    let Ok(before) = compile(alloc, classes, first) else {
        return false;
    };
    are_doubles_at(before.program(), image.program(), place)
}

impl<'a> Judge for Explorer<'a> {
    ghost use Rattle.std.specs.Prelude.{option_map};
    ghost use Rattle.ls_find.specs.Found.{IsCut, IsSound, IsWhy};
    ghost use Rattle.ls_items.specs.Cutting.{plain_text};

    type Why = Why;

    ghost IsGood = { λ e program. IsSound e.sought (option_map plain_text e.specification) e.classes.now program };

    ghost IsCut = { λ e program. IsCut e.sought e.states (option_map plain_text e.specification)
        e.classes.now program };

    ghost Halts = { λ e program why. IsWhy e.sought (option_map plain_text e.specification) e.classes.now program why };

    fn judge(&self, alloc: Global, program: &str) -> Result<Judgement<Why>, AllocError> {
        source_is_readable();
        let image = match compile(alloc, self.classes, program) {
            Ok(image) => image,
            Err(fault) => return Ok(Judgement::Halt(Why::NotCompiled(fault))),
        };
        let Some(specification) = self.specification else {
            return judged(alloc, None, &image, self.states, self.sought);
        };
        match compile(alloc, specification, program) {
            Ok(other) => judged(alloc, Some(own(&other)), &image, self.states, self.sought),
            Err(fault) => Ok(Judgement::Halt(Why::NotSpecified(fault))),
        }
    }

    fn follows(&self, alloc: Global, program: &str, other: &str) -> Result<bool, AllocError> {
        sound_follows();
        let Some(place) = exchanged_in(self.classes, alloc, other, program) else {
            return Ok(false);
        };
        let Some(specification) = self.specification else {
            return Ok(true);
        };
        Ok(are_exchanged_in(specification, alloc, other, program, place))
    }
}
