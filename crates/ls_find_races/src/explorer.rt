// The judge of programs that looks for their data races.

ghost use Rattle.std.specs.Prelude.{◌≡◌, IfOk, map, string_bytes};
ghost use Rattle.ls_explore_reports.specs.ImageNames.{names_in};
ghost use Rattle.ls_family_search.specs.Judged.{IsJudgement};
ghost use Rattle.ls_fewest_switches.specs.Wording.{switches_text};
ghost use Rattle.ls_find.specs.Found.{Text};
ghost use Rattle.ls_find_races.specs.Raced.{IsNotSaid, IsRaceFree, IsRaceWhy};
ghost use Rattle.ls_image.specs.Images.{Compiles, program_of_image};
ghost use Rattle.ls_race_reports.specs.ClassFlags.{AreFlags};
ghost use Rattle.ls_race_reports.specs.Words.{kind_text};
ghost use Rattle.ls_schedule.specs.Printing.{schedule_text};
ghost use Rattle.ls_schedule.specs.Reading.{thread_names};

use crate::laws::race_free_follows;
use ls_compiler::compile;
use ls_compiler::fault::CompileFault;
use ls_explore_reports::names_in;
use ls_family_search::{Judge, Judgement};
use ls_fewest_switches::{SimpleRun, push_switches};
use ls_find::exchanged_in;
use ls_image::image::Image;
use ls_race_reports::{RaceVerdict, flags_in, kind_words, race_verdict};
use ls_races::Race;
use ls_schedule::print_schedule;
use ls_text_laws::schedules_read_back;
use std::alloc::{AllocError, Global};

/// A data race, as it is told.
#[derive(Drop)]
pub struct RaceFound {
    /// The variable, as `Node.next`.
    pub on: String,
    /// How many context switches the schedule has, if those before the accesses are the fewest, as
    /// `; context switches 2`; else nothing.
    pub switches: String,
    /// The schedule, whose last two steps are the accesses.
    pub schedule: String,
}

/// Why the search ends with a program.
#[derive(Drop)]
pub enum RaceWhy {
    Raced(RaceFound),
    /// The class text doesn't compile with the program.
    NotCompiled(CompileFault),
}

/// Looks for data races of each program of a class text.
#[derive(Drop)]
pub struct RaceExplorer<'a> {
    pub classes: &'a str,
    /// How many states of a program are kept at the most.
    pub states: usize,
}

/// How many context switches the run of a race has, if those before the accesses are the fewest.
fn switches_of(alloc: Global, race: &Race) -> Result<String, AllocError>
    ensures { IfOk result (λ text. string_bytes text ≡ switches_text race.now.fewest race.now.schedule) }
{
    let run = SimpleRun {
        schedule: race.schedule.copied(alloc)?,
        fewest: race.fewest,
    };
    let mut text = String::new(alloc);
    push_switches(&mut text, &run)?;
    Ok(text)
}

/// A race of an image's program, as it is told.
fn found_of(
    alloc: Global,
    image: &Image,
    flags: &[Vec<bool>],
    race: &Race,
) -> Result<RaceFound, AllocError>
    ensures on { IfOk result (λ f. string_bytes f.on ≡
        kind_text (names_in image.now) (map (λ v. v.items) flags.now) race.now.on) }
    ensures switches { IfOk result (λ f. string_bytes f.switches ≡
        switches_text race.now.fewest race.now.schedule) }
    ensures schedule { IfOk result (λ f. string_bytes f.schedule ≡
        schedule_text (thread_names (program_of_image image.now)) race.now.schedule) }
{
    let on = kind_words(alloc, names_in(image), flags, race.on)?;
    let switches = switches_of(alloc, race)?;
    let schedule = print_schedule(alloc, &race.schedule, image.program())?;
    Ok(RaceFound {
        on,
        switches,
        schedule,
    })
}

/// What is said of an image's program.
fn judged(
    alloc: Global,
    image: &Image,
    flags: &[Vec<bool>],
    states: usize,
) -> Result<Judgement<RaceWhy>, AllocError>
    ensures { IfOk result (λ j. (classes program : Text) → AreFlags classes (map (λ v. v.items) flags.now) →
        Compiles classes program image.now →
        IsJudgement (IsRaceFree classes program) (IsNotSaid states classes program) (IsRaceWhy classes program) j) }
{
    schedules_read_back();
    match race_verdict(alloc, image, states, flags)? {
        RaceVerdict::Free => Ok(Judgement::Good),
        RaceVerdict::Unknown => Ok(Judgement::Cut),
        RaceVerdict::Raced(race) => {
            let found = found_of(alloc, image, flags, &race)?;
            Ok(Judgement::Halt(RaceWhy::Raced(found)))
        }
    }
}

impl<'a> Judge for RaceExplorer<'a> {
    ghost use Rattle.ls_find_races.specs.Raced.{IsNotSaid, IsRaceFree, IsRaceWhy};

    type Why = RaceWhy;

    ghost IsGood = { λ e program. IsRaceFree e.classes.now program };

    ghost IsCut = { λ e program. IsNotSaid e.states e.classes.now program };

    ghost Halts = { λ e program why. IsRaceWhy e.classes.now program why };

    fn judge(&self, alloc: Global, program: &str) -> Result<Judgement<RaceWhy>, AllocError> {
        let image = match compile(alloc, self.classes, program) {
            Ok(image) => image,
            Err(fault) => return Ok(Judgement::Halt(RaceWhy::NotCompiled(fault))),
        };
        let flags = flags_in(alloc, self.classes)?;
        judged(alloc, &image, &flags, self.states)
    }

    fn follows(&self, alloc: Global, program: &str, other: &str) -> Result<bool, AllocError> {
        race_free_follows();
        match exchanged_in(self.classes, alloc, other, program) {
            Some(_) => Ok(true),
            None => Ok(false),
        }
    }
}
