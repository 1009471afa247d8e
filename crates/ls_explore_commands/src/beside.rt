// What `explore --verdict` says of threads that turn for ever, and beside `none` of calls that run one at a time, of
// livelocks and of data races.

ghost use Rattle.std.specs.Prelude.{◌≡◌, ◌++◌, IfOk, IfSome, IsTrue, map, string_bytes, true};
ghost use Rattle.ls_alone.specs.Alone.{AreSaid};
ghost use Rattle.ls_explore_commands.specs.Beside.{AreLines, IsBeside, IsLivelockSaid, beside_text};
ghost use Rattle.ls_explore_reports.specs.ImageNames.{names_in as image_names};
ghost use Rattle.ls_image.specs.Images.{program_of_image};
ghost use Rattle.ls_labels.specs.Names.{names_of};
ghost use Rattle.ls_progress_laws.specs.Livelocks.{IsLivelock};
ghost use Rattle.ls_race_laws.specs.Meeting.{NeverMeets};
ghost use Rattle.ls_race_reports.specs.Verdicts.{IsRaceVerdict};
ghost use Rattle.ls_races.specs.Volatile.{volatile_by};
ghost use Rattle.ls_schedule.specs.Reading.{thread_names};
ghost use Rattle.ls_spinning.specs.Told.{IsTurning};
ghost use Rattle.ls_spinning.specs.declared.finding.Turning.TheVariants.{Never};
ghost use Rattle.ls_translation.specs.Texts.{file_of, program_of};

use ls_alone::fault_lines;
use ls_end_reports::livelock_line;
use ls_explore_reports::names_in;
use ls_image::image::Image;
use ls_labels::names::Names;
use ls_progress::{Lasso, Scope as EndsScope, find_livelock};
use ls_race_reports::{
    RaceVerdict, flags_in, free_words, has_try_lock, kind_words, race_verdict, raced_words,
};
use ls_races::{Scope, TurningAndRaces, turning_and_races};
use ls_spinning::Turning;
use std::alloc::{AllocError, Global};

/// Whether a program has a data race, as a line.
fn beside_words(
    alloc: Global,
    names: Names<'_>,
    flags: &[Vec<bool>],
    tries: bool,
    verdict: &RaceVerdict,
) -> Result<String, AllocError>
    ensures { IfOk result (λ text. string_bytes text ≡
        beside_text (names_of names.entry) (map (λ v. v.items) flags.now) tries verdict.now) }
{
    match verdict {
        RaceVerdict::Free => String::from_str(alloc, free_words(true, tries)),
        RaceVerdict::Unknown => String::from_str(alloc, free_words(false, tries)),
        RaceVerdict::Raced(race) => {
            let on = kind_words(alloc, names, flags, race.on)?;
            raced_words(alloc, on.as_str(), "")
        }
    }
}

/// What is said of the calls of an image's program where they run one at a time.
fn alone_lines(alloc: Global, image: &Image) -> Result<String, AllocError>
    ensures { IfOk result (λ text. AreSaid (image_names image.now)
        (thread_names (program_of_image image.now)) (string_bytes text)) }
{
    fault_lines(alloc, names_in(image))
}

/// What the graph of an image's program tells of threads that turn for ever and of data races, by the flags of its
/// classes' fields. At most twice as many states are kept.
fn read_graph(
    alloc: Global,
    image: &Image,
    flags: &[Vec<bool>],
    states: usize,
) -> Result<TurningAndRaces, AllocError>
    ensures turning { IfOk result (λ r. IsTurning (file_of image.now) (program_of image.now) r.turning) }
    ensures races { IfOk result (λ r. IsTrue r.race_free →
        NeverMeets (volatile_by (map (λ v. v.items) flags.now)) (file_of image.now) (program_of image.now)) }
{
    let told = turning_and_races(Scope {
        alloc,
        file: image.checked().file(),
        program: image.program(),
        classes: flags,
        limit: states.saturating_mul(2),
    })?;
    Ok(told)
}

/// A livelock of an image's program, if one is found among so many states.
fn livelock_in(alloc: Global, image: &Image, states: usize) -> Result<Option<Lasso>, AllocError>
    ensures { IfOk result (λ o. IfSome o (λ l.
        IsLivelock (file_of image.now) (program_of image.now) l.way.items l.cycle.items)) }
{
    let found = find_livelock(EndsScope {
        alloc,
        file: image.checked().file(),
        program: image.program(),
        limit: states,
        again: false,
    })?;
    Ok(found)
}

/// What is said of livelocks of an image's program. They are looked for if steps go round.
fn livelock_words(
    alloc: Global,
    image: &Image,
    states: usize,
    goes_round: bool,
) -> Result<String, AllocError>
    ensures { IfOk result (λ text. IsLivelockSaid image.now (string_bytes text)) }
{
    if !goes_round {
        return Ok(String::new(alloc));
    }
    match livelock_in(alloc, image, states)? {
        None => Ok(String::new(alloc)),
        Some(lasso) => livelock_line(alloc, &lasso, image.program()),
    }
}

/// Whether an image's program has a data race, where it may be known that it has none.
fn verdict_of(
    alloc: Global,
    image: &Image,
    flags: &[Vec<bool>],
    states: usize,
    race_free: bool,
) -> Result<RaceVerdict, AllocError>
    requires { IsTrue race_free →
        NeverMeets (volatile_by (map (λ v. v.items) flags.now)) (file_of image.now) (program_of image.now) }
    ensures { IfOk result (IsRaceVerdict states (map (λ v. v.items) flags.now) (file_of image.now)
        (program_of image.now)) }
{
    if race_free {
        return Ok(RaceVerdict::Free);
    }
    race_verdict(alloc, image, states, flags)
}

/// What is told of a program's schedules beside their histories.
#[derive(Drop)]
pub(crate) struct Told {
    pub turning: Turning,
    /// Lines on calls that run one at a time, on livelocks and on data races, where threads never turn for ever.
    pub beside: String,
}

/// Lines, and below them these.
fn with_lines(lines: String, livelock: &str, races: &str) -> Result<String, AllocError>
    ensures { IfOk result (λ text. string_bytes text ≡ string_bytes lines ++ (livelock.now ++ races.now)) }
{
    let mut text = lines;
    text.push_str(livelock)?;
    text.push_str(races)?;
    Ok(text)
}

/// The lines beside `none`: what calls that run one at a time do, a livelock, and this line on data races.
fn lines_of(
    alloc: Global,
    image: &Image,
    states: usize,
    goes_round: bool,
    races: &str,
) -> Result<String, AllocError>
    ensures { IfOk result (λ text. AreLines image.now races.now (string_bytes text)) }
{
    let alone = alone_lines(alloc, image)?;
    let livelock = livelock_words(alloc, image, states.saturating_mul(2), goes_round)?;
    let lines = with_lines(alone, livelock.as_str(), races)?;
    Ok(lines)
}

/// Whether threads of an image's program turn for ever, and if they never do, what calls that run one at a time do,
/// whether a livelock is found, and whether there is a data race by the class text. For races at most so many states
/// are kept, and for turning and livelocks twice as many. If no accesses meet, one graph tells of turning and of races.
/// The refusals are those of `find_turning`, of `find_livelock` and of `find_races`.
pub(crate) fn told_of(
    alloc: Global,
    image: &Image,
    classes: &str,
    states: usize,
) -> Result<Told, AllocError>
    ensures turning { IfOk result (λ t. IsTurning (file_of image.now) (program_of image.now) t.turning) }
    ensures beside { IfOk result (λ t. t.turning ≡ Never →
        IsBeside classes.now image.now states true (string_bytes t.beside)) }
{
    let declared = flags_in(alloc, classes)?;
    let flags = declared.as_slice();
    let TurningAndRaces {
        turning,
        race_free,
        goes_round,
    } = read_graph(alloc, image, flags, states)?;
    match turning {
        Turning::Never => {
            let verdict = verdict_of(alloc, image, flags, states, race_free)?;
            let tries = has_try_lock(classes);
            let race_line = beside_words(alloc, names_in(image), flags, tries, &verdict)?;
            let beside = lines_of(alloc, image, states, goes_round, race_line.as_str())?;
            Ok(Told {
                turning: Turning::Never,
                beside,
            })
        }
        Turning::After(schedule) => Ok(Told {
            turning: Turning::After(schedule),
            beside: String::new(alloc),
        }),
        Turning::Unknown => Ok(Told {
            turning: Turning::Unknown,
            beside: String::new(alloc),
        }),
    }
}
