// Whether an image's program has a data race.

ghost use Rattle.std.specs.Prelude.{◌≡◌, ◌↔◌, [], IfOk, IsTrue, map, true};
ghost use Rattle.ls_race_reports.specs.Verdicts.{IsRaceVerdict};
ghost use Rattle.ls_translation.specs.Texts.{file_of, program_of};

use crate::finding::{first_sure, is_free, races_of};
use ls_image::image::Image;
use ls_races::{Race, Races};
use std::alloc::{AllocError, Global};

/// Whether a program has a data race.
#[derive(Drop)]
pub enum RaceVerdict {
    /// No two threads are ever about to make accesses that conflict.
    Free,
    /// A race of which it is known that it is one.
    Raced(Race),
    /// It isn't known.
    Unknown,
}

/// The same race.
fn copied(alloc: Global, race: &Race) -> Result<Race, AllocError>
    ensures { IfOk result (λ r. r ≡ race.now) }
{
    Ok(Race {
        schedule: race.schedule.copied(alloc)?,
        fewest: race.fewest,
        on: race.on,
    })
}

/// Whether there is none, on a variable of any kind.
fn are_none(races: &Races) -> bool
    ensures { IsTrue result ↔ ((races.now.complete ≡ true) × (races.now.races.items ≡ [])) }
{
    races.complete && races.races.is_empty()
}

/// Whether an image's program has a data race, where at most so many states are kept, by the flags of the fields of
/// each class. Of its races it is the simplest of which it is known that it is one. It isn't known where too many
/// states or objects would have to be kept, where the run is too long for a schedule, or where a field is volatile in
/// one of several classes with as many fields. The refusals are those of `find_races`.
pub fn race_verdict(
    alloc: Global,
    image: &Image,
    states: usize,
    flags: &[Vec<bool>],
) -> Result<RaceVerdict, AllocError>
    ensures { IfOk result (IsRaceVerdict states (map (λ v. v.items) flags.now) (file_of image.now)
        (program_of image.now)) }
{
    if is_free(alloc, image, states, flags)? {
        return Ok(RaceVerdict::Free);
    }
    if states == 0 {
        return Ok(RaceVerdict::Unknown);
    }
    let races = races_of(alloc, image, states, flags)?;
    match first_sure(flags, races.races.as_slice()) {
        Some(race) => Ok(RaceVerdict::Raced(copied(alloc, race)?)),
        None => {
            if are_none(&races) {
                return Ok(RaceVerdict::Free);
            }
            Ok(RaceVerdict::Unknown)
        }
    }
}
